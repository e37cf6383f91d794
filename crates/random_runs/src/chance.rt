//! Random choices.

use rand_core::utils::NextWord;
use rand_pcg::Pcg32;

/// Random choices. Those of one seed are the same each time.
#[derive(Drop)]
pub struct Chance {
    words: Pcg32,
}

impl Chance {
    /// The choices of this seed.
    pub fn new(seed: u64) -> Self {
        Chance {
            words: Pcg32::new(seed, 1),
        }
    }

    /// A number below `count`, or 0 if there is none.
    pub fn below(&mut self, count: usize) -> usize {
        let word = self.words.next_word() as usize;
        if count == 0 { 0 } else { word % count }
    }

    /// One of the items, if there are some.
    pub fn pick<'a, T>(&mut self, items: &'a [T]) -> Option<&'a T> {
        items.get(self.below(items.len()))
    }
}
