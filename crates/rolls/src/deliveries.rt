//! The deliveries of an epoch.
ghost use Rattle.std.specs.Prelude.{◌≡◌, ◌+◌, ◌-◌, min, true, false};
ghost use Rattle.rolls.specs.Rolls.{highest};

/// The deliveries of an epoch: how many are under way, and whether more may begin.
#[derive(Drop)]
pub struct Deliveries {
    /// How many are under way.
    pub count: u64,
    /// Whether none begins any more.
    pub are_closed: bool,
}

impl Deliveries {
    /// Before the first one: none is under way, and any may begin.
    pub fn new() -> Self
        ensures none { result.count ≡ 0 }
        ensures open { result.are_closed ≡ false }
    {
        Deliveries {
            count: 0,
            are_closed: false,
        }
    }

    /// Counts one more, unless none begins any more. Returns whether it did.
    pub fn begin(&mut self) -> bool
        ensures counted { result ≡ true → self.new.count ≡ min (self.old.count + 1) highest }
        ensures open { result ≡ true → self.old.are_closed ≡ false }
        ensures refused { result ≡ false → self.old.are_closed ≡ true }
        ensures same { result ≡ false → self.new ≡ self.old }
        ensures rest { self.new.are_closed ≡ self.old.are_closed }
    {
        if self.are_closed {
            return false;
        }
        self.count = self.count.saturating_add(1);
        true
    }

    /// One has ended. Counts one less, down to 0.
    pub fn end(&mut self)
        ensures counted { self.new.count ≡ self.old.count - 1 }
        ensures rest { self.new.are_closed ≡ self.old.are_closed }
    {
        self.count = self.count.saturating_sub(1);
    }
}
