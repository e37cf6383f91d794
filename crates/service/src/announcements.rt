//! The end of a run, for the operators who wait for it.

use crate::announcement::Announcement;
use std::sync::{Mutex, Wait};

/// What is announced about a run, once it has ended.
#[derive(Drop)]
pub(crate) struct Announcements {
    announced: Mutex<Option<Announcement>>,
}

impl Announcements {
    /// The announcements of a run that has not ended.
    pub(crate) fn new() -> Self {
        Announcements {
            announced: Mutex::new(None),
        }
    }

    /// Announces it to all who look for it.
    pub(crate) fn announce<R: Wait>(&self, rt: &R, announcement: Announcement) {
        *self.announced.lock(rt) = Some(announcement);
    }

    /// What is announced, once the run has ended.
    pub(crate) fn get<R: Wait>(&self, rt: &R) -> Option<Announcement> {
        match &*self.announced.lock(rt) {
            Some(announcement) => Some(announcement.again()),
            None => None,
        }
    }
}
