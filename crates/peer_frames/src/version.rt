//! The versions of frames.
ghost use Rattle.std.specs.Prelude.{◌≡◌};
ghost use Rattle.peer_frames.specs.Numbers.{version_of};

/// A version of frames. Both are read, and the second is written. In the first a delivery has no key.
#[derive(Clone, Copy, Debug, PartialEq, Eq)]
pub(crate) enum Version {
    First,
    Second,
}

impl Version {
    /// The version of this number, if there is one.
    pub(crate) fn of(number: u8) -> Option<Version>
        ensures { result ≡ version_of number }
    {
        match number {
            1 => Some(Version::First),
            2 => Some(Version::Second),
            _ => None,
        }
    }
}
