//! The limits of operators' requests.

/// Within how many milliseconds the line of a request is whole.
pub const LINE_MS: u64 = 10_000;

/// The same for a connection that has no place of its own.
pub const BRIEF_LINE_MS: u64 = 1_000;

/// After how many milliseconds a request that waits looks again whether its client has gone.
pub const LOOK_MS: u64 = 400;

/// For how many milliseconds a request that needs the nodes waits for the next epoch, once this one has ended.
pub const NEXT_EPOCH_MS: u64 = 1_500;

/// How often the sessions are cut that come although the service stops at once, in milliseconds.
pub const CUT_MS: u64 = 100;

/// After how many milliseconds a request that waits for the end of the service looks again.
pub const END_LOOK_MS: u64 = 1_000;

/// After how many milliseconds a request for the end of an epoch looks again whether it ends already.
pub const ENDING_LOOK_MS: u64 = 20;

/// How many milliseconds lie between two looks whether the locks are broken that sessions of a stopped node hold.
pub const BROKEN_LOOK_MS: u64 = 50;

/// How many such looks there are at most before `crash` is answered: for some 10 seconds.
pub const MOST_BROKEN_LOOKS: u32 = 200;
