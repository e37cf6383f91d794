//! What a lone session is started with.

/// How many messages the maildrop of a lone session may hold.
pub const LONE_MESSAGES: u64 = 10_000;

/// How many octets the messages of a lone session may have together.
pub const LONE_OCTETS: u64 = 50_000_000;

/// The highest unique id that the maildrop of a lone session may give.
pub const LONE_IDS: u64 = 1_000_000_000;

/// The options of a lone session, as they came: any bytes.
#[derive(Clone, Copy)]
pub struct LoneOptions<'a> {
    /// The name of the one user.
    pub user: &'a [u8],
    /// What the user logs in by: `pass` or `apop`.
    pub method: &'a [u8],
    /// The user's secret.
    pub secret: &'a [u8],
    /// What stands before the `@` of the greeting's timestamp.
    pub nonce: &'a [u8],
    /// What stands after it.
    pub host: &'a [u8],
    /// A mailbox file, whose messages are in the maildrop when the session begins.
    pub mbox: Option<&'a [u8]>,
}
