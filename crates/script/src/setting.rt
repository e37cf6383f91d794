//! The settings of a script.

use crate::account_row::AccountRow;
use crate::host::Host;
use crate::window::Window;
use ballot::Cluster;
use maildrop::Limits;

/// What a script sets before its first command.
#[derive(Drop)]
pub enum Setting<'a> {
    /// `nodes N`: the cluster has so many nodes, 1 to 9.
    Nodes(Cluster),
    /// `limits M O I`: the messages, octets and highest unique id of each maildrop.
    Limits(Limits),
    /// `window W`: how many slots after the first undecided one a replica may propose for, 1 to 1,000.
    Window(Window),
    /// `host H`: what stands after the `@` of all greetings.
    Host(Host),
    /// `account NAME METHOD SECRET`: a user who may log in.
    Account(AccountRow<'a>),
}
