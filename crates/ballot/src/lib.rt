//! What every crate above names: the numbers of nodes and slots, ballots, messages, commands, lists,
//! and want of memory.
#![tactic(auto)]

mod ballot;
mod cluster;
mod items;
mod laws;
mod machine;
mod memory;
mod message;
mod node_id;
mod node_set;
mod outgoing;
mod payload;
mod pvalue;
mod slot;

pub use ballot::Ballot;
pub use cluster::Cluster;
pub use items::Items;
pub use laws::{
    a_union_holds_both, ballots_are_ordered, distinct_nodes_are_counted, majorities_share_a_node,
};
pub use machine::Machine;
pub use memory::Memory;
pub use message::{Envelope, Message, Promise, Vote};
pub use node_id::{LAST_NODE, NodeId};
pub use node_set::NodeSet;
pub use outgoing::{Outgoing, Sends};
pub use payload::Payload;
pub use pvalue::PValue;
pub use slot::{LAST_SLOT, Slot};
