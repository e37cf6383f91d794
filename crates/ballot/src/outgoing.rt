//! What a node has to send.
ghost use Rattle.std.specs.Prelude.{◌≡◌, [], ◌∷◌, ◌++◌, OnOk, OnErr};
ghost use Rattle.ballot.specs.Sends.{to_all};

use crate::cluster::Cluster;
use crate::items::Items;
use crate::memory::Memory;
use crate::message::Message;
use crate::node_id::NodeId;
use crate::payload::Payload;
use std::alloc::{Allocator, Global};

/// A message and its addressee.
#[derive(Drop)]
pub struct Outgoing<C, A: Allocator = Global> {
    /// The addressee.
    pub to: NodeId,
    /// What is sent.
    pub message: Message<C, A>,
}

/// Messages to send, in their order.
pub type Sends<C, A = Global> = Items<Outgoing<C, A>, A>;

impl<C: Payload, A: Allocator + Copy> Items<Outgoing<C, A>, A> {
    /// Adds the message to each node of the cluster, in the order of their numbers. After `Memory`
    /// the list is as it was.
    pub fn broadcast(&mut self, cluster: Cluster, message: Message<C, A>) -> Result<(), Memory>
        ensures ok { OnOk result (self.new ≡ self.old ++ to_all cluster message) }
        ensures err { OnErr result (self.new ≡ self.old) }
    {
        let before = self.len();
        let last = cluster.get();
        for below in 0..last - 1 {
            if self
                .add_copy(NodeId::numbered(below + 1), &message)
                .is_err()
            {
                self.truncate(before);
                return Err(Memory);
            }
        }
        let to = NodeId::numbered(last);
        if self.push(Outgoing { to, message }).is_err() {
            self.truncate(before);
            return Err(Memory);
        }
        Ok(())
    }

    /// Adds a copy of the message to this node. After `Memory` the list is as it was.
    fn add_copy(&mut self, to: NodeId, message: &Message<C, A>) -> Result<(), Memory>
        ensures ok { OnOk result (self.new ≡ self.old ++ record { to = to; message = message.now } ∷ []) }
        ensures err { OnErr result (self.new ≡ self.old) }
    {
        let message = message.copy()?;
        self.push(Outgoing { to, message })
    }
}
