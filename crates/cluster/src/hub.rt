//! The inboxes of a cluster.

use ballot::{Envelope, Memory, NodeId};
use crossbeam_channel::{Receiver, Sender, unbounded};
use maildrop::SharedCommand;
use std::alloc::{AllocError, Global};
use std::sync::{Arc, RwLock, Wait};

/// Where the thread of a node takes its envelopes from.
pub(crate) type Inbox = Receiver<Envelope<SharedCommand>>;

/// The end of a node's inbox that envelopes are put into.
#[derive(Drop)]
struct NodeSender {
    node: NodeId,
    sender: Sender<Envelope<SharedCommand>>,
}

/// The inboxes of all nodes that run here. No other place has a sender of them, so that closing the hub ends each
/// inbox, and with it the thread that takes from it.
#[derive(Drop)]
pub(crate) struct Hub {
    senders: RwLock<Vec<NodeSender>>,
}

impl Hub {
    /// A hub without inboxes.
    pub(crate) fn new(alloc: Global) -> Result<Arc<Hub>, Memory> {
        let senders = RwLock::new(Vec::new(alloc));
        Ok(Arc::new(alloc, Hub { senders })?)
    }

    /// Opens an inbox for a node.
    pub(crate) fn open<R: Wait>(
        &self,
        rt: &R,
        alloc: Global,
        node: NodeId,
    ) -> Result<Inbox, Memory> {
        let (sender, inbox) = unbounded(alloc)?;
        self.senders.write(rt).push(NodeSender { node, sender })?;
        Ok(inbox)
    }

    /// Puts an envelope into its addressee's inbox. Returns whether it is in there: not if that node doesn't run here, its
    /// thread has ended, or there is no memory.
    pub(crate) fn deliver<R: Wait>(&self, rt: &R, envelope: Envelope<SharedCommand>) -> bool {
        let senders = self.senders.read(rt);
        match senders.iter().find(|end| end.node == envelope.to) {
            None => false,
            Some(end) => end.sender.send(rt, envelope).is_ok(),
        }
    }

    /// Whether an envelope lies in an inbox that its node has not heard.
    pub(crate) fn has_unheard<R: Wait>(&self, rt: &R) -> bool {
        let senders = self.senders.read(rt);
        senders.iter().any(|end| !end.sender.is_empty())
    }

    /// Closes all inboxes: who takes from one finds what is left in it, and then its end. Takes no memory.
    pub(crate) fn close<R: Wait>(&self, rt: &R, alloc: Global) {
        *self.senders.write(rt) = Vec::new(alloc);
    }
}
