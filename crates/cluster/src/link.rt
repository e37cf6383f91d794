//! How nodes reach one another.

use crate::hub::Hub;
use ballot::{Envelope, NodeId};
use maildrop::SharedCommand;
use std::sync::{Arc, Wait};

/// Where a node's envelopes go. A link may lose them, and may hand each on late or more than once. It is called by
/// several threads, none of which then has a node's lock. A node's thread hears nothing while its call doesn't return, and
/// the end of the cluster waits for that: `Cluster::stop`, and letting the cluster go.
pub trait Link {
    fn send(&self, envelope: Envelope<SharedCommand>);

    /// Sends all that goes to one node, in its order, so that a link can hand it on in one piece. The list is empty afterwards.
    fn send_all(&self, _to: NodeId, envelopes: &mut Vec<Envelope<SharedCommand>>) {
        for envelope in envelopes.drain(..) {
            self.send(envelope);
        }
    }

    /// Whether it carries what a node sends to itself. Else the node hears that at once, while it has the lock.
    fn carries_own(&self) -> bool {
        true
    }
}

/// A link to the inboxes of one cluster.
#[derive(Drop)]
pub struct InboxLink<R: Wait> {
    rt: R,
    hub: Arc<Hub>,
}

impl<R: Wait> InboxLink<R> {
    pub(crate) fn new(rt: R, hub: Arc<Hub>) -> Self {
        InboxLink { rt, hub }
    }
}

impl<R: Wait> Link for InboxLink<R> {
    /// An envelope to a node that isn't in the cluster, or that has stopped, is lost; so is one for which there is no
    /// memory.
    fn send(&self, envelope: Envelope<SharedCommand>) {
        let _lost = self.hub.deliver(&self.rt, envelope);
    }

    fn carries_own(&self) -> bool {
        false
    }
}
