//! When a node that waits in vain asks to lead.
ghost use Rattle.std.specs.Prelude.{◌≡◌};
ghost use Rattle.cluster.specs.Patience as spec;

use crate::status::Status;
use ballot::NodeId;
use std::marker::Model;

/// After how many ticks in vain the lowest node of all would ask to lead, and how many more each number waits.
const TICKS: u8 = 4;

/// Counts the ticks at which a node waits in vain: it awaits an answer, and no slot was decided since the tick before.
/// After 4 + 4n of them in a row node n is to ask to lead, and the count begins anew.
#[derive(Debug, Drop)]
pub struct Patience {
    me: NodeId,
    slot_out: u64,
    vain: u8,
}

impl Model for Patience {
    ghost use Rattle.std.specs.Prelude.{◌<◌};
    ghost use Rattle.cluster.specs.Patience.{Patience, patience_of};

    ghost Value = { Patience };

    ghost view = { λ p. record { me = p.me; slot_out = p.slot_out; vain = p.vain } };

    ghost invariant = { λ p. p.vain < patience_of p.me };
}

impl Patience {
    /// The patience of a new node.
    pub fn new(me: NodeId) -> Self
        ensures { result ≡ spec.new_patience me }
    {
        Patience {
            me,
            slot_out: 1,
            vain: 0,
        }
    }

    /// A tick, at which the node stands so. Gives whether it is to ask to lead now.
    pub fn tick(&mut self, status: Status) -> bool
        ensures campaigns { result ≡ spec.campaigns self.old status }
        ensures patience { self.new ≡ spec.ticked self.old status }
    {
        let is_vain = status.waiting && status.slot_out <= self.slot_out;
        let vain = if is_vain { self.vain + 1 } else { 0 };
        let campaigns = vain == TICKS + TICKS * self.me.get();
        self.slot_out = status.slot_out;
        self.vain = if campaigns { 0 } else { vain };
        campaigns
    }
}
