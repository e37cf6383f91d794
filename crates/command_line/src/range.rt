//! The numbers that an option may have.
ghost use Rattle.std.specs.Prelude.{◌≡◌};
ghost use Rattle.command_line.specs.Ranges as spec;

use std::fmt;

/// The highest port.
pub const LAST_PORT: u64 = 65_535;

/// 2^40 and 2^63, which are written so.
pub const TWO_TO_40: u64 = 1 << 40;

pub const TWO_TO_63: u64 = 1 << 63;

/// The numbers that an option may have.
#[derive(Clone, Copy)]
pub enum Range {
    /// From the first of these to the second.
    Between(u64, u64),
    /// The ports below those of the nodes: node n's is the port n above it.
    BelowNodes,
    /// The nodes' numbers.
    Nodes,
}

impl Range {
    /// The lowest number and the highest one. Nothing if they depend on the number of nodes, which isn't given.
    pub fn ends(self, nodes: Option<u64>) -> Option<(u64, u64)>
        ensures { result ≡ spec.ends self nodes }
    {
        match (self, nodes) {
            (Range::Between(low, high), _) => Some((low, high)),
            (Range::BelowNodes, Some(nodes)) => Some((0, LAST_PORT.saturating_sub(nodes))),
            (Range::Nodes, Some(nodes)) => Some((1, nodes)),
            (Range::BelowNodes | Range::Nodes, None) => None,
        }
    }
}

/// The highest number that an option may have, as it is written.
#[derive(Clone, Copy, Debug)]
pub struct Bound(pub u64);

impl fmt::Display for Bound {
    fn fmt<W: fmt::Write>(&self, f: &mut fmt::Formatter<W>) -> fmt::Result {
        let number = self.0;
        if number == TWO_TO_40 {
            write!(f, "2^40")
        } else if number == TWO_TO_63 {
            write!(f, "2^63")
        } else {
            write!(f, "{number}")
        }
    }
}
