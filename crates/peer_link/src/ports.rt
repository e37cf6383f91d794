//! The ports at which nodes listen for one another.
ghost use Rattle.std.specs.Prelude.{◌≡◌};
ghost use Rattle.peer_link.specs.Ports as spec;

use ballot::NodeId;

/// The port at which a node listens for the others: its number above the base. None above 65,535.
pub fn port_of(base_port: u16, node: NodeId) -> Option<u16>
    ensures { result ≡ spec.port_of base_port node }
{
    base_port.checked_add(u16::from(node.get()))
}
