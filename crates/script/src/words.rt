//! The words of a line, with one space between.
ghost use Rattle.std.specs.Prelude.{◌≡◌, position, IfSome};
ghost use Rattle.std.specs.Option.{option_map};
ghost use Rattle.apop.specs.Accounts as accounts;
ghost use Rattle.maildrop.specs.Text.{IsLine};
ghost use Rattle.script.specs.Commands as spec;

use crate::numbers::node_of;
use ballot::NodeId;
use maildrop::Name;

fn place_of_space(bytes: &[u8]) -> Option<usize>
    ensures { result ≡ position accounts.is_space bytes.now }
{
    bytes.iter().position(|byte| *byte == b' ')
}

/// The first word and what stands after its space, if there is a space.
pub(crate) fn cut_at_space(bytes: &[u8]) -> Option<(&[u8], &[u8])>
    ensures parts { option_map (λ parts. (parts.0.now, parts.1.now)) result ≡ accounts.cut_at_space bytes.now }
    ensures line { IsLine bytes.now → IfSome result (λ parts. IsLine parts.1.now) }
{
    match place_of_space(bytes) {
        Some(place) => Some((&bytes[..place], &bytes[place + 1..])),
        None => None,
    }
}

/// The node and the user of `NODE USER`.
pub(crate) fn node_and_user(bytes: &[u8]) -> Option<(NodeId, Name)>
    ensures { result ≡ spec.node_and_user bytes.now }
{
    let (node, user) = cut_at_space(bytes)?;
    let node = node_of(node)?;
    let user = Name::new(user)?;
    Some((node, user))
}
