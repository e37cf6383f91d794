//! Numbers of a line: decimal, without leading zeros.
ghost use Rattle.std.specs.Prelude.{◌≡◌, ◌≤◌, ◌^◌, IsTrue, MatchOption};
ghost use Rattle.std.specs.List.{list_all};
ghost use Rattle.std.specs.Char.{is_ascii_digit};
ghost use Rattle.pop3_wire.specs.Commands.{number_value as value_of_digits};
ghost use Rattle.script.specs.Words as spec;

use ballot::{LAST_NODE, NodeId};

fn are_digits(bytes: &[u8]) -> bool
    ensures { result ≡ list_all is_ascii_digit bytes.now }
{
    bytes.iter().all(|byte| byte.is_ascii_digit())
}

fn has_leading_zero(bytes: &[u8]) -> bool
    ensures { result ≡ spec.has_leading_zero bytes.now }
{
    match bytes {
        [first, _, ..] => *first == b'0',
        _ => false,
    }
}

fn is_decimal(bytes: &[u8]) -> bool
    ensures { result ≡ spec.is_decimal bytes.now }
{
    !bytes.is_empty() && are_digits(bytes) && !has_leading_zero(bytes)
}

/// The value of digits, if it has no more than 64 bits.
fn value_of(digits: &[u8]) -> Option<u64>
    requires { IsTrue (list_all is_ascii_digit digits.now) }
    ensures { MatchOption result (2 ^ 64 ≤ value_of_digits digits.now) (λ value. value ≡ value_of_digits digits.now) }
{
    let mut value: u64 = 0;
    for digit in digits {
        let longer = 10 * u128::from(value) + u128::from(*digit - b'0');
        match u64::try_from(longer) {
            Ok(fitting) => value = fitting,
            Err(_) => return None,
        }
    }
    Some(value)
}

/// The number of these digits, if it is one from `low` to `high` without leading zeros.
pub(crate) fn number_between(low: u64, high: u64, bytes: &[u8]) -> Option<u64>
    ensures { result ≡ spec.number_between low high bytes.now }
{
    if !is_decimal(bytes) {
        return None;
    }
    let value = value_of(bytes)?;
    if low <= value && value <= high {
        Some(value)
    } else {
        None
    }
}

/// A number of 64 bits.
pub(crate) fn number_of(bytes: &[u8]) -> Option<u64>
    ensures { result ≡ spec.number_of bytes.now }
{
    number_between(0, u64::MAX, bytes)
}

/// The node of this number.
pub(crate) fn node_of(bytes: &[u8]) -> Option<NodeId>
    ensures { result ≡ spec.node_of bytes.now }
{
    let number = number_between(1, u64::from(LAST_NODE), bytes)?;
    NodeId::new(number as u8)
}

/// The node of this number, or `None` for 0, which is any node.
pub(crate) fn node_or_any(bytes: &[u8]) -> Option<Option<NodeId>>
    ensures { result ≡ spec.node_or_any bytes.now }
{
    let number = number_between(0, u64::from(LAST_NODE), bytes)? as u8;
    Some(NodeId::new(number))
}
