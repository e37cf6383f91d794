//! The rows of a file of accounts.
ghost use Rattle.std.specs.Prelude.{◌≡◌, position};
ghost use Rattle.std.specs.List.{list_all};
ghost use Rattle.std.specs.Option.{option_map};
ghost use Rattle.apop.specs.Accounts as spec;

use crate::method::Method;
use maildrop::Name;

/// The most bytes that a secret has.
const LONGEST_SECRET: usize = 255;

/// The first printable character, and the last one.
const FIRST_PRINTABLE: u8 = b' ';

const LAST_PRINTABLE: u8 = b'~';

/// The first byte that is no ASCII character.
const FIRST_BEYOND_ASCII: u8 = 0x80;

/// The parts of a row `name method secret`.
#[derive(Drop)]
pub struct Row<'a> {
    /// The user.
    pub name: Name,
    /// How the user logs in.
    pub method: Method,
    /// 1 to 255 bytes of 0x20 to 0x7E or 0x80 to 0xFF.
    pub secret: &'a [u8],
}

fn place_of_space(bytes: &[u8]) -> Option<usize>
    ensures { result ≡ position spec.is_space bytes.now }
{
    bytes.iter().position(|byte| *byte == b' ')
}

fn cut_at_space(bytes: &[u8]) -> Option<(&[u8], &[u8])>
    ensures { option_map (λ parts. (parts.0.now, parts.1.now)) result ≡ spec.cut_at_space bytes.now }
{
    match place_of_space(bytes) {
        Some(place) => Some((&bytes[..place], &bytes[place + 1..])),
        None => None,
    }
}

fn is_secret_byte(byte: u8) -> bool
    ensures { result ≡ spec.is_secret_byte byte }
{
    (FIRST_PRINTABLE <= byte && byte <= LAST_PRINTABLE) || FIRST_BEYOND_ASCII <= byte
}

fn are_secret_bytes(bytes: &[u8]) -> bool
    ensures { result ≡ list_all spec.is_secret_byte bytes.now }
{
    bytes.iter().all(|byte| is_secret_byte(*byte))
}

pub(crate) fn is_secret(bytes: &[u8]) -> bool
    ensures { result ≡ spec.is_secret bytes.now }
{
    !bytes.is_empty() && bytes.len() <= LONGEST_SECRET && are_secret_bytes(bytes)
}

/// The parts of a line, if it is a row of an accounts file. Takes no memory.
pub fn row_of(line: &[u8]) -> Option<Row<'_>>
    ensures { option_map (λ row. record { name = row.name; method = row.method; secret = row.secret.now }) result
        ≡ spec.row_of line.now }
{
    let (name, rest) = cut_at_space(line)?;
    let (word, secret) = cut_at_space(rest)?;
    let method = Method::from_word(word)?;
    let name = Name::new(name)?;
    if is_secret(secret) {
        Some(Row {
            name,
            method,
            secret,
        })
    } else {
        None
    }
}
