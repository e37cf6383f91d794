//! Reads a command from a line (RFC 1939 section 3).
ghost use Rattle.std.specs.Prelude.{◌≡◌, ◌≤◌, [], ◌∷◌, length, map, position, IsTrue, MatchOption, if◌then◌else◌};
ghost use Rattle.std.specs.List.{list_all, slice_split};
ghost use Rattle.std.specs.Option.{option_map, option_copied};
ghost use Rattle.std.specs.Char.{to_ascii_lowercase, is_ascii_digit};
ghost use Rattle.std.specs.Str.{bytes_eq};
ghost use Rattle.memchr.specs.Find.{is_byte};
ghost use Rattle.pop3_wire.specs.Commands as spec;
ghost use Rattle.pop3_wire.specs.Arguments as parts;
ghost use Rattle.pop3_wire.specs.Limits.{longest_line, most_digits};

use crate::line_bytes::LineBytes;
use crate::verb::{Keyword, LineFault, Verb};
use maildrop::Name;
use memchr::memchr;

/// The most digits of a number.
const MOST_DIGITS: usize = 9;

fn is_word(bytes: &[u8], word: &[u8]) -> bool
    requires { map to_ascii_lowercase word.now ≡ word.now }
    ensures { result ≡ bytes_eq (map to_ascii_lowercase bytes.now) word.now }
{
    bytes.eq_ignore_ascii_case(word)
}

fn keyword_of(bytes: &[u8]) -> Option<Keyword>
    ensures { result ≡ spec.keyword_of bytes.now }
{
    if is_word(bytes, b"user") {
        Some(Keyword::User)
    } else if is_word(bytes, b"pass") {
        Some(Keyword::Pass)
    } else if is_word(bytes, b"apop") {
        Some(Keyword::Apop)
    } else if is_word(bytes, b"stat") {
        Some(Keyword::Stat)
    } else if is_word(bytes, b"list") {
        Some(Keyword::List)
    } else if is_word(bytes, b"retr") {
        Some(Keyword::Retr)
    } else if is_word(bytes, b"dele") {
        Some(Keyword::Dele)
    } else if is_word(bytes, b"noop") {
        Some(Keyword::Noop)
    } else if is_word(bytes, b"rset") {
        Some(Keyword::Rset)
    } else if is_word(bytes, b"top") {
        Some(Keyword::Top)
    } else if is_word(bytes, b"uidl") {
        Some(Keyword::Uidl)
    } else if is_word(bytes, b"capa") {
        Some(Keyword::Capa)
    } else if is_word(bytes, b"quit") {
        Some(Keyword::Quit)
    } else {
        None
    }
}

fn first_space(line: &[u8]) -> Option<usize>
    ensures { result ≡ position (is_byte 32) line.now }
{
    line.iter().position(|b| *b == b' ')
}

fn keyword_len(line: &[u8]) -> usize
    ensures value { result ≡ spec.keyword_len line.now }
    ensures range { result ≤ length line.now }
{
    match first_space(line) {
        Some(len) => len,
        None => line.len(),
    }
}

fn without_trailing_spaces(bytes: &[u8]) -> &[u8]
    ensures { result.now ≡ spec.without_trailing_spaces bytes.now }
{
    let mut left = bytes;
    while let Some((last, front)) = left.split_last() {
        if *last != b' ' {
            return left;
        }
        left = front;
    }
    left
}

fn are_digits(bytes: &[u8]) -> bool
    ensures { result ≡ list_all is_ascii_digit bytes.now }
{
    bytes.iter().all(|byte| byte.is_ascii_digit())
}

/// The value of at most `MOST_DIGITS` digits.
fn number_value(digits: &[u8]) -> u32
    requires few { length digits.now ≤ most_digits }
    requires digits { IsTrue (list_all is_ascii_digit digits.now) }
    ensures { result ≡ spec.number_value digits.now }
{
    let mut number = 0;
    for digit in digits {
        number = 10 * number + (*digit - b'0') as u32;
    }
    number
}

fn number_of(bytes: &[u8]) -> Option<u32>
    ensures { result ≡ spec.number_of bytes.now }
{
    if bytes.is_empty() || bytes.len() > MOST_DIGITS || !are_digits(bytes) {
        return None;
    }
    Some(number_value(bytes))
}

/// What stands before the first space and what comes after it, if there is a space.
fn cut_at_space(bytes: &[u8]) -> Option<(&[u8], &[u8])>
    ensures { MatchOption result
        (slice_split (is_byte 32) bytes.now ≡ bytes.now ∷ [])
        (λ cut. slice_split (is_byte 32) bytes.now ≡ cut.0.now ∷ slice_split (is_byte 32) cut.1.now) }
{
    match memchr(b' ', bytes) {
        None => None,
        Some(end) => Some((&bytes[..end], &bytes[end + 1..])),
    }
}

fn is_nothing(rest: &[u8]) -> bool
    ensures { result ≡ parts.is_nothing (spec.arguments_in rest.now) }
{
    rest.is_empty()
}

fn only_argument(rest: &[u8]) -> Option<&[u8]>
    ensures { option_copied result ≡ parts.only_argument (spec.arguments_in rest.now) }
{
    match rest {
        [] => None,
        [_, argument @ ..] => match cut_at_space(argument) {
            None => Some(argument),
            Some(_) => None,
        },
    }
}

fn two_arguments(rest: &[u8]) -> Option<(&[u8], &[u8])>
    ensures { option_map (λ both. (both.0.now, both.1.now)) result
        ≡ parts.two_arguments (spec.arguments_in rest.now) }
{
    match rest {
        [] => None,
        [_, both @ ..] => match cut_at_space(both) {
            None => None,
            Some((first, second)) => match cut_at_space(second) {
                None => Some((first, second)),
                Some(_) => None,
            },
        },
    }
}

fn name_in(rest: &[u8]) -> Option<Name>
    ensures { result ≡ parts.name_in (spec.arguments_in rest.now) }
{
    match only_argument(rest) {
        None => None,
        Some(argument) => Name::new(argument),
    }
}

fn number_in(rest: &[u8]) -> Option<u32>
    ensures { result ≡ parts.number_in (spec.arguments_in rest.now) }
{
    match only_argument(rest) {
        None => None,
        Some(argument) => number_of(argument),
    }
}

fn numbers_in(rest: &[u8]) -> Option<(u32, u32)>
    ensures { result ≡ parts.numbers_in (spec.arguments_in rest.now) }
{
    match two_arguments(rest) {
        None => None,
        Some((first, second)) => match (number_of(first), number_of(second)) {
            (Some(first), Some(second)) => Some((first, second)),
            _ => None,
        },
    }
}

fn apop_of(name: &[u8], digest: &[u8]) -> Option<Verb>
    ensures { result ≡ parts.apop_of name.now digest.now }
{
    let name = Name::new(name)?;
    // An argument has the characters of a name.
    let digest = Name::new(digest)?;
    Some(Verb::Apop {
        name,
        digest: LineBytes::copied(digest.get()),
    })
}

fn apop_in(rest: &[u8]) -> Option<Verb>
    ensures { result ≡ parts.apop_in (spec.arguments_in rest.now) }
{
    match two_arguments(rest) {
        None => None,
        Some((name, digest)) => apop_of(name, digest),
    }
}

fn bare(verb: Verb, rest: &[u8]) -> Option<Verb>
    ensures { result ≡ (if parts.is_nothing (spec.arguments_in rest.now) then Some verb else None) }
{
    if is_nothing(rest) { Some(verb) } else { None }
}

fn verb_with(keyword: Keyword, rest: &[u8]) -> Option<Verb>
    ensures { result ≡ parts.verb_by_parts keyword (spec.arguments_in rest.now) }
{
    match keyword {
        Keyword::User => name_in(rest).map(Verb::User),
        Keyword::Pass => None,
        Keyword::Apop => apop_in(rest),
        Keyword::Stat => bare(Verb::Stat, rest),
        Keyword::List if is_nothing(rest) => Some(Verb::List(None)),
        Keyword::List => number_in(rest).map(|number| Verb::List(Some(number))),
        Keyword::Retr => number_in(rest).map(Verb::Retr),
        Keyword::Dele => number_in(rest).map(Verb::Dele),
        Keyword::Noop => bare(Verb::Noop, rest),
        Keyword::Rset => bare(Verb::Rset, rest),
        Keyword::Top => numbers_in(rest).map(|(number, lines)| Verb::Top { number, lines }),
        Keyword::Uidl if is_nothing(rest) => Some(Verb::Uidl(None)),
        Keyword::Uidl => number_in(rest).map(|number| Verb::Uidl(Some(number))),
        Keyword::Capa => bare(Verb::Capa, rest),
        Keyword::Quit => bare(Verb::Quit, rest),
    }
}

fn pass_with(rest: &[u8]) -> Option<Verb>
    requires { length rest.now ≤ longest_line }
    ensures { result ≡ spec.pass_with rest.now }
{
    match rest {
        [] | [_] => None,
        [_, secret @ ..] => match LineBytes::new(secret) {
            Some(secret) => Some(Verb::Pass(secret)),
            None => None,
        },
    }
}

fn command_of(keyword: Keyword, rest: &[u8]) -> Result<Verb, LineFault>
    requires { length rest.now ≤ longest_line }
    ensures { result ≡ spec.command_of (Some keyword) rest.now }
{
    let verb = match keyword {
        Keyword::Pass => pass_with(rest),
        _ => verb_with(keyword, without_trailing_spaces(rest)),
    };
    verb.ok_or(LineFault::Arguments(keyword))
}

/// The command of a line. An unknown keyword is told before bad arguments. It takes no memory.
pub fn parse(line: &LineBytes) -> Result<Verb, LineFault>
    ensures { result ≡ spec.verb_of line.now }
{
    let bytes = line.get();
    let (word, rest) = bytes.split_at(keyword_len(bytes));
    match keyword_of(word) {
        None => Err(LineFault::Unknown),
        Some(keyword) => command_of(keyword, rest),
    }
}
