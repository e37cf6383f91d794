//! Bytes as a case writes them: `\n`, `\r`, `\\` and `\xHH` stand for one byte each.

use std::alloc::Global;
use std::test::Fail;

/// What was read last.
#[derive(Clone, Copy)]
enum At {
    Plain,
    Escape,
    Digits,
    Digit(u8),
}

fn digit_of(byte: u8) -> Result<u8, Fail> {
    match (byte as char).to_digit(16) {
        Some(digit) => Ok(digit as u8),
        None => Err("no hexadecimal digit")?,
    }
}

/// The byte that a letter after a `\` stands for.
fn escaped(letter: u8) -> u8 {
    match letter {
        b'n' => b'\n',
        b'r' => b'\r',
        _ => letter,
    }
}

/// The byte that a byte of the text completes, if it completes one, and where the text is then.
fn step(at: At, byte: u8) -> Result<(Option<u8>, At), Fail> {
    match at {
        At::Plain if byte == b'\\' => Ok((None, At::Escape)),
        At::Plain => Ok((Some(byte), At::Plain)),
        At::Escape if byte == b'x' => Ok((None, At::Digits)),
        At::Escape => Ok((Some(escaped(byte)), At::Plain)),
        At::Digits => Ok((None, At::Digit(digit_of(byte)?))),
        At::Digit(high) => {
            let whole = high.wrapping_mul(16).wrapping_add(digit_of(byte)?);
            Ok((Some(whole), At::Plain))
        }
    }
}

/// The bytes that a text stands for.
pub fn bytes_of(alloc: Global, text: &str) -> Result<Vec<u8>, Fail> {
    let mut bytes = Vec::new(alloc);
    let mut at = At::Plain;
    for byte in text.bytes() {
        let (whole, next) = step(at, byte)?;
        if let Some(whole) = whole {
            bytes.push(whole)?;
        }
        at = next;
    }
    Ok(bytes)
}
