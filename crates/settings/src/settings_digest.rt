//! The digest of what all nodes of a service must begin with alike.
ghost use Rattle.std.specs.Prelude.{◌≡◌, ◌++◌, take, IfOk, OnOk};
ghost use Rattle.std.specs.List.{flat_map};
ghost use Rattle.settings.specs.Digests as spec;

use crate::options::ServeOptions;
use ballot::Memory;
use hex::encode_to_slice;
use maildrop::Name;
use session_log::put;
use sha2::{Digest, Sha256};
use std::alloc::Global;

/// How many hexadecimal digits are reported.
const DIGITS: usize = 16;

/// A text of all that the nodes of a service must begin with alike: how many they are, their window, the limits of
/// maildrops, and the users in their order.
fn agreement_text(
    alloc: Global,
    options: &ServeOptions<'_>,
    names: &[Name],
) -> Result<Vec<u8>, Memory>
    ensures { IfOk result (λ text. text.items ≡ spec.agreement_text options.now names.now) }
{
    let ServeOptions {
        nodes,
        window,
        messages,
        octets,
        ids,
        ..
    } = *options;
    let numbers = format!(in alloc; "{nodes} {window} {messages} {octets} {ids}\n")?;
    let mut text = Vec::new(alloc);
    put(&mut text, numbers.as_bytes())?;
    put_names(&mut text, names)?;
    Ok(text)
}

fn put_name(text: &mut Vec<u8>, name: &Name) -> Result<(), Memory>
    ensures { OnOk result (text.new.items ≡ text.old.items ++ spec.name_line name.now) }
{
    put(text, name.get())?;
    put(text, b"\n")
}

/// Adds a line for each name.
fn put_names(text: &mut Vec<u8>, names: &[Name]) -> Result<(), Memory>
    ensures { OnOk result (text.new.items ≡ text.old.items ++ flat_map spec.name_line names.now) }
{
    for name in names {
        put_name(text, name)?;
    }
    Ok(())
}

/// The digits that are reported.
fn first_digits(digits: &[u8; 64]) -> &[u8]
    ensures { result.now ≡ take 16 digits.now }
{
    &digits[..DIGITS]
}

/// Returns the line that reports it: `settings`, and the first 16 hexadecimal digits of the text's SHA-256. It is the same in all
/// processes of a service. `Memory` if memory runs out.
pub fn agreement_line(
    alloc: Global,
    options: &ServeOptions<'_>,
    names: &[Name],
) -> Result<Vec<u8>, Memory>
    ensures { IfOk result (λ line. line.items ≡ spec.agreement_line options.now names.now) }
{
    let text = agreement_text(alloc, options, names)?;
    let mut digits = [0u8; 64];
    encode_to_slice(Sha256::digest(text.as_slice()), &mut digits).unwrap();
    let mut line = Vec::new(alloc);
    put(&mut line, b"settings ")?;
    put(&mut line, first_digits(&digits))?;
    put(&mut line, b"\n")?;
    Ok(line)
}
