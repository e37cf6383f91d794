//! What is reported to an operator about the maildrops at a node.
ghost use Rattle.std.specs.Prelude.{◌≡◌, ◌++◌, IfOk, OnOk};
ghost use Rattle.std.specs.List.{flat_map};
ghost use Rattle.service.specs.Maildrops as spec;

use ballot::Memory;
use maildrop::{Name, Ticket, Usage};
use session_log::{put, put_labelled, put_number_line};
use std::alloc::Global;

/// Adds the line of a lock: its user, and the node and the number of the Take that holds it.
fn put_lock(text: &mut Vec<u8>, lock: &(Name, Ticket)) -> Result<(), Memory>
    ensures { OnOk result (text.new.items ≡ text.old.items ++ spec.lock_line lock.now) }
{
    let (node, seq) = lock.1.get();
    put(text, b"user ")?;
    put(text, lock.0.get())?;
    put_labelled(text, b" node ", node.get() as u64)?;
    put_number_line(text, b" ticket ", seq)
}

fn put_locks(text: &mut Vec<u8>, locks: &[(Name, Ticket)]) -> Result<(), Memory>
    ensures { OnOk result (text.new.items ≡ text.old.items ++ flat_map spec.lock_line locks.now) }
{
    for lock in locks {
        put_lock(text, lock)?;
    }
    Ok(())
}

/// The answer to an operator who asks which maildrops are locked: a line for each lock, and `end`.
pub(crate) fn lock_lines(alloc: Global, locks: &[(Name, Ticket)]) -> Result<Vec<u8>, Memory>
    ensures { IfOk result (λ text. text.items ≡ spec.lock_lines locks.now) }
{
    let mut text = Vec::new(alloc);
    put_locks(&mut text, locks)?;
    put(&mut text, b"end\n")?;
    Ok(text)
}

/// Adds the line of a user: messages, their octets, and the unique id that comes next.
fn put_usage(text: &mut Vec<u8>, user: &(Name, Usage)) -> Result<(), Memory>
    ensures { OnOk result (text.new.items ≡ text.old.items ++ spec.user_line user.now) }
{
    put(text, b"user ")?;
    put(text, user.0.get())?;
    put_labelled(text, b" messages ", user.1.messages)?;
    put_labelled(text, b" octets ", user.1.octets)?;
    put_number_line(text, b" next_id ", user.1.next_uid)
}

fn put_usages(text: &mut Vec<u8>, users: &[(Name, Usage)]) -> Result<(), Memory>
    ensures { OnOk result (text.new.items ≡ text.old.items ++ flat_map spec.user_line users.now) }
{
    for user in users {
        put_usage(text, user)?;
    }
    Ok(())
}

/// The answer to an operator who asks what the maildrops have: a line for each user, and `end`.
pub(crate) fn user_lines(alloc: Global, users: &[(Name, Usage)]) -> Result<Vec<u8>, Memory>
    ensures { IfOk result (λ text. text.items ≡ spec.user_lines users.now) }
{
    let mut text = Vec::new(alloc);
    put_usages(&mut text, users)?;
    put(&mut text, b"end\n")?;
    Ok(text)
}
