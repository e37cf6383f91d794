//! Writes requests. After `Memory` nothing is left of what was written after the first `start` bytes.
ghost use Rattle.std.specs.Prelude.{◌≡◌, ◌++◌, ◌≤◌, length, take, is_ok, if◌then◌else◌, OnOk, OnErr, decimal};
ghost use Rattle.script.specs.Output.{line_end};
ghost use Rattle.script.specs.Requests as spec;
ghost use Rattle.script.specs.declared.request.Request.TheVariants as request;

use crate::key_prefix::KeyPrefix;
use crate::request::Request;
use crate::writing::{put, put_number};
use ballot::{Memory, NodeId};
use maildrop::{Key, Name};
use std::alloc::Allocator;

fn put_node<A: Allocator>(out: &mut Vec<u8, A>, start: usize, node: NodeId) -> Result<(), Memory>
    requires { start ≤ length out.old.items }
    ensures { out.new.items ≡ (if is_ok result then out.old.items ++ decimal node else take start out.old.items) }
{
    put_number(out, start, u64::from(node.get()))
}

fn put_key<A: Allocator>(
    out: &mut Vec<u8, A>,
    start: usize,
    key: &Option<KeyPrefix>,
) -> Result<(), Memory>
    requires { start ≤ length out.old.items }
    ensures { out.new.items ≡ (if is_ok result then out.old.items ++ spec.key_text key.now else take start out.old.items) }
{
    match key {
        None => Ok(()),
        Some(prefix) => {
            put(out, start, b" ")?;
            put(out, start, prefix.get())
        }
    }
}

fn put_deliver<A: Allocator>(
    out: &mut Vec<u8, A>,
    start: usize,
    node: NodeId,
    user: &Name,
    count: u64,
    key: &Option<KeyPrefix>,
) -> Result<(), Memory>
    requires { start ≤ length out.old.items }
    ensures { out.new.items ≡ (if is_ok result then out.old.items ++ spec.request_text (request.Deliver node user.now count key.now) else take start out.old.items) }
{
    put(out, start, b"deliver ")?;
    put_node(out, start, node)?;
    put(out, start, b" ")?;
    put(out, start, user.get())?;
    put(out, start, b" ")?;
    put_number(out, start, count)?;
    put_key(out, start, key)
}

/// The number of a node, or 0 for any node.
fn node_number(node: Option<NodeId>) -> u64
    ensures { result ≡ spec.node_number node }
{
    match node {
        None => 0,
        Some(node) => u64::from(node.get()),
    }
}

fn put_message_key<A: Allocator>(
    out: &mut Vec<u8, A>,
    start: usize,
    key: &Option<Key>,
) -> Result<(), Memory>
    requires { start ≤ length out.old.items }
    ensures { out.new.items ≡ (if is_ok result then out.old.items ++ spec.key_text key.now else take start out.old.items) }
{
    match key {
        None => Ok(()),
        Some(key) => {
            put(out, start, b" ")?;
            put(out, start, key.get())
        }
    }
}

fn put_put<A: Allocator>(
    out: &mut Vec<u8, A>,
    start: usize,
    node: Option<NodeId>,
    user: &Name,
    count: u64,
    key: &Option<Key>,
) -> Result<(), Memory>
    requires { start ≤ length out.old.items }
    ensures { out.new.items ≡ (if is_ok result then out.old.items ++ spec.request_text (request.Put node user.now count key.now) else take start out.old.items) }
{
    put(out, start, b"put ")?;
    put_number(out, start, node_number(node))?;
    put(out, start, b" ")?;
    put(out, start, user.get())?;
    put(out, start, b" ")?;
    put_number(out, start, count)?;
    put_message_key(out, start, key)
}

fn put_break<A: Allocator>(
    out: &mut Vec<u8, A>,
    start: usize,
    node: NodeId,
    user: &Name,
) -> Result<(), Memory>
    requires { start ≤ length out.old.items }
    ensures { out.new.items ≡ (if is_ok result then out.old.items ++ spec.request_text (request.Break node user.now) else take start out.old.items) }
{
    put(out, start, b"break ")?;
    put_node(out, start, node)?;
    put(out, start, b" ")?;
    put(out, start, user.get())
}

fn put_kick<A: Allocator>(out: &mut Vec<u8, A>, start: usize, user: &Name) -> Result<(), Memory>
    requires { start ≤ length out.old.items }
    ensures { out.new.items ≡ (if is_ok result then out.old.items ++ spec.request_text (request.Kick user.now) else take start out.old.items) }
{
    put(out, start, b"kick ")?;
    put(out, start, user.get())
}

fn put_crash<A: Allocator>(out: &mut Vec<u8, A>, start: usize, node: NodeId) -> Result<(), Memory>
    requires { start ≤ length out.old.items }
    ensures { out.new.items ≡ (if is_ok result then out.old.items ++ spec.request_text (request.Crash node) else take start out.old.items) }
{
    put(out, start, b"crash ")?;
    put_node(out, start, node)
}

fn stop_text(now: bool, wait: bool) -> &'static [u8]
    ensures { result.now ≡ spec.stop_text now wait }
{
    match (now, wait) {
        (false, false) => b"stop",
        (true, false) => b"stop now",
        (false, true) => b"stop wait",
        (true, true) => b"stop now wait",
    }
}

fn put_text<A: Allocator>(
    out: &mut Vec<u8, A>,
    start: usize,
    request: &Request,
) -> Result<(), Memory>
    requires { start ≤ length out.old.items }
    ensures { out.new.items ≡ (if is_ok result then out.old.items ++ spec.request_text request.now else take start out.old.items) }
{
    match request {
        Request::Deliver {
            node,
            user,
            count,
            key,
        } => put_deliver(out, start, *node, user, *count, key),
        Request::Put {
            node,
            user,
            count,
            key,
        } => put_put(out, start, *node, user, *count, key),
        Request::Break { node, user } => put_break(out, start, *node, user),
        Request::Kick { user } => put_kick(out, start, user),
        Request::Crash { node } => put_crash(out, start, *node),
        Request::Status => put(out, start, b"status"),
        Request::Sessions => put(out, start, b"sessions"),
        Request::Stats => put(out, start, b"stats"),
        Request::Locks => put(out, start, b"locks"),
        Request::Users => put(out, start, b"users"),
        Request::Roll => put(out, start, b"roll"),
        Request::Reopen => put(out, start, b"reopen"),
        Request::Stop { now, wait } => put(out, start, stop_text(*now, *wait)),
    }
}

/// Adds the line of a request with its line feed. After `Memory` nothing has changed.
pub fn put_request<A: Allocator>(out: &mut Vec<u8, A>, request: &Request) -> Result<(), Memory>
    ensures ok { OnOk result (out.new.items ≡ out.old.items ++ (spec.request_text request.now ++ line_end)) }
    ensures err { OnErr result (out.new.items ≡ out.old.items) }
{
    let start = out.len();
    put_text(out, start, request)?;
    put(out, start, b"\n")
}
