//! The lines of the log, one function for each event.
ghost use Rattle.std.specs.Prelude.{◌≡◌, OnOk};
ghost use Rattle.session_log.specs.Events as spec;

use crate::facts::{Ending, SessionFacts};
use crate::writing::{put, put_labelled, put_number_line, put_user};
use ballot::Memory;
use maildrop::Name;

/// The word for an ending.
fn ending_word(ending: Ending) -> &'static [u8]
    ensures { result.now ≡ spec.ending_word ending }
{
    match ending {
        Ending::Closed => b"closed",
        Ending::HungUp => b"hung_up",
        Ending::Idle => b"idle",
        Ending::TooMuch => b"too_much",
        Ending::ReadFault => b"read_fault",
        Ending::WriteFault => b"write_fault",
        Ending::Stopped => b"stopped",
        Ending::NoMemory => b"no_memory",
    }
}

/// A number below 10 in decimal.
fn digit(number: u64) -> u8
    ensures { result ≡ spec.digit number }
{
    b'0' + (number % 10) as u8
}

/// Adds the time, of so many milliseconds since 1970.
pub(crate) fn put_time(text: &mut Vec<u8>, millis: u64) -> Result<(), Memory>
    ensures { OnOk result (text.new.items ≡ spec.with_time text.old.items millis) }
{
    put_labelled(text, b"time=", millis / 1_000)?;
    let digits = [
        b'.',
        digit(millis / 100),
        digit(millis / 10),
        digit(millis),
        b' ',
    ];
    put(text, &digits)
}

/// Adds where something happened: the node, and the address of the client.
fn put_place(text: &mut Vec<u8>, node: u8, peer: &[u8]) -> Result<(), Memory>
    ensures { OnOk result (text.new.items ≡ spec.with_place text.old.items node peer.now) }
{
    put_labelled(text, b" node=", node as u64)?;
    put(text, b" peer=")?;
    put(text, peer)
}

/// Adds what a session did.
fn put_deeds(text: &mut Vec<u8>, facts: &SessionFacts) -> Result<(), Memory>
    ensures { OnOk result (text.new.items ≡ spec.with_deeds text.old.items facts.now) }
{
    put(text, b" user=")?;
    put_user(text, &facts.user)?;
    put_labelled(text, b" fetched=", facts.fetched)?;
    put_labelled(text, b" removed=", facts.removed)?;
    put_labelled(text, b" bytes=", facts.bytes_written)
}

/// Adds the line of a session that has ended.
pub(crate) fn put_session(
    text: &mut Vec<u8>,
    node: u8,
    peer: &[u8],
    facts: &SessionFacts,
    ending: Ending,
) -> Result<(), Memory>
    ensures { OnOk result (text.new.items ≡ spec.with_session text.old.items node peer.now facts.now ending) }
{
    put(text, b"event=session")?;
    put_place(text, node, peer)?;
    put_deeds(text, facts)?;
    put(text, b" end=")?;
    put(text, ending_word(ending))?;
    put(text, b"\n")
}

/// Adds the line of a login that was refused. It doesn't say whose name was sent, since clients send secrets there.
pub(crate) fn put_refused(text: &mut Vec<u8>, node: u8, peer: &[u8]) -> Result<(), Memory>
    ensures { OnOk result (text.new.items ≡ spec.with_refused_login text.old.items node peer.now) }
{
    put(text, b"event=login_refused")?;
    put_place(text, node, peer)?;
    put(text, b"\n")
}

/// Adds the line of a delivery.
pub(crate) fn put_delivery(
    text: &mut Vec<u8>,
    node: u8,
    user: &Name,
    stored: u64,
    refused: u64,
) -> Result<(), Memory>
    ensures { OnOk result (text.new.items ≡ spec.with_delivery text.old.items node user.now stored refused) }
{
    put_labelled(text, b"event=delivery node=", node as u64)?;
    put(text, b" user=")?;
    put(text, user.get())?;
    put_labelled(text, b" stored=", stored)?;
    put_number_line(text, b" refused=", refused)
}

/// Adds the line of a node that an operator has stopped.
pub(crate) fn put_crash(text: &mut Vec<u8>, node: u8) -> Result<(), Memory>
    ensures { OnOk result (text.new.items ≡ spec.with_crash text.old.items node) }
{
    put_number_line(text, b"event=crash node=", node as u64)
}

/// Adds the line of a user's lock that is broken, since the node is down whose session held it.
pub(crate) fn put_broken(text: &mut Vec<u8>, user: &Name, node: u8) -> Result<(), Memory>
    ensures { OnOk result (text.new.items ≡ spec.with_break text.old.items user.now node) }
{
    put(text, b"event=break user=")?;
    put(text, user.get())?;
    put_number_line(text, b" node=", node as u64)
}

/// Adds the line of an epoch that begins.
pub(crate) fn put_roll(text: &mut Vec<u8>, epoch: u64) -> Result<(), Memory>
    ensures { OnOk result (text.new.items ≡ spec.with_roll text.old.items epoch) }
{
    put_number_line(text, b"event=roll epoch=", epoch)
}

/// Adds the line of a start that dropped so many bytes of a segment, those from this place on.
pub(crate) fn put_torn(text: &mut Vec<u8>, segment: u64, at: u64, bytes: u64) -> Result<(), Memory>
    ensures { OnOk result (text.new.items ≡ spec.with_torn text.old.items segment at bytes) }
{
    put_labelled(text, b"event=torn segment=", segment)?;
    put_labelled(text, b" at=", at)?;
    put_number_line(text, b" bytes=", bytes)
}

/// Adds the line of an epoch that couldn't begin, or end, for a reason, which is the rest of the line.
pub(crate) fn put_roll_failed(text: &mut Vec<u8>, cause: &[u8]) -> Result<(), Memory>
    ensures { OnOk result (text.new.items ≡ spec.with_roll_failed text.old.items cause.now) }
{
    put(text, b"event=roll_failed cause=")?;
    put(text, cause)?;
    put(text, b"\n")
}

/// Adds the line of so many lines that are missing.
pub(crate) fn put_gap(text: &mut Vec<u8>, missing: u64) -> Result<(), Memory>
    ensures { OnOk result (text.new.items ≡ spec.with_gap text.old.items missing) }
{
    put_number_line(text, b"event=log_gap lines=", missing)
}

/// What a service has as it begins to take clients.
#[derive(Clone, Copy, Debug, PartialEq, Eq)]
pub struct StartLoad {
    /// How many messages.
    pub messages: u64,
    /// How many octets these have.
    pub octets: u64,
    /// How many milliseconds have passed since its start.
    pub millis: u64,
}

/// Adds the line of a service that takes clients from now on. How it was started is the rest of the line.
pub(crate) fn put_start(
    text: &mut Vec<u8>,
    epoch: u64,
    load: StartLoad,
    how: &[u8],
) -> Result<(), Memory>
    ensures { OnOk result (text.new.items ≡ spec.with_start text.old.items epoch load how.now) }
{
    put_labelled(text, b"event=start epoch=", epoch)?;
    put_labelled(text, b" messages=", load.messages)?;
    put_labelled(text, b" octets=", load.octets)?;
    put_labelled(text, b" ms=", load.millis)?;
    put(text, b" ")?;
    put(text, how)?;
    put(text, b"\n")
}

/// Adds the line of an epoch whose audit has ended. The verdict is the rest of the line.
pub(crate) fn put_audit(text: &mut Vec<u8>, epoch: u64, verdict: &[u8]) -> Result<(), Memory>
    ensures { OnOk result (text.new.items ≡ spec.with_audit text.old.items epoch verdict.now) }
{
    put_labelled(text, b"event=audit epoch=", epoch)?;
    put(text, b" verdict=")?;
    put(text, verdict)?;
    put(text, b"\n")
}

/// Adds the line of a service that has ended with this status.
pub(crate) fn put_end(text: &mut Vec<u8>, status: u8) -> Result<(), Memory>
    ensures { OnOk result (text.new.items ≡ spec.with_end text.old.items status) }
{
    put_number_line(text, b"event=end status=", status as u64)
}

/// Adds the line of an event that has only a name.
pub(crate) fn put_event(text: &mut Vec<u8>, name: &[u8]) -> Result<(), Memory>
    ensures { OnOk result (text.new.items ≡ spec.with_event text.old.items name.now) }
{
    put(text, b"event=")?;
    put(text, name)?;
    put(text, b"\n")
}

/// Adds the line of a fault. Its text is the rest of the line.
pub(crate) fn put_fault(text: &mut Vec<u8>, fault: &[u8]) -> Result<(), Memory>
    ensures { OnOk result (text.new.items ≡ spec.with_fault text.old.items fault.now) }
{
    put(text, b"event=fault text=")?;
    put(text, fault)?;
    put(text, b"\n")
}
