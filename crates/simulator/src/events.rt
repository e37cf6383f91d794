//! The commands of a script that are events of the service.
ghost use Rattle.std.specs.Prelude.{◌≡◌, IfOk};
ghost use Rattle.simulator.specs.Events as spec;

use apop::stamp;
use ballot::Memory;
use pop3_wire::{Line, LineBytes};
use script::{Command, Host, text_of};
use std::alloc::Global;
use world::{Event, SessionId};

/// The session of a script's number.
pub(crate) fn session_of(number: u32) -> SessionId
    ensures { result ≡ number }
{
    SessionId::new(u64::from(number))
}

/// The event of a command, if it is one event that the command names whole.
pub(crate) fn event_of(
    alloc: Global,
    host: &Host,
    command: Command<'_>,
) -> Result<Option<Event>, Memory>
    ensures { IfOk result (λ event. event ≡ spec.event_of host.now command.entry) }
{
    let event = match command {
        Command::Mail {
            node,
            user,
            key,
            written,
        } => Event::Mail {
            node,
            user,
            text: text_of(alloc, &written)?,
            key,
        },
        Command::Break { node, user } => Event::Break { node, user },
        Command::Connect {
            session,
            node,
            nonce,
        } => Event::Connect {
            session: session_of(session),
            node,
            stamp: stamp(nonce.get(), host.get()).unwrap(),
        },
        Command::Line { session, line } => Event::Line {
            session: session_of(session),
            line,
        },
        Command::Hangup { session } => Event::Hangup {
            session: session_of(session),
        },
        Command::Tick { node } => Event::Tick(node),
        Command::Campaign { node } => Event::Campaign(node),
        Command::Crash { node } => Event::Crash(node),
        _ => return Ok(None),
    };
    Ok(Some(event))
}
