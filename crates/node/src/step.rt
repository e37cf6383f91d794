//! One step of a node that runs.
ghost use Rattle.std.specs.Prelude.{◌≡◌, true, false, Some, Err, IfOk, OnOk, IfErr, OnErr};
ghost use Rattle.node.specs.Replay.{NodeState, acts, command_for, ticket_of};
ghost use Rattle.node.specs.Roles.{submits};
ghost use Rattle.node.specs.Replay as spec;
ghost use Rattle.node.specs.Nodes.{AreGiven, ArePassed, logged, no_ticket_for};
ghost use Rattle.node.specs.Tickets.{CanStop};
ghost use Rattle.node.specs.declared.input.Input.TheVariants.{Submit};
ghost use Rattle.node.specs.declared.stopped.Stopped.TheVariants.{TicketsUsed};

use crate::input::{Input, SharedOp};
use crate::log::NodeLog;
use crate::outputs::{Outputs, sent_from};
use crate::roles::Roles;
use crate::stopped::Stopped;
use crate::tickets::{Given, give, next_ticket};
use ballot::{Items, Memory, Sends};
use maildrop::{Command, Name, Shared, SharedCommand, Ticket};
use std::alloc::{Allocator, Global};

/// What an input brings: messages, and after a `Submit` the ticket of its command.
#[derive(Drop)]
struct Acted<A: Allocator = Global> {
    sends: Sends<SharedCommand<A>, A>,
    ticket: Option<Ticket>,
}

/// Makes a command for the user with its ticket, and has it requested.
fn submit<A: Allocator + Copy>(
    alloc: A,
    log: &NodeLog<A>,
    roles: &mut Roles<A>,
    given: &Given<A>,
    user: Name,
    op: &SharedOp<A>,
) -> Result<Acted<A>, Stopped>
    requires { AreGiven log.now.inputs given.now.entries }
    ensures node { (n : NodeState A) → roles.old ≡ Some n → OnOk result (roles.new ≡ Some ((submits n (command_for log.now.opening.me user op.now log.now.inputs)).after)) }
    ensures sends { (n : NodeState A) → roles.old ≡ Some n → IfOk result (λ acted. acted.sends ≡ (submits n (command_for log.now.opening.me user op.now log.now.inputs)).sends) }
    ensures ticket { IfOk result (λ acted. acted.ticket ≡ ticket_of log.now (Submit user op.now)) }
    ensures left { OnOk result (no_ticket_for log.now (Submit user op.now) ≡ false) }
    ensures used { no_ticket_for log.now (Submit user op.now) ≡ true → result ≡ Err TicketsUsed }
    ensures cause { IfErr result (λ stop. CanStop (no_ticket_for log.now (Submit user op.now)) stop) }
    ensures unchanged { IfErr result (λ stop. stop ≡ TicketsUsed → roles.new ≡ roles.old) }
{
    let Some(ticket) = next_ticket(log.opening.me, given, user) else {
        return Err(Stopped::TicketsUsed);
    };
    let op = op.get().copy()?;
    let command = Shared::new(alloc, Command { user, ticket, op })?;
    let sends = roles.request(command)?;
    Ok(Acted {
        sends,
        ticket: Some(ticket),
    })
}

/// What an input makes of the roles, and what it brings.
fn act<A: Allocator + Copy>(
    alloc: A,
    log: &NodeLog<A>,
    roles: &mut Roles<A>,
    given: &Given<A>,
    input: &Input<A>,
) -> Result<Acted<A>, Stopped>
    requires { AreGiven log.now.inputs given.now.entries }
    ensures node { (n : NodeState A) → roles.old ≡ Some n → OnOk result (roles.new ≡ Some ((acts log.now.opening.me log.now.inputs n input.now).after)) }
    ensures sends { (n : NodeState A) → roles.old ≡ Some n → IfOk result (λ acted. acted.sends ≡ (acts log.now.opening.me log.now.inputs n input.now).sends) }
    ensures ticket { IfOk result (λ acted. acted.ticket ≡ ticket_of log.now input.now) }
    ensures left { OnOk result (no_ticket_for log.now input.now ≡ false) }
    ensures used { no_ticket_for log.now input.now ≡ true → result ≡ Err TicketsUsed }
    ensures cause { IfErr result (λ stop. CanStop (no_ticket_for log.now input.now) stop) }
    ensures unchanged { IfErr result (λ stop. stop ≡ TicketsUsed → roles.new ≡ roles.old) }
{
    let sends = match input {
        Input::Submit(user, op) => return submit(alloc, log, roles, given, *user, op),
        Input::Arrive(envelope) => roles.arrive(log.opening.me, envelope.copy()?)?,
        Input::Tick => roles.tick()?,
        Input::Campaign => roles.campaign()?,
        Input::Crash => Items::new(alloc),
    };
    Ok(Acted {
        sends,
        ticket: None,
    })
}

/// Writes an input down: the log has it last, and its user has got one ticket more. After `Memory` both are as they were.
fn write_down<A: Allocator + Copy>(
    log: &mut NodeLog<A>,
    given: &mut Given<A>,
    input: Input<A>,
) -> Result<(), Memory>
    requires given { AreGiven log.old.inputs given.old.entries }
    requires left { no_ticket_for log.old input ≡ false }
    ensures log { OnOk result (log.new ≡ logged log.old input) }
    ensures given { OnOk result (ArePassed input given.old.entries given.new.entries) }
    ensures err { OnErr result ((log.new ≡ log.old) × (given.new.entries ≡ given.old.entries)) }
{
    let user = input.user();
    let before = log.inputs.len();
    log.inputs.push(input)?;
    let Some(user) = user else {
        return Ok(());
    };
    if let Err(error) = give(given, user) {
        log.inputs.truncate(before);
        return Err(error);
    }
    Ok(())
}

/// Takes an input: the log has it last. After an error the log and the tickets are as they were, and after
/// `TicketsUsed` all is.
pub(crate) fn take<A: Allocator + Copy>(
    alloc: A,
    log: &mut NodeLog<A>,
    roles: &mut Roles<A>,
    given: &mut Given<A>,
    input: Input<A>,
) -> Result<Outputs<A>, Stopped>
    requires { AreGiven log.old.inputs given.old.entries }
    ensures log { OnOk result (log.new ≡ logged log.old input) }
    ensures node { (n : NodeState A) → roles.old ≡ Some n → OnOk result (roles.new ≡ Some ((acts log.old.opening.me log.old.inputs n input).after)) }
    ensures sends { (n : NodeState A) → roles.old ≡ Some n → IfOk result (λ outputs. outputs.sends ≡ spec.sent_from log.old.opening.me (acts log.old.opening.me log.old.inputs n input).sends) }
    ensures ticket { IfOk result (λ outputs. outputs.ticket ≡ ticket_of log.old input) }
    ensures given { OnOk result (ArePassed input given.old.entries given.new.entries) }
    ensures err { OnErr result ((log.new ≡ log.old) × (given.new.entries ≡ given.old.entries)) }
    ensures used { no_ticket_for log.old input ≡ true → result ≡ Err TicketsUsed }
    ensures cause { IfErr result (λ stop. CanStop (no_ticket_for log.old input) stop) }
    ensures unchanged { IfErr result (λ stop. stop ≡ TicketsUsed → roles.new ≡ roles.old) }
{
    let acted = act(alloc, log, roles, given, &input)?;
    let sends = sent_from(alloc, log.opening.me, acted.sends)?;
    write_down(log, given, input)?;
    Ok(Outputs {
        sends,
        ticket: acted.ticket,
    })
}
