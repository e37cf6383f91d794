//! Why events are refused.
ghost use Rattle.std.specs.Prelude.{◌≡◌, Some, None, is_some, slice_get};
ghost use Rattle.std.specs.Option.{option_or};
ghost use Rattle.apop.specs.Login.{account_named};
ghost use Rattle.runs.specs.Clients.{client_of};
ghost use Rattle.maildrop.specs.CommandId.{CommandId};
ghost use Rattle.world.specs.Connections.{service_of, awaited_by, AreUntaken, IsThere};
ghost use Rattle.world.specs.Hosts.{network_of, HasAnswerAt};
ghost use Rattle.runs.specs.Messages.{log_of};
ghost use Rattle.runs.specs.Refusals as spec;
ghost use Rattle.runs.specs.Services.{Service};

use crate::connection::{Connection, Standing};
use crate::hosts::Hosts;
use crate::sessions::Sessions;
use ballot::NodeId;
use maildrop::Name;
use runs::{Config, Event, Refused, SessionId};
use std::alloc::Allocator;

/// Why an event can't happen, or has a user without an account, if it is so.
pub(crate) fn refusal_of<A: Allocator + Copy>(
    config: &Config<A>,
    hosts: &Hosts<A>,
    connections: &Sessions<A>,
    event: &Event<A>,
) -> Option<Refused>
    requires { AreUntaken hosts.now connections.now.entries }
    ensures { result ≡ spec.step_refusal config.now (service_of hosts.now connections.now.entries) event.now }
{
    match event {
        Event::Connect { session, node, .. } => of_connect(hosts, connections, *session, *node),
        Event::Line { session, .. } => of_line(hosts, connections, *session),
        Event::Hangup { session } => of_hangup(hosts, connections, *session),
        Event::Collect { session } => of_collect(hosts, connections, *session),
        Event::Mail { node, user, .. } => of_operation(config, hosts, *node, *user),
        Event::Break { node, user } => of_operation(config, hosts, *node, *user),
        Event::Arrive(which) => of_arrival(hosts, *which),
        Event::Tick(node) => of_node(hosts, *node),
        Event::Campaign(node) => of_node(hosts, *node),
        Event::Crash(node) => of_node(hosts, *node),
    }
}

fn of_node<A: Allocator + Copy>(hosts: &Hosts<A>, node: NodeId) -> Option<Refused>
    ensures { result ≡ spec.unless_down (log_of node (network_of hosts.now).logs) None }
{
    if hosts.is_up(node) {
        None
    } else {
        Some(Refused::Down)
    }
}

fn of_connect<A: Allocator + Copy>(
    hosts: &Hosts<A>,
    connections: &Sessions<A>,
    session: SessionId,
    node: NodeId,
) -> Option<Refused>
    ensures { let w = service_of hosts.now connections.now.entries in result ≡ spec.connect_refusal w node (client_of session w.clients) }
{
    match connections.get(session) {
        Some(_) => Some(Refused::SessionExists),
        None => of_node(hosts, node),
    }
}

fn of_line<A: Allocator + Copy>(
    hosts: &Hosts<A>,
    connections: &Sessions<A>,
    session: SessionId,
) -> Option<Refused>
    ensures { let w = service_of hosts.now connections.now.entries in result ≡ spec.client_refusal w (client_of session w.clients) spec.line_refusal }
{
    match connections.get(session) {
        Some(connection) => connection.line_refusal(hosts.is_up(connection.node)),
        None => Some(Refused::NoSession),
    }
}

fn of_hangup<A: Allocator + Copy>(
    hosts: &Hosts<A>,
    connections: &Sessions<A>,
    session: SessionId,
) -> Option<Refused>
    ensures { let w = service_of hosts.now connections.now.entries in result ≡ spec.client_refusal w (client_of session w.clients) spec.hangup_refusal }
{
    match connections.get(session) {
        Some(connection) => connection.hangup_refusal(hosts.is_up(connection.node)),
        None => Some(Refused::NoSession),
    }
}

fn of_collect<A: Allocator + Copy>(
    hosts: &Hosts<A>,
    connections: &Sessions<A>,
    session: SessionId,
) -> Option<Refused>
    requires { AreUntaken hosts.now connections.now.entries }
    ensures { let w = service_of hosts.now connections.now.entries in result ≡ spec.client_refusal w (client_of session w.clients) spec.collect_refusal }
{
    match connections.get(session) {
        Some(connection) => connection.collect_refusal(
            hosts.is_up(connection.node),
            is_answered(hosts, connection),
        ),
        None => Some(Refused::NoSession),
    }
}

/// Whether the answer is there that the session awaits.
pub(crate) fn is_answered<A: Allocator + Copy>(hosts: &Hosts<A>, connection: &Connection<A>) -> bool
    requires { (id : CommandId) → awaited_by connection.now.standing ≡ Some id → HasAnswerAt connection.now.node id hosts.now }
    ensures { IsThere result (log_of connection.now.node (network_of hosts.now).logs) connection.now.standing }
{
    match &connection.standing {
        Standing::Waits(id) => hosts.has_answer(connection.node, *id),
        _ => false,
    }
}

fn of_arrival<A: Allocator + Copy>(hosts: &Hosts<A>, which: usize) -> Option<Refused>
    ensures { (w : Service A) → w.network ≡ network_of hosts.now → result ≡ spec.arrival_refusal w (slice_get hosts.now.sent which) }
{
    match hosts.sent().get(which) {
        Some(message) => of_node(hosts, message.envelope.to),
        None => Some(Refused::NotSent),
    }
}

fn of_operation<A: Allocator + Copy>(
    config: &Config<A>,
    hosts: &Hosts<A>,
    node: NodeId,
    user: Name,
) -> Option<Refused>
    ensures { result ≡ option_or (spec.unless_down (log_of node (network_of hosts.now).logs) None) (spec.unless_known config.now user) }
{
    if !hosts.is_up(node) {
        return Some(Refused::Down);
    }
    if has_account(config, user) {
        None
    } else {
        Some(Refused::NoSuchUser)
    }
}

/// Whether the user has an account.
fn has_account<A: Allocator + Copy>(config: &Config<A>, user: Name) -> bool
    ensures { result ≡ is_some (account_named config.now.accounts user) }
{
    config.accounts.has(&user)
}
