//! A service that a script drives.
ghost use Rattle.std.specs.Prelude.{◌≡◌, OnOk, IfOk};
ghost use Rattle.simulator.specs.Plays as spec;
ghost use Rattle.simulator.specs.Told.{IsWritten};
ghost use Rattle.runs.specs.Clients.{client_of};

use crate::events::event_of;
use crate::refusal::refusal_of;
use crate::report::Report;
use crate::service::Service;
use crate::sessions::Sessions;
use crate::undelivered::Route;
use apop::Accounts;
use ballot::{Memory, NodeId};
use maildrop::{Kept, Shared};
use script::{Command, Refusal, Settings};
use std::alloc::Global;
use std::marker::Model;
use world::{Config, Event, SessionId};

/// A service that a script drives, and what of it is still to be written.
#[derive(Drop)]
pub(crate) struct Play {
    service: Service,
    sessions: Sessions,
    /// `settle` and `storm` look at messages from this place on.
    first: usize,
}

impl Model for Play {
    ghost use Rattle.std.specs.declared.alloc.Global.{Global};
    ghost use Rattle.simulator.specs.Plays.{Play};

    ghost Value = { Play Global };

    ghost view = { λ p. record { world = p.service.world; crashed = p.service.crashed; shown = p.sessions; first = p.first } };
}

impl Play {
    /// The service that a script sets, of which nothing has happened.
    pub(crate) fn new(alloc: Global, settings: &Settings) -> Result<Self, Memory>
        ensures { IfOk result (λ play. play ≡ spec.new_play settings.now) }
    {
        let Ok(accounts) = Accounts::read(alloc, settings.account_rows()) else {
            return Err(Memory);
        };
        let config = Config {
            accounts,
            limits: settings.limits(),
            kept: Shared::new(alloc, Kept::new(alloc))?,
            keys: 0,
            cluster: settings.cluster(),
            window: settings.window().get(),
        };
        Ok(Play {
            service: Service::new(alloc, config)?,
            sessions: Sessions::new(alloc),
            first: 0,
        })
    }

    /// Writes what a session was told and is not written yet.
    fn tell_replies(&mut self, session: SessionId, report: &mut Report) -> Result<(), Memory>
        ensures { OnOk result (IsWritten (spec.replies_told session self.old (client_of session self.old.world.service.clients)) self.new report.old report.new) }
    {
        match self.service.world().replies(session) {
            Some(replies) => self.sessions.write_replies(session, replies, report),
            None => Ok(()),
        }
    }

    /// Writes what an event has brought to the session that it is about, if it is about one.
    fn tell(&mut self, session: Option<SessionId>, report: &mut Report) -> Result<(), Memory>
        ensures { OnOk result (IsWritten (spec.told_of session self.old) self.new report.old report.new) }
    {
        match session {
            Some(session) => self.tell_replies(session, report),
            None => Ok(()),
        }
    }

    /// Hands the service an event. Writes why it is refused, or else what its session is told.
    fn give(&mut self, event: Event, report: &mut Report) -> Result<(), Memory>
        ensures { OnOk result (IsWritten (spec.given self.old event) self.new report.old report.new) }
    {
        let session = event.session();
        match self.service.step(event) {
            Ok(()) => self.tell(session, report),
            Err(refused) => report.refusal(refusal_of(refused)?),
        }
    }

    /// Writes the outcomes that are there and weren't written, in the order in which the script submitted the operations.
    fn write_outcomes(&mut self, report: &mut Report) -> Result<(), Memory>
        ensures { OnOk result (IsWritten (spec.outcomes self.old) self.new report.old report.new) }
    {
        self.service.write_outcomes(report)
    }

    /// Has sessions take the answers that are there, in the order in which they connected.
    fn collect(&mut self, report: &mut Report) -> Result<(), Memory>
        ensures { OnOk result (IsWritten (spec.all_collected self.old) self.new report.old report.new) }
    {
        for _ in 0..self.sessions.len() {
            let world = self.service.world();
            // No message comes after the last one, so what comes next is an answer.
            let behind = world.sent().len();
            let Some(event) = world.next_oldest(behind) else {
                return Ok(());
            };
            self.give(event, report)?;
        }
        Ok(())
    }

    /// The oldest event that is due happens, at most so many times.
    fn settle(&mut self, limit: u64, report: &mut Report) -> Result<(), Memory>
        ensures { OnOk result (IsWritten (spec.settled spec.oldest limit self.old) self.new report.old report.new) }
    {
        for _ in 0..limit {
            self.write_outcomes(report)?;
            let Some(event) = self.service.world().next_oldest(self.first) else {
                return Ok(());
            };
            self.give(event, report)?;
        }
        self.write_outcomes(report)
    }

    /// The newest message that came fewer than so many times arrives, or an answer that is there is taken, at most so
    /// many times.
    fn storm(&mut self, copies: u64, limit: u64, report: &mut Report) -> Result<(), Memory>
        ensures { OnOk result (IsWritten (spec.settled (spec.newest copies) limit self.old) self.new report.old report.new) }
    {
        for _ in 0..limit {
            self.write_outcomes(report)?;
            let Some(event) = self.service.world().next_newest(self.first, copies) else {
                return Ok(());
            };
            self.give(event, report)?;
        }
        self.write_outcomes(report)
    }

    /// The first message of the route that never arrived arrives.
    fn deliver(&mut self, route: Route, report: &mut Report) -> Result<(), Memory>
        ensures { OnOk result (IsWritten (spec.delivered self.old route) self.new report.old report.new) }
    {
        match self.service.first_undelivered(route) {
            Some(place) => self.give(Event::Arrive(place), report),
            None => report.refusal(Refusal::NotSent),
        }
    }

    /// Writes what a node has performed, or that it is down, if there is no such node.
    fn order(&self, node: NodeId, report: &mut Report) -> Result<(), Memory>
        ensures { OnOk result (IsWritten (spec.order node self.now) self.now report.old report.new) }
    {
        match self.service.world().performed(node) {
            Some(performed) => report.order(node, performed),
            None => report.refusal(Refusal::Down),
        }
    }

    /// `settle` and `storm` look no more at what was sent so far.
    fn lose(&mut self)
        ensures { self.new ≡ spec.lost self.old }
    {
        self.first = self.service.world().sent().len();
    }

    /// A command that is one event.
    fn happen(
        &mut self,
        alloc: Global,
        settings: &Settings,
        command: Command<'_>,
        report: &mut Report,
    ) -> Result<(), Memory>
        ensures { OnOk result (IsWritten (spec.happened settings.now.host command.entry self.old) self.new report.old report.new) }
    {
        match event_of(alloc, settings.host(), command)? {
            Some(event) => self.give(event, report),
            None => Ok(()),
        }
    }

    /// What a command does by itself.
    fn act(
        &mut self,
        alloc: Global,
        settings: &Settings,
        command: Command<'_>,
        report: &mut Report,
    ) -> Result<(), Memory>
        ensures { OnOk result (IsWritten (spec.done settings.now.host command.entry self.old) self.new report.old report.new) }
    {
        match &command {
            Command::Lose => {
                self.lose();
                Ok(())
            }
            Command::Order { node } => self.order(*node, report),
            Command::Deliver { from, to, kind } => {
                let route = Route {
                    from: *from,
                    to: *to,
                    kind: *kind,
                };
                self.deliver(route, report)
            }
            _ => self.happen(alloc, settings, command, report),
        }
    }

    /// What a command does, and then what is there of outcomes and answers.
    fn act_to_the_end(
        &mut self,
        alloc: Global,
        settings: &Settings,
        command: Command<'_>,
        report: &mut Report,
    ) -> Result<(), Memory>
        ensures { OnOk result (IsWritten (spec.done_to_the_end settings.now.host command.entry self.old) self.new report.old report.new) }
    {
        self.act(alloc, settings, command, report)?;
        self.write_outcomes(report)?;
        self.collect(report)
    }

    /// Does a command, and writes what comes of it.
    pub(crate) fn perform(
        &mut self,
        alloc: Global,
        settings: &Settings,
        command: Command<'_>,
        report: &mut Report,
    ) -> Result<(), Memory>
        ensures { OnOk result (IsWritten (spec.performed settings.now.host command.entry self.old) self.new report.old report.new) }
    {
        match &command {
            Command::Settle { limit } => self.settle(*limit, report),
            Command::Storm { copies, limit } => self.storm(*copies, *limit, report),
            _ => self.act_to_the_end(alloc, settings, command, report),
        }
    }
}
