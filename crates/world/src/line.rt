//! Lines that clients send.
ghost use Rattle.std.specs.Prelude.{◌≡◌, ◌<◌, true, false, ℕ, OnOk, OnErr, vec_len, vec_capacity};
ghost use Rattle.maildrop.specs.CommandId.{CommandId};
ghost use Rattle.session.specs.Dialogue.{IsSettled};
ghost use Rattle.session.specs.Session.{takes_line, awaits_answer, lock_due};
ghost use Rattle.session.specs.declared.state.Step.TheVariants.{Ask};
ghost use Rattle.runs.specs.Clients as client;
ghost use Rattle.runs.specs.Clients.{Failed, told, standing_as, with_line};
ghost use Rattle.world.specs.Connections.{client_in, standing_in, IsFit};
ghost use Rattle.world.specs.Hosts.{network_of, HasAnswerAt, crashes_of};
ghost use Rattle.runs.specs.Messages.{is_up, log_of};
ghost use Rattle.world.specs.Served.{IsLine, IsLineAt, IsLineCut, IsCutAt, IsStep, IsStepCut};
ghost use Rattle.world.specs.declared.connection.Standing.TheVariants.{Hears};

use crate::connection::{Connection, Heard, Standing};
use crate::hosts::Hosts;
use apop::Accounts;
use ballot::Memory;
use maildrop::{CommandId, Name, Op};
use pop3_wire::Line;
use session::{ReplyBytes, Step};
use std::alloc::Allocator;

impl<A: Allocator + Copy> Connection<A> {
    /// Hears a line, if it takes one and its node is up; else nothing happens. After `Memory` the session is lost, or its
    /// node has crashed.
    pub(crate) fn hear(
        &mut self,
        hosts: &mut Hosts<A>,
        accounts: &Accounts<A>,
        line: Line,
    ) -> Result<(), Memory>
        requires { IsFit self.old }
        ensures ok { OnOk result (IsLine accounts.now line (network_of hosts.old) (network_of hosts.new) (client_in self.old) (client_in self.new)) }
        ensures err { OnErr result (IsLineCut (network_of hosts.old) (network_of hosts.new) (client_in self.old) (client_in self.new)) }
        ensures fit { IsFit self.new }
        ensures answers { (n : ℕ) (id : CommandId) → HasAnswerAt n id hosts.old → HasAnswerAt n id hosts.new }
        ensures crashed { crashes_of hosts.new ≡ crashes_of hosts.old }
    {
        if !hosts.is_up(self.node) {
            return Ok(());
        }
        match &self.standing {
            Standing::Hears => self.listen(hosts, accounts, line),
            _ => Ok(()),
        }
    }

    /// Hears a line. Room for the line and its ticket is taken before the session hears it: then of what an operation asks
    /// for, only its node can find no memory.
    fn listen(
        &mut self,
        hosts: &mut Hosts<A>,
        accounts: &Accounts<A>,
        line: Line,
    ) -> Result<(), Memory>
        requires hearing { takes_line self.old.session.state ≡ true }
        requires stands { self.old.standing ≡ Hears }
        requires up { is_up (log_of self.old.node (network_of hosts.old).logs) ≡ true }
        ensures ok { OnOk result (IsLineAt accounts.now line (client.Hears self.old.session.state) (network_of hosts.old) (network_of hosts.new) (client_in self.old) (client_in self.new)) }
        ensures err { OnErr result (IsCutAt (client.Hears self.old.session.state) (network_of hosts.old) (network_of hosts.new) (client_in self.old) (client_in self.new)) }
        ensures fit { IsFit self.new }
        ensures answers { (n : ℕ) (id : CommandId) → HasAnswerAt n id hosts.old → HasAnswerAt n id hosts.new }
        ensures crashed { crashes_of hosts.new ≡ crashes_of hosts.old }
    {
        match self.heard.reserve(1) {
            Ok(()) => self.listen_with_room(hosts, accounts, line),
            Err(_) => {
                self.lose();
                Err(Memory)
            }
        }
    }

    /// Hears a line, for which there is room.
    fn listen_with_room(
        &mut self,
        hosts: &mut Hosts<A>,
        accounts: &Accounts<A>,
        line: Line,
    ) -> Result<(), Memory>
        requires hearing { takes_line self.old.session.state ≡ true }
        requires stands { self.old.standing ≡ Hears }
        requires room { vec_len self.old.heard < vec_capacity self.old.heard }
        requires up { is_up (log_of self.old.node (network_of hosts.old).logs) ≡ true }
        ensures ok { OnOk result (IsLineAt accounts.now line (client.Hears self.old.session.state) (network_of hosts.old) (network_of hosts.new) (client_in self.old) (client_in self.new)) }
        ensures err { OnErr result (IsCutAt (client.Hears self.old.session.state) (network_of hosts.old) (network_of hosts.new) (client_in self.old) (client_in self.new)) }
        ensures fit { IsFit self.new }
        ensures answers { (n : ℕ) (id : CommandId) → HasAnswerAt n id hosts.old → HasAnswerAt n id hosts.new }
        ensures crashed { crashes_of hosts.new ≡ crashes_of hosts.old }
    {
        match self.session.line(accounts, &line) {
            Ok(step) => self.follow(hosts, line, step),
            Err(_) => {
                self.lose();
                Err(Memory)
            }
        }
    }

    /// What a line brings: the client is told something, or an operation is submitted. After `Memory` the line is as if it
    /// hadn't been sent, and the session is lost, or its node has crashed.
    fn follow(&mut self, hosts: &mut Hosts<A>, line: Line, step: Step<A>) -> Result<(), Memory>
        requires settled { IsSettled step self.old.session.state }
        requires room { vec_len self.old.heard < vec_capacity self.old.heard }
        requires up { is_up (log_of self.old.node (network_of hosts.old).logs) ≡ true }
        ensures ok { OnOk result (IsStep self.old.session.state step (network_of hosts.old) (network_of hosts.new) (with_line (client_in self.old) line) (client_in self.new)) }
        ensures err { OnErr result (IsStepCut self.old.session.state step (network_of hosts.old) (network_of hosts.new) (client_in self.old) (client_in self.new)) }
        ensures fit { IsFit self.new }
        ensures answers { (n : ℕ) (id : CommandId) → HasAnswerAt n id hosts.old → HasAnswerAt n id hosts.new }
        ensures crashed { crashes_of hosts.new ≡ crashes_of hosts.old }
    {
        match step {
            Step::Say(bytes) => self.reply(line, &bytes, Standing::Hears),
            Step::SayAndClose(bytes) => self.reply(line, &bytes, Standing::Over),
            Step::Ask(user, op) => self.ask(hosts, line, user, op),
        }
    }

    /// Answers a line. After `Memory` the session is lost.
    fn reply(&mut self, line: Line, bytes: &ReplyBytes<A>, standing: Standing) -> Result<(), Memory>
        requires settled { awaits_answer self.old.session.state ≡ false }
        requires room { vec_len self.old.heard < vec_capacity self.old.heard }
        ensures told { OnOk result (client_in self.new ≡ told (with_line (client_in self.old) line) bytes.now (standing_in standing self.old.session.state)) }
        ensures stands { OnOk result ((self.new.standing ≡ standing) × (self.new.session.state ≡ self.old.session.state)) }
        ensures lost { OnErr result (client_in self.new ≡ standing_as (client_in self.old) (Failed (lock_due self.old.session.state))) }
        ensures fit { OnErr result (IsFit self.new) }
    {
        match self.tell(bytes, standing) {
            Ok(()) => {
                self.heard.push_reserved(Heard { line, ticket: None });
                Ok(())
            }
            Err(error) => Err(error),
        }
    }

    /// Submits the operation that a line asks for, and awaits its answer. After `Memory` the node has crashed.
    fn ask(&mut self, hosts: &mut Hosts<A>, line: Line, user: Name, op: Op<A>) -> Result<(), Memory>
        requires waits { awaits_answer self.old.session.state ≡ true }
        requires room { vec_len self.old.heard < vec_capacity self.old.heard }
        requires up { is_up (log_of self.old.node (network_of hosts.old).logs) ≡ true }
        ensures ok { OnOk result (IsStep self.old.session.state (Ask user op) (network_of hosts.old) (network_of hosts.new) (with_line (client_in self.old) line) (client_in self.new)) }
        ensures err { OnErr result (IsStepCut self.old.session.state (Ask user op) (network_of hosts.old) (network_of hosts.new) (client_in self.old) (client_in self.new)) }
        ensures fit { IsFit self.new }
        ensures answers { (n : ℕ) (id : CommandId) → HasAnswerAt n id hosts.old → HasAnswerAt n id hosts.new }
        ensures crashed { crashes_of hosts.new ≡ crashes_of hosts.old }
    {
        match hosts.submit(self.node, user, op) {
            Ok(Some(ticket)) => {
                self.heard.push_reserved(Heard {
                    line,
                    ticket: Some(ticket),
                });
                self.standing = Standing::Waits(CommandId::new(user, ticket));
                Ok(())
            }
            Ok(None) => unreachable!(),
            Err(error) => {
                self.standing = Standing::Disconnected;
                Err(error)
            }
        }
    }
}
