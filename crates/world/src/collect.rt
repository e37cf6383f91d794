//! Answers that sessions take.
ghost use Rattle.std.specs.Prelude.{◌≡◌, true, false, ℕ, OnOk, OnErr};
ghost use Rattle.std.specs.Ordering.{is_eq};
ghost use Rattle.maildrop.specs.CommandId.{CommandId, compare_ids};
ghost use Rattle.session.specs.Dialogue.{IsSettled};
ghost use Rattle.session.specs.Session.{awaits_answer, by_answer, lock_due, lock_got};
ghost use Rattle.runs.specs.Clients.{Failed, standing_as};
ghost use Rattle.world.specs.Connections.{client_in, awaited_by, IsFit};
ghost use Rattle.world.specs.Hosts.{network_of, HasAnswerAt, crashes_of};
ghost use Rattle.world.specs.Served.{IsCollectAt, IsCollectCutAt};
ghost use Rattle.runs.specs.Services.{by_turn, after_answer};

use crate::connection::{Connection, Standing};
use crate::hosts::Hosts;
use ballot::Memory;
use maildrop::{CommandId, Outcome};
use session::{SessionError, Step};
use std::alloc::Allocator;

impl<A: Allocator + Copy> Connection<A> {
    /// Takes the answer that it awaits, if that is there and its node is up; else nothing happens. After `Memory` the
    /// session is lost.
    pub(crate) fn collect(&mut self, hosts: &mut Hosts<A>) -> Result<(), Memory>
        requires fit { IsFit self.old }
        requires untaken { (id : CommandId) → awaited_by self.old.standing ≡ Some id → HasAnswerAt self.old.node id hosts.old }
        ensures network { network_of hosts.new ≡ network_of hosts.old }
        ensures ok { OnOk result (IsCollectAt (client_in self.old).standing (network_of hosts.old) (client_in self.old) (client_in self.new)) }
        ensures err { OnErr result (IsCollectCutAt (client_in self.old).standing (network_of hosts.old) (client_in self.old) (client_in self.new)) }
        ensures fit { IsFit self.new }
        ensures others { (n : ℕ) (other : CommandId) → ((id : CommandId) → awaited_by self.old.standing ≡ Some id → is_eq (compare_ids id other) ≡ false) → HasAnswerAt n other hosts.old → HasAnswerAt n other hosts.new }
        ensures crashed { crashes_of hosts.new ≡ crashes_of hosts.old }
    {
        let Some(id) = self.awaited() else {
            return Ok(());
        };
        match hosts.take_answer(self.node, id) {
            Some(outcome) => self.hear_answer(id, &outcome),
            None => Ok(()),
        }
    }

    /// Hears the answer to the command. One that doesn't fit what the session asked for ends it. After `Memory` the
    /// session is lost.
    fn hear_answer(&mut self, id: CommandId, outcome: &Outcome<A>) -> Result<(), Memory>
        requires { awaits_answer self.old.session.state ≡ true }
        ensures ok { OnOk result (client_in self.new ≡ by_turn (client_in self.old) (by_answer self.old.session.state id.ticket outcome.now)) }
        ensures err { OnErr result (client_in self.new ≡ standing_as (client_in self.old) (Failed (lock_got self.old.session.state id.ticket outcome.now))) }
        ensures fit { IsFit self.new }
    {
        let (_, ticket) = id.get();
        match self.session.answer(ticket, outcome) {
            Ok(step) => self.say(step),
            Err(SessionError::Memory) => {
                self.lose();
                Err(Memory)
            }
            Err(_) => {
                self.standing = Standing::Over;
                Ok(())
            }
        }
    }

    /// What an answer brings: the client is told something, and the session may be over. After `Memory` it is lost.
    fn say(&mut self, step: Step<A>) -> Result<(), Memory>
        requires settled { IsSettled step self.old.session.state }
        requires says { awaits_answer self.old.session.state ≡ false }
        ensures ok { OnOk result (client_in self.new ≡ after_answer (client_in self.old) self.old.session.state step) }
        ensures err { OnErr result (client_in self.new ≡ standing_as (client_in self.old) (Failed (lock_due self.old.session.state))) }
        ensures fit { IsFit self.new }
    {
        match step {
            Step::Say(bytes) => self.tell(&bytes, Standing::Hears),
            Step::SayAndClose(bytes) => self.tell(&bytes, Standing::Over),
            Step::Ask(..) => unreachable!(),
        }
    }
}
