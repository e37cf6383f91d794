//! Clients that are gone.
ghost use Rattle.std.specs.Prelude.{◌≡◌, true, List, ℕ, OnOk, OnErr};
ghost use Rattle.maildrop.specs.CommandId.{CommandId};
ghost use Rattle.maildrop.specs.declared.op.Op.TheVariants.{Free};
ghost use Rattle.node.specs.declared.input.Input.TheVariants.{Crash, Submit};
ghost use Rattle.session.specs.Session.{takes_line, lock_due, free_of};
ghost use Rattle.runs.specs.Clients.{Disconnected, standing_as};
ghost use Rattle.world.specs.Connections.{client_in, IsFit};
ghost use Rattle.world.specs.Hosts.{network_of, HasAnswerAt, crashes_of};
ghost use Rattle.runs.specs.Messages.{is_up, log_of, given_input};
ghost use Rattle.world.specs.Served.{IsHangup, IsHangupCut, IsFreed};

use crate::connection::{Connection, Standing};
use crate::hosts::Hosts;
use ballot::Memory;
use maildrop::{Name, Op, Ticket};
use std::alloc::Allocator;

impl<A: Allocator + Copy> Connection<A> {
    /// Ends the session of a client that is gone, if it awaits no answer and its node is up; else nothing happens. A lock
    /// that it holds is given back. After `Memory` its node has crashed.
    pub(crate) fn hang_up(&mut self, hosts: &mut Hosts<A>) -> Result<(), Memory>
        requires { IsFit self.old }
        ensures ok { OnOk result (IsHangup (network_of hosts.old) (network_of hosts.new) (client_in self.old) (client_in self.new)) }
        ensures err { OnErr result (IsHangupCut (network_of hosts.old) (network_of hosts.new) (client_in self.old) (client_in self.new)) }
        ensures fit { IsFit self.new }
        ensures answers { (n : ℕ) (id : CommandId) → HasAnswerAt n id hosts.old → HasAnswerAt n id hosts.new }
        ensures crashed { crashes_of hosts.new ≡ crashes_of hosts.old }
    {
        if !hosts.is_up(self.node) {
            return Ok(());
        }
        match &self.standing {
            Standing::Hears => self.leave(hosts),
            Standing::Failed(lock) => {
                let lock = *lock;
                self.give_back(hosts, lock)
            }
            _ => Ok(()),
        }
    }

    /// Ends a session that hears lines. After `Memory` its node has crashed.
    fn leave(&mut self, hosts: &mut Hosts<A>) -> Result<(), Memory>
        requires hearing { takes_line self.old.session.state ≡ true }
        requires up { is_up (log_of self.old.node (network_of hosts.old).logs) ≡ true }
        ensures ok { OnOk result (IsFreed (free_of (lock_due self.old.session.state)) (network_of hosts.old) (network_of hosts.new) (client_in self.old) (client_in self.new)) }
        ensures err { OnErr result ((network_of hosts.new ≡ given_input (network_of hosts.old) self.old.node Crash) × (client_in self.new ≡ standing_as (client_in self.old) Disconnected)) }
        ensures fit { IsFit self.new }
        ensures answers { (n : ℕ) (id : CommandId) → HasAnswerAt n id hosts.old → HasAnswerAt n id hosts.new }
        ensures crashed { crashes_of hosts.new ≡ crashes_of hosts.old }
    {
        let lock = self.end();
        match self.give_back(hosts, lock) {
            Ok(()) => Ok(()),
            Err(error) => {
                self.standing = Standing::Disconnected;
                Err(error)
            }
        }
    }

    /// Gives a lock back, and the session is over. After `Memory` its node has crashed, and the session is as it was.
    fn give_back(
        &mut self,
        hosts: &mut Hosts<A>,
        lock: Option<(Name, Ticket)>,
    ) -> Result<(), Memory>
        requires { is_up (log_of self.old.node (network_of hosts.old).logs) ≡ true }
        ensures ok { OnOk result (IsFreed (free_of lock) (network_of hosts.old) (network_of hosts.new) (client_in self.old) (client_in self.new)) }
        ensures err { OnErr result ((network_of hosts.new ≡ given_input (network_of hosts.old) self.old.node Crash) × (self.new ≡ self.old)) }
        ensures fit { OnOk result (IsFit self.new) }
        ensures answers { (n : ℕ) (id : CommandId) → HasAnswerAt n id hosts.old → HasAnswerAt n id hosts.new }
        ensures crashed { crashes_of hosts.new ≡ crashes_of hosts.old }
    {
        if let Some(lock) = lock {
            self.free(hosts, lock)?;
        }
        self.standing = Standing::Over;
        Ok(())
    }

    /// Its node is asked to give a lock back. After `Memory` the node has crashed.
    fn free(&self, hosts: &mut Hosts<A>, lock: (Name, Ticket)) -> Result<(), Memory>
        requires { is_up (log_of self.now.node (network_of hosts.old).logs) ≡ true }
        ensures ok { OnOk result (network_of hosts.new ≡ given_input (network_of hosts.old) self.now.node (Submit lock.0 (Free lock.1))) }
        ensures err { OnErr result (network_of hosts.new ≡ given_input (network_of hosts.old) self.now.node Crash) }
        ensures answers { (n : ℕ) (id : CommandId) → HasAnswerAt n id hosts.old → HasAnswerAt n id hosts.new }
        ensures crashed { crashes_of hosts.new ≡ crashes_of hosts.old }
    {
        let _ = hosts.submit(self.node, lock.0, Op::Free { lock: lock.1 })?;
        Ok(())
    }
}
