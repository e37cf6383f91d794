//! Which commands are chosen, by the messages that were sent.

use ballot::{Ballot, Cluster, Message, NodeId, Payload, Slot, Vote};
use maildrop::{CommandId, SharedCommand};
use std::alloc::Global;
use std::test::Fail;
use world::Sent;

/// A command for which a ballot asked in a slot, and who voted for it.
#[derive(Drop)]
struct Candidate {
    ballot: Ballot,
    slot: Slot,
    command: CommandId,
    voters: Vec<NodeId>,
}

/// The votes of a run.
#[derive(Drop)]
pub struct Votes {
    alloc: Global,
    cluster: Cluster,
    candidates: Vec<Candidate>,
}

impl Votes {
    /// None are counted yet.
    pub fn new(alloc: Global, cluster: Cluster) -> Self {
        Votes {
            alloc,
            cluster,
            candidates: Vec::new(alloc),
        }
    }

    /// Counts the votes among these messages, all that were sent. Reports what may not be among them.
    pub fn count(&mut self, sent: &[Sent]) -> Result<Option<&'static str>, Fail> {
        for message in sent {
            match &message.envelope.message {
                Message::P2a(pvalue) => {
                    if !self.ask(pvalue.ballot, pvalue.slot, pvalue.command.id())? {
                        return Ok(Some("a ballot asks for two commands in a slot"));
                    }
                }
                Message::P2b(vote) => self.vote(message.envelope.from, *vote)?,
                _ => {}
            }
        }
        Ok(self.fault(sent))
    }

    /// What is wrong with what was chosen and decided.
    fn fault(&self, sent: &[Sent]) -> Option<&'static str> {
        if self.candidates.iter().any(|candidate| {
            self.is_chosen(candidate) && self.chosen(candidate.slot) != Some(candidate.command)
        }) {
            return Some("two commands are chosen in a slot");
        }
        if sent.iter().any(|message| self.is_wrong_decision(&message.envelope.message)) {
            return Some("a decision tells a command that isn't chosen");
        }
        None
    }

    fn is_wrong_decision(&self, message: &Message<SharedCommand>) -> bool {
        match message {
            Message::Decision(slot, command) => self.chosen(*slot) != Some(command.id()),
            _ => false,
        }
    }

    /// A leader asks for a command. Whether its ballot asked for no other in that slot.
    fn ask(&mut self, ballot: Ballot, slot: Slot, command: CommandId) -> Result<bool, Fail> {
        let known = self
            .candidates
            .iter()
            .find(|it| it.ballot == ballot && it.slot == slot);
        if let Some(candidate) = known {
            return Ok(candidate.command == command);
        }
        self.candidates.push(Candidate {
            ballot,
            slot,
            command,
            voters: Vec::new(self.alloc),
        })?;
        Ok(true)
    }

    /// A node votes, if its ballot is still the one that asked.
    fn vote(&mut self, from: NodeId, vote: Vote) -> Result<(), Fail> {
        if vote.ballot != vote.asked {
            return Ok(());
        }
        for candidate in self.candidates.iter_mut() {
            if candidate.ballot == vote.ballot
                && candidate.slot == vote.slot
                && !candidate.voters.contains(&from)
            {
                candidate.voters.push(from)?;
            }
        }
        Ok(())
    }

    fn is_chosen(&self, candidate: &Candidate) -> bool {
        self.cluster.majority(candidate.voters.len())
    }

    /// The command that is chosen in the slot: that of the first ballot that has a majority.
    pub fn chosen(&self, slot: Slot) -> Option<CommandId> {
        let found = self
            .candidates
            .iter()
            .find(|it| it.slot == slot && self.is_chosen(it));
        match found {
            Some(candidate) => Some(candidate.command),
            None => None,
        }
    }
}
