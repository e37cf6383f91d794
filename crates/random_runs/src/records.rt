//! What is left of a service: the logs of its nodes, and the transcripts of its sessions.

use crate::desk::{Served, serve_again};
use crate::play::Play;
use crate::replayed::Replayed;
use node::NodeLog;
use session::Transcript;
use std::alloc::Global;
use std::test::Fail;

/// What is left of a service.
#[derive(Drop)]
pub struct Records {
    pub logs: Vec<NodeLog>,
    pub transcripts: Vec<Transcript>,
    /// What each session's client was told.
    pub told: Vec<Vec<u8>>,
}

impl Records {
    /// Adds the logs of the nodes, which are then gone.
    fn add_logs(&mut self, replayed: &mut Replayed) -> Result<(), Fail> {
        for _ in 0..replayed.nodes.len() {
            if let Some(node) = replayed.nodes.pop() {
                self.logs.push(node.into_log())?;
            }
        }
        self.logs.reverse();
        Ok(())
    }

    /// Adds what is left of the sessions. One that didn't connect has no greeting, and its client was told nothing.
    fn add_sessions(
        &mut self,
        alloc: Global,
        play: &Play,
        replayed: &Replayed,
    ) -> Result<(), Fail> {
        for (talk, seat) in play.talks.iter().zip(replayed.seats.iter()) {
            let mut served = serve_again(
                alloc,
                talk.user,
                talk.said.as_slice(),
                seat.asked.as_slice(),
            )?;
            if seat.node.is_none() {
                drop(served.transcript.greeting.take());
                served.told.clear();
            }
            let Served { transcript, told } = served;
            self.transcripts.push(transcript)?;
            self.told.push(told)?;
        }
        Ok(())
    }

    fn add(&mut self, alloc: Global, play: &Play, replayed: &mut Replayed) -> Result<(), Fail> {
        replayed.follow(&play.service)?;
        self.add_sessions(alloc, play, replayed)?;
        self.add_logs(replayed)
    }
}

/// What is left of a service.
pub fn records_of(alloc: Global, play: &Play) -> Result<Records, Fail> {
    let mut replayed = Replayed::new(alloc, play.service.cluster)?;
    let mut records = Records {
        logs: Vec::new(alloc),
        transcripts: Vec::new(alloc),
        told: Vec::new(alloc),
    };
    records.add(alloc, play, &mut replayed)?;
    Ok(records)
}
