//! Plays services under random events, with losses, repeats, delays and crashes, and holds each run against what is
//! promised of all runs: at most one command is chosen in a slot; nodes perform what is chosen, in one order; what they
//! perform was submitted; and each session gets a prefix of what a server replies that has only its user's maildrop.
//!
//! Some of the services are audited too. The audit must take what a service left: a service that is given the order's
//! events takes each of them, and comes to the same logs and transcripts. Then one of these is changed at random: the
//! audit must refuse what it is given then, or give an order that comes to just that.
#![tactic(auto)]

mod alone;
mod chance;
mod changes;
mod chosen;
mod config;
mod desk;
mod found;
mod happening;
mod order;
mod performed;
mod play;
mod records;
mod replayed;
mod same;
mod service;

use crate::alone::wrong_replies;
use crate::chance::Chance;
use crate::changes::{CHANGES, Change, make_change};
use crate::chosen::Votes;
use crate::found::{Found, audited, explains};
use crate::performed::wrong_order;
use crate::play::{Play, random_play};
use crate::records::{Records, records_of};
use std::alloc::Global;
use std::process::ExitCode;
use std::test::Fail;

/// How many services are played and not audited.
const RUNS: u64 = 2_000;

/// How many services are audited for each change.
const AUDITS: u64 = 8;

/// How much the runs together must have done, so that nothing holds because too little happened.
const LEAST_PERFORMED: usize = 10_000;

const LEAST_LOGINS: usize = 1_000;

/// What the runs came to.
#[derive(Drop)]
struct Totals {
    runs: u64,
    wrong: u64,
    performed: usize,
    logins: usize,
}

/// What is wrong with what nodes and sessions did, if something is.
fn fault_of(alloc: Global, play: &Play) -> Result<Option<&'static str>, Fail> {
    let mut votes = Votes::new(alloc, play.service.cluster);
    if let Some(fault) = votes.count(play.service.world.sent())? {
        return Ok(Some(fault));
    }
    if let Some(fault) = wrong_order(play, &votes) {
        return Ok(Some(fault));
    }
    wrong_replies(alloc, play)
}

/// What an audit finds in the records once they have a change. It must have taken them as they were.
fn finding_in(
    alloc: Global,
    play: &Play,
    records: &mut Records,
    chance: &mut Chance,
    change: Change,
) -> Result<Found, Fail> {
    match explains(alloc, &play.service, records)? {
        Found::Explained => {}
        other => return Ok(other),
    }
    match audited(alloc, records)? {
        Found::Explained => {}
        Found::NoOrder => return Ok(Found::Amiss("the audit finds no order")),
        Found::WrongAnswer => return Ok(Found::Amiss("the audit finds a wrong answer")),
        amiss => return Ok(amiss),
    }
    make_change(alloc, play, records, chance, change)?;
    audited(alloc, records)
}

/// What is found of a service: what an audit finds if a change is to be made.
fn finding_of(
    alloc: Global,
    play: &Play,
    chance: &mut Chance,
    change: Option<Change>,
) -> Result<Found, Fail> {
    if let Some(fault) = fault_of(alloc, play)? {
        return Ok(Found::Amiss(fault));
    }
    let Some(change) = change else {
        return Ok(Found::Explained);
    };
    let mut records = records_of(alloc, play)?;
    finding_in(alloc, play, &mut records, chance, change)
}

impl Totals {
    /// Plays the next service, and has it audited with a change, if that is to be made. What is found.
    fn run(&mut self, alloc: Global, change: Option<Change>) -> Result<Found, Fail> {
        self.runs = self.runs.saturating_add(1);
        let mut chance = Chance::new(self.runs);
        let play = random_play(alloc, &mut chance, change.is_some())?;
        self.performed = self.performed.saturating_add(play.service.longest().len());
        self.logins = self.logins.saturating_add(play.logins());
        finding_of(alloc, &play, &mut chance, change)
    }

    /// Plays so many services. How many of them with the change have no order, a wrong answer, or an order.
    fn run_all<R: AllocGlobal + Print>(
        &mut self,
        rt: &R,
        count: u64,
        change: Option<Change>,
    ) -> Result<(u64, u64, u64), Fail> {
        let (mut unordered, mut wrong_answers, mut explained) = (0u64, 0u64, 0u64);
        for _ in 0..count {
            match self.run(rt.alloc(), change)? {
                Found::NoOrder => unordered = unordered.saturating_add(1),
                Found::WrongAnswer => wrong_answers = wrong_answers.saturating_add(1),
                Found::Explained => explained = explained.saturating_add(1),
                Found::Amiss(fault) => {
                    self.wrong = self.wrong.saturating_add(1);
                    let Totals { runs, .. } = *self;
                    println!(rt; "run {runs}: {fault}")?;
                }
            }
        }
        Ok((unordered, wrong_answers, explained))
    }
}

fn main(rt: HostRuntime) -> Result<ExitCode, Fail> {
    let mut totals = Totals {
        runs: 0,
        wrong: 0,
        performed: 0,
        logins: 0,
    };
    totals.run_all(&rt, RUNS, None)?;
    for (change, name) in CHANGES {
        let (unordered, wrong_answers, explained) = totals.run_all(&rt, AUDITS, Some(*change))?;
        println!(&rt;
            "{name}: {unordered} without an order, {wrong_answers} with a wrong answer, {explained} explained"
        )?;
    }
    let Totals {
        runs,
        wrong,
        performed,
        logins,
    } = totals;
    if performed < LEAST_PERFORMED || logins < LEAST_LOGINS {
        println!(&rt; "too little happened: {performed} commands, {logins} logins")?;
        return Ok(ExitCode::FAILURE);
    }
    println!(&rt; "{runs} runs, {wrong} wrong")?;
    Ok(if wrong == 0 {
        ExitCode::SUCCESS
    } else {
        ExitCode::FAILURE
    })
}
