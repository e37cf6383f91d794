//! A session, as its events are written down.
ghost use Rattle.std.specs.Prelude.{◌≡◌, ◌≤◌, ◌++◌, [], false, length, drop, IfOk, OnOk, if◌then◌else◌};
ghost use Rattle.audit.specs.Events.{said, unsaid, collected, goes_on, gone_on, asking_event, behind, awaits_after as spec_after, asking, asked_on};
ghost use Rattle.audit.specs.Speakers as spec;

use crate::event::Event;
use crate::kind::Kind;
use ballot::Memory;
use std::alloc::{Allocator, Global};
use std::marker::Model;

/// A session: the turns that are left, and whether it awaits an answer.
#[derive(Drop)]
pub(crate) struct Speaker<A: Allocator + Copy = Global> {
    /// The place of its node's log.
    seat: usize,
    /// Whether its last command is answered in the end.
    answered: bool,
    kinds: Vec<Kind, A>,
    next: usize,
    asked: bool,
}

impl<A: Allocator + Copy> Model for Speaker<A> {
    ghost use Rattle.std.specs.Prelude.{◌≤◌, drop, length};
    ghost use Rattle.audit.specs.Speakers.{Speaker};

    ghost Value = { Speaker };

    ghost view = { λ s. record { seat = s.seat; answered = s.answered; talk = record { left = drop s.next s.kinds.items; asked = s.asked } } };

    ghost invariant = { λ s. s.next ≤ length s.kinds.items };
}

/// Says the lines up to the next turn that asks, and tells how many they were.
fn say_lines<A: Allocator + Copy>(
    session: usize,
    kinds: &[Kind],
    events: &mut Vec<Event, A>,
) -> Result<usize, Memory>
    ensures within { IfOk result (λ count. count ≤ length kinds.now) }
    ensures left { IfOk result (λ count. drop count kinds.now ≡ unsaid kinds.now) }
    ensures events { OnOk result (events.new.items ≡ events.old.items ++ said session kinds.now) }
{
    for (count, kind) in kinds.iter().enumerate() {
        if *kind != Kind::PlainLine {
            return Ok(count);
        }
        events.push(Event::Line(session))?;
    }
    Ok(kinds.len())
}

/// Takes the answer, if one is awaited.
fn collect<A: Allocator + Copy>(
    session: usize,
    asked: bool,
    events: &mut Vec<Event, A>,
) -> Result<(), Memory>
    ensures { OnOk result (events.new.items ≡ events.old.items ++ collected session asked) }
{
    if asked {
        events.push(Event::Collect(session))?;
    }
    Ok(())
}

/// Asks, if the first of these turns does.
fn beg<A: Allocator + Copy>(
    session: usize,
    kinds: &[Kind],
    events: &mut Vec<Event, A>,
) -> Result<(), Memory>
    ensures { OnOk result (events.new.items ≡ events.old.items ++ asking_event session kinds.now) }
{
    match kinds.first() {
        Some(Kind::AskingLine) => events.push(Event::Line(session))?,
        Some(Kind::Hangup) => events.push(Event::Hangup(session))?,
        Some(Kind::PlainLine) | None => {}
    }
    Ok(())
}

/// Whether an answer is awaited after the first of these turns: one to a line is, and none to a hangup.
fn awaits_after(kinds: &[Kind]) -> bool
    ensures { result ≡ spec_after kinds.now }
{
    matches!(kinds.first(), Some(Kind::AskingLine))
}

/// The number of the turn after the one of this number, if there is that one.
fn number_behind(kinds: &[Kind], number: usize) -> usize
    requires { number ≤ length kinds.now }
    ensures within { result ≤ length kinds.now }
    ensures left { drop result kinds.now ≡ behind (drop number kinds.now) }
{
    if number < kinds.len() {
        number + 1
    } else {
        number
    }
}

impl<A: Allocator + Copy> Speaker<A> {
    /// A session before its first turn.
    pub(crate) fn new(seat: usize, answered: bool, kinds: Vec<Kind, A>) -> Self
        ensures { result ≡ record { seat = seat; answered = answered; talk = record { left = kinds.items; asked = false } } }
    {
        Speaker {
            seat,
            answered,
            kinds,
            next: 0,
            asked: false,
        }
    }

    /// Goes on as far as it can, whether the answer that it awaits is there or not.
    fn go_on(
        &mut self,
        session: usize,
        answered: bool,
        events: &mut Vec<Event, A>,
    ) -> Result<(), Memory>
        ensures events { OnOk result (events.new.items ≡ events.old.items ++ goes_on session answered self.old.talk) }
        ensures speaker { OnOk result (self.new ≡ record self.old { talk = gone_on answered self.old.talk }) }
    {
        if self.asked && !answered {
            return Ok(());
        }
        collect(session, self.asked, events)?;
        let count = say_lines(session, &self.kinds[self.next..], events)?;
        self.next += count;
        self.asked = false;
        Ok(())
    }

    /// Goes on to its next turn that asks, and asks.
    pub(crate) fn ask(&mut self, session: usize, events: &mut Vec<Event, A>) -> Result<(), Memory>
        ensures events { OnOk result (events.new.items ≡ events.old.items ++ asking session self.old.talk) }
        ensures speaker { OnOk result (self.new ≡ record self.old { talk = asked_on self.old.talk }) }
    {
        self.go_on(session, true, events)?;
        beg(session, &self.kinds[self.next..], events)?;
        self.asked = awaits_after(&self.kinds[self.next..]);
        self.next = number_behind(&self.kinds, self.next);
        Ok(())
    }

    /// Goes on as far as it ever does if no node is given, or if the given one is the session's own.
    pub(crate) fn go_on_at(
        &mut self,
        node: Option<usize>,
        session: usize,
        events: &mut Vec<Event, A>,
    ) -> Result<(), Memory>
        ensures events { OnOk result (events.new.items ≡ events.old.items ++ (if spec.goes node self.old.seat then goes_on session self.old.answered self.old.talk else [])) }
        ensures speaker { OnOk result (self.new ≡ record self.old { talk = (if spec.goes node self.old.seat then gone_on self.old.answered self.old.talk else self.old.talk) }) }
    {
        if let Some(node) = node {
            if self.seat != node {
                return Ok(());
            }
        }
        self.go_on(session, self.answered, events)
    }
}
