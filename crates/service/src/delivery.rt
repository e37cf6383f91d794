//! Mail that an operator delivers.
ghost use Rattle.std.specs.Prelude.{◌≡◌, ◌++◌, ◌<◌, ◌≤◌, IfOk, OnOk, map, drop, length};
ghost use Rattle.std.specs.Str.Lines.{lines};
ghost use Rattle.service.specs.Keys.{key_at};
ghost use Rattle.service.specs.Deliveries as spec;
ghost use Rattle.service.specs.Deliveries.{outcome_lines, delivered_after};

use crate::asking::{Unanswered, await_outcomes};
use crate::served_node::{OperatorOp, ServedNode};
use ballot::{Memory, NodeId};
use maildrop::{Key, Name, Outcome, Text, TextBuilder, Ticket, next_line};
use mboxrd::{MboxError, Reader};
use ports::{Fault, OperatorStream, PIECE, say};
use script::{KeyPrefix, LAST_MESSAGE, put_outcome};
use session_log::{put, put_labelled};
use std::alloc::Global;
use std::collections::VecDeque;
use std::io::Read;
use std::sync::Wait;

/// Why nothing of a file is delivered.
#[derive(Clone, Copy, Debug, PartialEq, Eq)]
pub(crate) enum DeliveryError {
    /// The file isn't a mailbox.
    NoMailbox,
    /// There are fewer bytes than were announced, or they come too slowly.
    Short,
    /// A request for memory was refused.
    Memory,
}

impl DeliveryError {
    /// Reports it, except a lack of memory.
    pub(crate) fn tell(self, stream: &OperatorStream) -> Result<(), Fault> {
        let mut writer = stream;
        match self {
            DeliveryError::NoMailbox => say(&mut writer, b"bad mbox\n"),
            DeliveryError::Short => say(&mut writer, b"bad request\n"),
            DeliveryError::Memory => Err(Fault::Memory),
        }
    }
}

impl From<MboxError> for DeliveryError {
    ghost use Rattle.std.specs.Prelude.{◌≡◌};
    ghost use Rattle.service.specs.MailboxErrors.{error_of};

    ghost from_gives = { λ error result. result ≡ error_of error };

    fn from(error: MboxError) -> DeliveryError {
        match error {
            MboxError::NoFromLine => DeliveryError::NoMailbox,
            MboxError::Memory => DeliveryError::Memory,
        }
    }
}

/// Reads the next bytes of a file of which so many are left.
fn read_some<S: Read>(
    reader: &mut S,
    piece: &mut [u8; PIECE],
    left: u64,
) -> Result<usize, DeliveryError>
    requires { 0 < left }
    ensures { IfOk result (λ taken. (0 < taken) × (taken ≤ left) × (taken ≤ 4096)) }
{
    let most = left.min(PIECE as u64) as usize;
    match reader.read(&mut piece[..most]) {
        Ok(0) | Err(_) => Err(DeliveryError::Short),
        Ok(taken) => Ok(taken),
    }
}

/// The texts of a mailbox file of so many bytes. After its fault no more is read.
pub(crate) fn texts_in<S: Read>(
    alloc: Global,
    reader: &mut S,
    count: u64,
) -> Result<Vec<Text>, DeliveryError> {
    let mut mailbox = Reader::new(alloc);
    let mut piece = [0u8; PIECE];
    let mut left = count;
    while left > 0 {
        let taken = read_some(reader, &mut piece, left)?;
        mailbox.feed(&piece[..taken])?;
        left -= taken as u64;
    }
    Ok(mailbox.finish()?)
}

/// The message of so many bytes.
pub(crate) fn message_in<S: Read>(
    alloc: Global,
    reader: &mut S,
    count: u64,
) -> Result<Text, DeliveryError> {
    let mut bytes = Vec::new(alloc);
    let mut piece = [0u8; PIECE];
    let mut left = count;
    while left > 0 {
        let taken = read_some(reader, &mut piece, left)?;
        if bytes.extend_from_slice(&piece[..taken]).is_err() {
            return Err(DeliveryError::Memory);
        }
        left -= taken as u64;
    }
    match text_of(alloc, bytes.as_slice()) {
        Ok(text) => Ok(text),
        Err(Memory) => Err(DeliveryError::Memory),
    }
}

/// The text of these lines, each of which ends with LF or CR LF. What follows the last line end is a line too.
fn text_of(alloc: Global, bytes: &[u8]) -> Result<Text, Memory>
    ensures { IfOk result (λ text. text ≡ lines bytes.now) }
{
    let mut text = TextBuilder::new(alloc);
    let mut rest = bytes;
    while let Some((line, behind)) = next_line(rest) {
        text.push_line(line)?;
        rest = behind;
    }
    text.finish()
}

/// The key of the text at a place of its file, counted from 0, if there are keys. A file of 2^30 bytes has fewer texts than
/// there are numbers.
fn key_of(prefix: &Option<KeyPrefix>, place: usize) -> Option<Key>
    ensures { result ≡ key_at prefix.now place }
{
    match (prefix, u32::try_from(place)) {
        (Some(prefix), Ok(place)) if place < LAST_MESSAGE => Some(prefix.numbered(place + 1)),
        _ => None,
    }
}

/// The answer to the delivery of one message that is larger than any that is taken. It has no ticket.
pub(crate) fn too_large_answer(alloc: Global, user: &Name, node: NodeId) -> Result<Vec<u8>, Memory>
    ensures { IfOk result (λ answer. answer.items ≡ spec.too_large_answer user.now node) }
{
    let mut answer = Vec::new(alloc);
    put(&mut answer, b"op ")?;
    put(&mut answer, user.get())?;
    put_labelled(&mut answer, b" ", u64::from(node.get()))?;
    put(&mut answer, b"/0 too large\nend\n")?;
    Ok(answer)
}

/// What has become of the messages of a delivery so far.
#[derive(Clone, Copy, Debug, PartialEq, Eq)]
pub(crate) struct Delivered {
    /// How many are stored.
    pub stored: u64,
    /// How many octets these have.
    pub octets: u64,
    /// How many were refused.
    pub refused: u64,
}

impl Delivered {
    /// Nothing was delivered yet.
    pub(crate) fn new() -> Self
        ensures { result ≡ spec.none_delivered }
    {
        Delivered {
            stored: 0,
            octets: 0,
            refused: 0,
        }
    }

    /// One more message, of so many octets, has this outcome.
    fn note(&mut self, outcome: &Outcome, octets: u64)
        ensures { self.new ≡ spec.delivered_with octets outcome.now self.old }
    {
        match outcome {
            Outcome::Stored(_) => {
                self.stored = self.stored.saturating_add(1);
                self.octets = self.octets.saturating_add(octets);
            }
            _ => self.refused = self.refused.saturating_add(1),
        }
    }
}

/// Who delivers mail: a connection's client, to a user at a node.
#[derive(Drop)]
pub(crate) struct Delivery<'a, R, N> {
    pub rt: R,
    pub alloc: Global,
    pub node: &'a N,
    pub stream: &'a OperatorStream,
    pub user: Name,
}

/// A message that was submitted and has no outcome yet, with how many octets it has.
#[derive(Clone, Copy, Debug)]
struct Submitted {
    ticket: Ticket,
    octets: u64,
}

impl<R: Wait + Drop, N: ServedNode + Drop> Delivery<'_, R, N> {
    /// Submits a text. Returns whether the node still runs: if it has stopped, `down` is reported.
    fn submit(
        &self,
        text: Text,
        key: Option<Key>,
        submitted: &mut VecDeque<Submitted>,
    ) -> Result<bool, Fault> {
        submitted.reserve(1)?;
        let octets = u64::try_from(text.octets()).unwrap_or(u64::MAX);
        match self.node.submit(self.user, OperatorOp::Mail { text, key }) {
            Some(ticket) => {
                submitted.push_back(Submitted { ticket, octets })?;
                Ok(true)
            }
            None => self.report_down(),
        }
    }

    fn report_down(&self) -> Result<bool, Fault> {
        let mut writer = self.stream;
        say(&mut writer, b"down\n")?;
        Ok(false)
    }

    /// The tickets of texts that were submitted, in the same order.
    fn tickets_of(&self, submitted: &VecDeque<Submitted>) -> Result<Vec<Ticket>, Memory>
        ensures { IfOk result (λ tickets. tickets.items ≡ map (λ one. one.ticket) submitted.now.items) }
    {
        let mut tickets = Vec::with_capacity(self.alloc, submitted.len())?;
        for one in submitted {
            tickets.push(one.ticket)?;
        }
        Ok(tickets)
    }

    /// Removes the texts that were submitted first, one for each of these outcomes, and writes a line about each. After `Memory`
    /// the first lines are there, and all these texts are removed: their outcomes can't be taken again.
    fn note_all(
        &self,
        outcomes: &[Outcome],
        submitted: &mut VecDeque<Submitted>,
        delivered: &mut Delivered,
        lines: &mut Vec<u8>,
    ) -> Result<(), Memory>
        ensures submitted { submitted.new.items ≡ drop (length outcomes.now) submitted.old.items }
        ensures delivered { delivered.new ≡ delivered_after outcomes.now submitted.old.items delivered.old }
        ensures lines { OnOk result (lines.new.items ≡ lines.old.items ++ outcome_lines self.now.user outcomes.now submitted.old.items) }
    {
        let mut written = Ok(());
        let mut rest = outcomes;
        while let Some((outcome, others)) = rest.split_first() {
            let Some(Submitted { ticket, octets }) = submitted.pop_front() else {
                break;
            };
            delivered.note(outcome, octets);
            if written.is_ok() {
                written = put_outcome(lines, &self.user, ticket, outcome);
            }
            rest = others;
        }
        written
    }

    /// Waits for the outcome of the text that was submitted first, if there is one, and reports it, and those after it that are
    /// there by then. Returns whether the node still runs: if it has stopped, `down` is reported.
    fn conclude(
        &self,
        submitted: &mut VecDeque<Submitted>,
        delivered: &mut Delivered,
    ) -> Result<bool, Fault> {
        if submitted.is_empty() {
            return Ok(true);
        }
        let tickets = self.tickets_of(submitted)?;
        let room = Vec::with_capacity(self.alloc, tickets.len())?;
        match await_outcomes(&self.rt, self.node, self.stream, self.user, &tickets, room) {
            Ok(outcomes) => {
                let mut writer = self.stream;
                let mut lines = Vec::new(self.alloc);
                let noted = self.note_all(&outcomes, submitted, delivered, &mut lines);
                say(&mut writer, lines.as_slice())?;
                noted?;
                Ok(true)
            }
            Err(Unanswered::Stopped) => self.report_down(),
            Err(Unanswered::Gone) => Err(Fault::Write),
        }
    }

    /// Submits texts in order, as many at a time as the node takes, and reports their outcomes. Returns whether the node still
    /// runs.
    fn deliver_each(
        &self,
        texts: Vec<Text>,
        prefix: &Option<KeyPrefix>,
        submitted: &mut VecDeque<Submitted>,
        delivered: &mut Delivered,
    ) -> Result<bool, Fault> {
        for (place, text) in texts.into_iter().enumerate() {
            if submitted.len() >= self.node.under_way() && !self.conclude(submitted, delivered)? {
                return Ok(false);
            }
            if !self.submit(text, key_of(prefix, place), submitted)? {
                return Ok(false);
            }
        }
        for _ in 0..submitted.len() {
            if !self.conclude(submitted, delivered)? {
                return Ok(false);
            }
        }
        Ok(true)
    }

    /// Submits a text, and reports its outcome. Returns whether the node still runs.
    fn deliver_text(
        &self,
        text: Text,
        key: Option<Key>,
        submitted: &mut VecDeque<Submitted>,
        delivered: &mut Delivered,
    ) -> Result<bool, Fault> {
        Ok(self.submit(text, key, submitted)? && self.conclude(submitted, delivered)?)
    }

    /// Nobody awaits the outcomes of these texts any more. Reports the end of the answer if the node still runs.
    fn finish(
        &self,
        submitted: VecDeque<Submitted>,
        runs: Result<bool, Fault>,
    ) -> Result<(), Fault> {
        for Submitted { ticket, octets: _ } in submitted {
            self.node.forget(self.user, ticket);
        }
        if runs? {
            let mut writer = self.stream;
            return say(&mut writer, b"end\n");
        }
        Ok(())
    }

    /// Has the texts delivered in order. The key of each, if there are keys, is the prefix with the number of the text after
    /// it, counted from 1.
    pub(crate) fn deliver_all(
        &self,
        texts: Vec<Text>,
        prefix: &Option<KeyPrefix>,
        delivered: &mut Delivered,
    ) -> Result<(), Fault> {
        let mut submitted = VecDeque::new(self.alloc);
        let runs = self.deliver_each(texts, prefix, &mut submitted, delivered);
        self.finish(submitted, runs)
    }

    /// Has one text delivered.
    pub(crate) fn deliver_one(
        &self,
        text: Text,
        key: Option<Key>,
        delivered: &mut Delivered,
    ) -> Result<(), Fault> {
        let mut submitted = VecDeque::new(self.alloc);
        let runs = self.deliver_text(text, key, &mut submitted, delivered);
        self.finish(submitted, runs)
    }
}
