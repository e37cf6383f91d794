//! The transcripts of a service's sessions, as they are under their lock.
ghost use Rattle.std.specs.Prelude.{◌≡◌, ◌⊎◌, ◌+◌, ◌++◌, ◌∷◌, [], List, true, false};
ghost use Rattle.std.specs.declared.alloc.Global.{Global};
ghost use Rattle.session.specs.declared.transcript.Transcript.{Transcript};
ghost use Rattle.session.specs.Serve.{IsReadAndWritten};
ghost use Rattle.session.specs.Transcript.{IsHistory};
ghost use Rattle.service.specs.Transcripts as spec;
ghost use Rattle.service.specs.Transcripts.{AreEnded, KeepsServed};

use crate::brand::Service;
use apop::{Accounts, Stamp};
use maildrop::{Op, Outcome};
use rolls::session_bytes;
use session::{Desk, End, Gate, Transcript, serve};
use std::alloc::Global;
use std::io::{Read, Write};
use std::marker::{Model, PhantomData};
use std::sync::ledger::Book;

/// A client that was greeted. It can't be dropped: `serve` takes it.
pub(crate) struct Greeted<D: Service> {
    of: PhantomData<D>,
}

impl<D: Service> Greeted<D> {
    /// Serves the client's session to its end.
    pub(crate) fn serve<R: Read, W: Write, N: Desk<Op, Outcome>, G: Gate>(
        self,
        alloc: Global,
        reader: &mut R,
        writer: &mut W,
        accounts: &Accounts,
        stamp: Stamp,
        desk: &mut N,
        gate: &mut G,
    ) -> Served<D>
        requires { accounts.now ≡ D.accounts }
        ensures bytes { IsReadAndWritten D.accounts stamp result
            (R.remaining reader.old) (R.remaining reader.new) (W.contents writer.old) (W.contents writer.new) }
        ensures desk { IsHistory N.gives desk.old result.asked desk.new }
    {
        let Greeted { of: _ } = self;
        Served {
            transcript: serve(alloc, reader, writer, accounts, stamp, desk, gate),
            of: PhantomData,
        }
    }
}

/// What the session of a client that was greeted has left. It can't be dropped: `Transcripts::add` takes it, or `lose` if
/// it isn't kept.
pub(crate) struct Served<D: Service> {
    transcript: Transcript,
    of: PhantomData<D>,
}

impl<D: Service> Model for Served<D> {
    ghost use Rattle.std.specs.declared.alloc.Global.{Global};
    ghost use Rattle.session.specs.declared.transcript.Transcript.{Transcript};
    ghost use Rattle.service.specs.Transcripts.{IsServed};

    ghost Value = { Transcript Global };

    ghost view = { λ s. s.transcript };

    ghost invariant = { λ s. IsServed D.accounts s.transcript };
}

impl<D: Service> Served<D> {
    /// How the session ended.
    pub(crate) fn end(&self) -> End
        ensures { result ≡ self.now.end }
    {
        self.transcript.end
    }

    /// How many bytes it takes until it is audited, with what the nodes keep for it, about. One that asked nothing isn't kept.
    pub(crate) fn bytes(&self) -> u64 {
        if self.transcript.asked.len() == 0 {
            return 0;
        }
        let mut listed: usize = 0;
        for asked in self.transcript.asked.get() {
            if let Some(Outcome::Taken(taken)) = &asked.outcome {
                listed = listed.saturating_add(taken.get().len());
            }
        }
        let lines = self.transcript.lines.len();
        session_bytes(self.transcript.asked.len(), listed, lines)
    }

    /// Drops it: the service has ended, or isn't audited.
    pub(crate) fn lose(self) {
        let Served {
            transcript: _,
            of: _,
        } = self;
    }
}

/// What is kept of the sessions of a service that has ended.
#[derive(Drop)]
pub(crate) struct TranscriptList {
    /// The transcripts of sessions that asked something, in the order in which these ended.
    pub kept: Vec<Transcript>,
    /// The number of each of these sessions among all, counted from 0 in the order in which they ended.
    pub numbers: Vec<usize>,
    /// How many sessions were greeted.
    pub greeted: usize,
    /// How many sessions have ended.
    pub ended: usize,
    /// Whether there was no room for something.
    pub is_short: bool,
}

impl Model for TranscriptList {
    ghost use Rattle.service.specs.Transcripts.{TranscriptsValue};

    ghost Value = { TranscriptsValue };

    ghost view = { λ t. record { kept = t.kept.items; numbers = t.numbers.items; greeted = t.greeted; ended = t.ended; is_short = t.is_short } };
}

/// The transcripts of the sessions that have ended, and how many were greeted. A session that asked nothing leaves only its
/// number, so what a client that isn't logged in sends takes no memory once it has gone.
#[derive(Drop)]
pub(crate) struct Transcripts<D: Service> {
    /// Those of sessions that asked something, in the order in which these ended.
    kept: Vec<Transcript>,
    /// The number of each of these sessions among all, counted from 0 in the order in which they ended.
    numbers: Vec<usize>,
    /// How many sessions were greeted.
    greeted: usize,
    /// How many sessions have ended.
    ended: usize,
    /// Whether there was no room for something.
    is_short: bool,
    /// A service has one book, so there are no other transcripts of it.
    book: Book<D>,
}

impl<D: Service> Model for Transcripts<D> {
    ghost use Rattle.service.specs.Transcripts.{TranscriptsValue, KeepsServed};

    ghost Value = { TranscriptsValue };

    ghost view = { λ t. record { kept = t.kept.items; numbers = t.numbers.items; greeted = t.greeted; ended = t.ended; is_short = t.is_short } };

    ghost invariant = { λ t. KeepsServed D.accounts
        (record { kept = t.kept.items; numbers = t.numbers.items; greeted = t.greeted; ended = t.ended; is_short = t.is_short }) };
}

impl<D: Service> Transcripts<D> {
    /// The transcripts of a service that has greeted nobody. Takes no memory.
    pub(crate) fn new(alloc: Global, book: Book<D>) -> Self
        ensures { result ≡ spec.no_transcripts }
    {
        Transcripts {
            kept: Vec::new(alloc),
            numbers: Vec::new(alloc),
            greeted: 0,
            ended: 0,
            is_short: false,
            book,
        }
    }

    /// A session is greeted.
    pub(crate) fn greet(&mut self) -> Greeted<D>
        ensures greeted { self.new.is_short ≡ false → self.new.greeted ≡ self.old.greeted + 1 }
        ensures ended { (all : List (Transcript Global)) → AreEnded self.old all → AreEnded self.new all }
    {
        let is_counted = count_one(&mut self.greeted);
        self.is_short = self.is_short | !is_counted;
        Greeted { of: PhantomData }
    }

    /// The session of a client that was greeted has ended.
    pub(crate) fn add(&mut self, served: Served<D>)
        ensures ended { (all : List (Transcript Global)) → AreEnded self.old all → AreEnded self.new (all ++ served ∷ []) }
        ensures greeted { self.new.greeted ≡ self.old.greeted }
    {
        let Served { transcript, of: _ } = served;
        let is_added = add_to(
            &mut self.kept,
            &mut self.numbers,
            &mut self.ended,
            transcript,
        );
        self.is_short = self.is_short | !is_added;
    }

    /// All that is kept, without the book.
    pub(crate) fn into_list(self) -> TranscriptList
        ensures list { result ≡ self }
        ensures served { KeepsServed D.accounts result }
    {
        let Transcripts {
            kept,
            numbers,
            greeted,
            ended,
            is_short,
            book: _,
        } = self;
        TranscriptList {
            kept,
            numbers,
            greeted,
            ended,
            is_short,
        }
    }
}

/// Counts one more. Returns false if no number is left.
fn count_one(count: &mut usize) -> bool
    ensures { result ≡ true → count.new ≡ count.old + 1 }
{
    match count.checked_add(1) {
        Some(more) => {
            *count = more;
            true
        }
        None => false,
    }
}

/// Adds what a session left to the transcripts, and its number to the numbers. Only counts it if it asked nothing. Returns
/// whether there was room for it.
fn add_to(
    kept: &mut Vec<Transcript>,
    numbers: &mut Vec<usize>,
    ended: &mut usize,
    transcript: Transcript,
) -> bool
    ensures silent { result ≡ true → spec.has_asked transcript ≡ false → (kept.new.items ≡ kept.old.items) × (numbers.new.items ≡ numbers.old.items) }
    ensures kept { result ≡ true → spec.has_asked transcript ≡ true → kept.new.items ≡ kept.old.items ++ transcript ∷ [] }
    ensures numbers { result ≡ true → spec.has_asked transcript ≡ true → numbers.new.items ≡ numbers.old.items ++ ended.old ∷ [] }
    ensures ended { result ≡ true → ended.new ≡ ended.old + 1 }
{
    let number = *ended;
    if !count_one(ended) {
        return false;
    }
    if transcript.asked.is_empty() {
        return true;
    }
    if kept.reserve(1).is_err() || numbers.reserve(1).is_err() {
        return false;
    }
    kept.push_reserved(transcript);
    numbers.push_reserved(number);
    true
}
