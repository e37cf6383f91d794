//! The connections of operators.

use crate::asking::{Absence, Unanswered, ask};
use crate::delivery::{Delivered, Delivery, DeliveryError, message_in, texts_in, too_large_answer};
use crate::furthest::{furthest_slot, furthest_up};
use crate::maildrop_lines::{lock_lines, user_lines};
use crate::operator_requests::{EpochReader, Unheard, hear};
use crate::pop::node_for;
use crate::served_node::{OperatorOp, ServedNode};
use crate::standing::put_standing;
use crate::state::ServiceState;
use ballot::{Memory, NodeId};
use ctl::awaits_nodes;
use maildrop::{Key, Name, Outcome};
use ports::{
    Connection, DeliveryBudget, Fault, Handler, LONGEST_PAUSE_MS, OperatorConnection,
    OperatorStream, RequestPlaces, ServeEnd, say,
};
use rolls::{Asked, RollEnd};
use script::{KeyPrefix, Request};
use session_log::{put, put_number_line};
use settings::{
    BRIEF_LINE_MS, BROKEN_LOOK_MS, CUT_MS, END_LOOK_MS, ENDING_LOOK_MS, LINE_MS, LOOK_MS,
    MOST_BROKEN_LOOKS, NEXT_EPOCH_MS,
};
use std::alloc::Global;
use std::net::{Shutdown, SocketAddr};
use std::sync::{Arc, Wait};
use std::time::{Clock, Duration};

/// Octets for an answer: enough for a line about each of nine nodes.
const ANSWER_ROOM: usize = 576;

/// The limits that all operators' connections share.
#[derive(Drop)]
struct SharedLimits {
    places: RequestPlaces,
    budget: DeliveryBudget,
}

/// Answers operators: one request a connection.
#[derive(Drop)]
pub(crate) struct OperatorHandler<R, N: ServedNode> {
    /// The system: waits and the clock.
    rt: R,
    /// Where its memory comes from.
    alloc: Global,
    /// The nodes of the service.
    nodes: Arc<Vec<N>>,
    /// What all threads of the epoch see.
    state: Arc<ServiceState>,
    limits: Arc<SharedLimits>,
    /// The most bytes of a file that is delivered.
    most_file: u64,
    /// A short answer. Its room is taken before the connection comes.
    answer: Vec<u8>,
}

/// What was done with a request.
#[derive(Clone, Copy, Debug, PartialEq, Eq)]
enum Answered {
    /// It has its answer.
    Told,
    /// It waits for the next epoch.
    NextEpoch,
}

/// Why a delivery has no room for its file.
#[derive(Clone, Copy, Debug, PartialEq, Eq)]
enum NoRoom {
    /// The node is down.
    Down,
    /// The client has gone.
    Gone,
    /// No delivery begins in this epoch any more.
    NextEpoch,
}

/// Says a line.
fn tell(stream: &OperatorStream, line: &[u8]) -> Result<Answered, Fault> {
    let mut writer = stream;
    say(&mut writer, line)?;
    Ok(Answered::Told)
}

/// Whether a request asks for what only nodes know or do, and is answered at once. It is better asked once the next epoch has begun than
/// while there are no nodes.
fn asks_nodes(request: &Request) -> bool {
    matches!(
        request,
        Request::Status | Request::Locks | Request::Users | Request::Crash { .. }
    )
}

/// Whether a node is up.
fn is_up<N: ServedNode>(node: &N) -> bool {
    match node.status() {
        Some(status) => status.up,
        None => false,
    }
}

/// The node of this number, if it runs here and is up. Any that is up, if no number is given.
fn node_up<N: ServedNode>(nodes: &[N], number: Option<NodeId>) -> Option<&N> {
    let Some(number) = number else {
        return node_for(nodes, None);
    };
    for node in nodes {
        if node.me() == number && is_up(node) {
            return Some(node);
        }
    }
    None
}

/// Adds the state of each node.
fn put_status<N: ServedNode>(nodes: &[N], text: &mut Vec<u8>) -> Result<(), Memory> {
    for node in nodes {
        put_standing(text, node.me(), &node.status())?;
    }
    put(text, b"end\n")
}

impl<R: Wait + Clock + Copy, N: ServedNode + Drop> OperatorHandler<R, N> {
    /// Answers operators of these nodes. All files that are delivered at a time have at most `delivery_bytes`, each at most
    /// `most_file`.
    pub(crate) fn new(
        rt: R,
        alloc: Global,
        nodes: Arc<Vec<N>>,
        state: Arc<ServiceState>,
        delivery_bytes: u64,
        most_file: u64,
    ) -> Result<Self, Memory> {
        let limits = SharedLimits {
            places: RequestPlaces::new(),
            budget: DeliveryBudget::new(delivery_bytes),
        };
        Ok(OperatorHandler {
            rt,
            alloc,
            nodes,
            state,
            limits: Arc::new(alloc, limits)?,
            most_file,
            answer: Vec::with_capacity(alloc, ANSWER_ROOM)?,
        })
    }

    /// Serves a connection that has a place. One whose request waits for nodes keeps it until it is answered.
    fn serve_in_place(&mut self, connection: &OperatorConnection) -> ServeEnd {
        let Ok(mut reader) = EpochReader::new(self.rt, connection, &self.state, LINE_MS) else {
            self.limits.places.leave(&self.rt);
            return ServeEnd::Closed;
        };
        let stream = connection.stream();
        let heard = hear(&mut reader);
        if let Ok(request) = &heard {
            if awaits_nodes(request) {
                let answered = self.answer_by_nodes(request, &mut reader, stream);
                self.limits.places.leave(&self.rt);
                return self.end_of(answered, &reader, stream);
            }
        }
        self.limits.places.leave(&self.rt);
        let answered = match &heard {
            Err(Unheard::Unfinished) if self.state.is_followed(&self.rt) => Ok(Answered::NextEpoch),
            Ok(request) if asks_nodes(request) && self.is_next_better() => Ok(Answered::NextEpoch),
            Ok(request) => self.answer_at_once(request, stream, true),
            Err(_) => self.tell_unheard(stream),
        };
        self.end_of(answered, &reader, stream)
    }

    /// Serves a connection that has no place, or may not even wait for the end of the service.
    fn serve_without_place(&mut self, connection: &OperatorConnection, may_wait: bool) {
        let Ok(mut reader) = EpochReader::new(self.rt, connection, &self.state, BRIEF_LINE_MS)
        else {
            return;
        };
        let stream = connection.stream();
        let _closed = match &hear(&mut reader) {
            Ok(request) => self.answer_at_once(request, stream, may_wait),
            Err(_) => self.tell_unheard(stream),
        };
    }

    /// What becomes of the connection of a request. If there is no memory to put it back, its sender may send the request again.
    fn end_of(
        &self,
        answered: Result<Answered, Fault>,
        reader: &EpochReader<'_, R>,
        stream: &OperatorStream,
    ) -> ServeEnd {
        match answered {
            Ok(Answered::NextEpoch) if reader.put_back(self.alloc).is_ok() => ServeEnd::PutBack,
            Ok(Answered::NextEpoch) => {
                let _untold = tell(stream, b"down\n");
                ServeEnd::Closed
            }
            Ok(Answered::Told) | Err(_) => ServeEnd::Closed,
        }
    }

    /// Whether this epoch has ended, and the next one answers within 2 s.
    fn is_next_better(&self) -> bool {
        let time = Duration::from_millis(NEXT_EPOCH_MS);
        self.state.stages().has_ended(&self.rt)
            && self.state.is_followed(&self.rt)
            && self
                .state
                .life()
                .rolls()
                .follows_within(&self.rt, self.state.epoch(), time)
    }

    /// Answers a request that needs no place: it waits for no node, or for 10 seconds at most. Others are not answered.
    fn answer_at_once(
        &mut self,
        request: &Request,
        stream: &OperatorStream,
        may_wait: bool,
    ) -> Result<Answered, Fault> {
        match request {
            Request::Status => self.tell_status(stream),
            Request::Sessions => self.tell_sessions(stream),
            Request::Stats => self.tell_stats(stream),
            Request::Kick { user } => self.kick(user, stream),
            Request::Locks => self.tell_locks(stream),
            Request::Users => self.tell_users(stream),
            Request::Reopen => self.reopen(stream),
            Request::Crash { node } => self.crash(*node, stream, may_wait),
            Request::Stop { now, wait } => self.stop(*now, *wait, stream, may_wait),
            Request::Deliver { .. } | Request::Put { .. } | Request::Break { .. } | Request::Roll =>
                Ok(Answered::Told),
        }
    }

    /// Answers a request that waits for nodes.
    fn answer_by_nodes(
        &self,
        request: &Request,
        reader: &mut EpochReader<'_, R>,
        stream: &OperatorStream,
    ) -> Result<Answered, Fault> {
        match request {
            Request::Deliver { count, .. } if *count > self.most_file => {
                tell(stream, b"bad request\n")
            }
            Request::Put {
                node,
                user,
                count,
                ..
            } if *count > self.most_file => self.tell_too_large(node, user, stream),
            Request::Deliver {
                node,
                user,
                count,
                key,
            } => self.deliver_mail(*node, *user, *count, key, reader, stream),
            Request::Put {
                node,
                user,
                count,
                key,
            } => self.put_message(node, *user, *count, key, reader, stream),
            Request::Break { node, user } => self.break_lock(*node, *user, stream),
            Request::Roll => self.roll(stream),
            _ => Ok(Answered::Told),
        }
    }

    /// Reports that a request can't be read, or wasn't whole as the service ended: then it may be sent again.
    fn tell_unheard(&self, stream: &OperatorStream) -> Result<Answered, Fault> {
        if self.state.stages().has_ended(&self.rt) && !self.state.is_followed(&self.rt) {
            return tell(stream, b"down\n");
        }
        tell(stream, b"bad request\n")
    }

    fn tell_status(&mut self, stream: &OperatorStream) -> Result<Answered, Fault> {
        self.answer.clear();
        put_status(&self.nodes, &mut self.answer)?;
        tell(stream, self.answer.as_slice())
    }

    fn tell_sessions(&self, stream: &OperatorStream) -> Result<Answered, Fault> {
        let lines = self.state.life().sessions().lines(&self.rt, self.alloc)?;
        tell(stream, lines.as_slice())
    }

    fn tell_stats(&self, stream: &OperatorStream) -> Result<Answered, Fault> {
        let slots = furthest_slot(&self.nodes);
        let lines = self.state.life().stats(&self.rt, self.alloc, slots)?;
        tell(stream, lines.as_slice())
    }

    fn tell_locks(&self, stream: &OperatorStream) -> Result<Answered, Fault> {
        let Some(node) = furthest_up(&self.nodes) else {
            return tell(stream, b"down\n");
        };
        let locks = node.locks()?;
        let lines = lock_lines(self.alloc, locks.as_slice())?;
        tell(stream, lines.as_slice())
    }

    fn tell_users(&self, stream: &OperatorStream) -> Result<Answered, Fault> {
        let Some(node) = furthest_up(&self.nodes) else {
            return tell(stream, b"down\n");
        };
        let users = node.usage()?;
        let lines = user_lines(self.alloc, users.as_slice())?;
        tell(stream, lines.as_slice())
    }

    /// Cuts the sessions of a user, and reports how many these are.
    fn kick(&mut self, user: &Name, stream: &OperatorStream) -> Result<Answered, Fault> {
        let count = self.state.life().sessions().kick(&self.rt, user);
        self.answer.clear();
        put_number_line(&mut self.answer, b"kicked ", count as u64)?;
        tell(stream, self.answer.as_slice())
    }

    /// Has the log's file opened anew, and reports that.
    fn reopen(&self, stream: &OperatorStream) -> Result<Answered, Fault> {
        match self.state.life().log().reopen(&self.rt) {
            Ok(()) => tell(stream, b"reopened\n"),
            Err(fault) => {
                let line = format!(in self.alloc; "reopen failed: {fault}\n")?;
                tell(stream, line.as_bytes())
            }
        }
    }

    /// Stops a node, and reports it once the locks of its sessions are broken, if that takes no longer than it may.
    fn crash(
        &self,
        number: NodeId,
        stream: &OperatorStream,
        may_wait: bool,
    ) -> Result<Answered, Fault> {
        match node_up(&self.nodes, Some(number)) {
            Some(node) if node.crash() => {
                self.state.life().log().crash(&self.rt, number);
                if may_wait {
                    self.break_locks();
                }
                tell(stream, b"crashed\n")
            }
            _ => tell(stream, b"down\n"),
        }
    }

    /// Waits until the locks are broken that sessions of nodes hold which are down, but not for long. Afterwards the
    /// ticker's thread looks for them.
    fn break_locks(&self) {
        for _ in 0..MOST_BROKEN_LOOKS {
            let breaker = self.state.lock_breaker();
            let is_more = breaker.look(&self.rt, &self.nodes, self.state.life().log());
            let pause = Duration::from_millis(BROKEN_LOOK_MS);
            if !matches!(&is_more, Ok(true)) || self.state.stages().pauses(&self.rt, pause) {
                return;
            }
        }
    }

    /// Stops the service, and reports that, and how it has ended if the client waits for that. Cuts open sessions if the
    /// service is to stop now.
    fn stop(
        &self,
        now: bool,
        waits: bool,
        stream: &OperatorStream,
        may_wait: bool,
    ) -> Result<Answered, Fault> {
        self.state.life().log().stop(&self.rt);
        self.state.life().stop(&self.rt);
        let told = tell(stream, b"stopping\n");
        if !waits {
            stream.shut(Shutdown::Both);
        }
        if now {
            self.cut_sessions(may_wait);
        }
        told?;
        if waits && may_wait {
            return self.tell_end(stream);
        }
        Ok(Answered::Told)
    }

    /// Cuts the sessions that are open, and those that come until all have ended.
    fn cut_sessions(&self, may_wait: bool) {
        for _ in self.rt.forever() {
            let life = self.state.life();
            life.sessions().cut_all(&self.rt);
            let pause = Duration::from_millis(CUT_MS);
            if !may_wait || life.rolls().pauses(&self.rt, self.state.epoch(), pause) {
                return;
            }
        }
    }

    /// Reports how the service has ended, once it has.
    fn tell_end(&self, stream: &OperatorStream) -> Result<Answered, Fault> {
        let life = self.state.life();
        let look = Duration::from_millis(END_LOOK_MS);
        for _ in self.rt.forever() {
            if life.rolls().pauses(&self.rt, self.state.epoch(), look) {
                break;
            }
        }
        match life.announcements().get(&self.rt) {
            Some(announcement) => {
                let line = announcement.line(self.alloc)?;
                tell(stream, line.as_bytes())
            }
            None => Ok(Answered::Told),
        }
    }

    /// Asks for the end of the epoch. If it is about to end, and the accounts were read before this request, waits until it is certain
    /// whether it ends.
    fn ask_to_roll(&self) -> Asked {
        let life = self.state.life();
        let look = Duration::from_millis(ENDING_LOOK_MS);
        for _ in self.rt.forever() {
            let asked = life.rolls().ask(&self.rt, self.state.epoch());
            let is_certain = !matches!(asked, Asked::TooLate)
                || self.state.is_followed(&self.rt)
                || life.stages().is_stopping(&self.rt);
            if is_certain || life.rolls().pauses(&self.rt, self.state.epoch(), look) {
                return asked;
            }
        }
        unreachable!()
    }

    /// Ends the epoch, and reports that the next one has begun once a node of it leads, or why the epoch goes on. A service whose
    /// nodes have ports has only one epoch.
    fn roll(&self, stream: &OperatorStream) -> Result<Answered, Fault> {
        let (rolls, epoch) = (self.state.life().rolls(), self.state.epoch());
        let refusals = match self.ask_to_roll() {
            Asked::Never => return tell(stream, b"bad request\n"),
            Asked::TooLate => return self.tell_closed(stream),
            Asked::Noted(refusals) => refusals,
        };
        match rolls.waits_for_next(&self.rt, epoch, refusals) {
            RollEnd::Rolled => tell(stream, b"rolled\n"),
            RollEnd::Over => tell(stream, b"down\n"),
            RollEnd::Refused(fault) => {
                let line = format!(in self.alloc; "roll failed: {fault}\n")?;
                tell(stream, line.as_bytes())
            }
        }
    }

    /// Waits until a file of so many bytes may come, for as long as its node is up, its client is there, and deliveries begin in this
    /// epoch.
    fn take_room(&self, node: &N, count: u64, stream: &OperatorStream) -> Result<(), NoRoom> {
        let look = Duration::from_millis(LOOK_MS);
        let mut absence = Absence::new();
        for _ in self.rt.forever() {
            if self.limits.budget.take_within(&self.rt, count, look) {
                return Ok(());
            }
            if self.state.is_followed(&self.rt) {
                return Err(NoRoom::NextEpoch);
            }
            if !is_up(node) {
                return Err(NoRoom::Down);
            }
            if absence.look(stream) {
                return Err(NoRoom::Gone);
            }
        }
        unreachable!()
    }

    /// Reports that nothing can be delivered, unless the next epoch takes deliveries.
    fn tell_closed(&self, stream: &OperatorStream) -> Result<Answered, Fault> {
        if self.state.is_followed(&self.rt) {
            return Ok(Answered::NextEpoch);
        }
        tell(stream, b"down\n")
    }

    /// Reports why there is no room for a file.
    fn tell_no_room(&self, why: NoRoom, stream: &OperatorStream) -> Result<Answered, Fault> {
        match why {
            NoRoom::Down => tell(stream, b"down\n"),
            NoRoom::Gone => Err(Fault::Write),
            NoRoom::NextEpoch => self.tell_closed(stream),
        }
    }

    /// The node at which mail is stored: that of this number, or any that is up. None once the service stops, since its mail
    /// would be lost with it.
    fn node_to_store(&self, number: Option<NodeId>) -> Option<&N> {
        if self.state.life().stages().is_stopping(&self.rt) {
            return None;
        }
        node_up(&self.nodes, number)
    }

    /// Has the messages of the mailbox file that follows delivered, and reports their outcomes.
    fn deliver_mail(
        &self,
        number: NodeId,
        user: Name,
        count: u64,
        key: &Option<KeyPrefix>,
        reader: &mut EpochReader<'_, R>,
        stream: &OperatorStream,
    ) -> Result<Answered, Fault> {
        if !self.state.begin_delivery(&self.rt) {
            return self.tell_closed(stream);
        }
        let told = match self.node_to_store(Some(number)) {
            Some(node) => self.deliver_at(node, user, count, key, reader, stream),
            None => tell(stream, b"down\n"),
        };
        self.state.end_delivery(&self.rt);
        told
    }

    /// The same at a node, once there is room for the file.
    fn deliver_at(
        &self,
        node: &N,
        user: Name,
        count: u64,
        key: &Option<KeyPrefix>,
        reader: &mut EpochReader<'_, R>,
        stream: &OperatorStream,
    ) -> Result<Answered, Fault> {
        if let Err(why) = self.take_room(node, count, stream) {
            return self.tell_no_room(why, stream);
        }
        let told = self.deliver_file(node, user, count, key, reader, stream);
        self.limits.budget.give(&self.rt, count);
        told
    }

    fn deliver_file(
        &self,
        node: &N,
        user: Name,
        count: u64,
        key: &Option<KeyPrefix>,
        reader: &mut EpochReader<'_, R>,
        stream: &OperatorStream,
    ) -> Result<Answered, Fault> {
        if reader.begin_file().is_err() {
            return Err(Fault::Read);
        }
        let texts = match texts_in(self.alloc, reader, count) {
            Ok(texts) => texts,
            Err(error) => return self.tell_cut(error, stream),
        };
        let mut delivered = Delivered::new();
        let delivery = self.delivery(node, user, stream);
        let told = delivery.deliver_all(texts, key, &mut delivered);
        self.note(node, &user, count, &delivered);
        told?;
        Ok(Answered::Told)
    }

    /// Reports that a message is larger than any that is taken, if the user has an account.
    fn tell_too_large(
        &self,
        number: &Option<NodeId>,
        user: &Name,
        stream: &OperatorStream,
    ) -> Result<Answered, Fault> {
        let Some(node) = self.node_to_store(*number) else {
            return self.tell_closed(stream);
        };
        if !self.state.accounts().has(user) {
            return self.tell_no_user(stream);
        }
        let answer = too_large_answer(self.alloc, user, node.me())?;
        tell(stream, answer.as_slice())
    }

    /// Reports that there is no account of this name. If the accounts file couldn't be read last time nobody knows that, and the
    /// message may be sent again.
    fn tell_no_user(&self, stream: &OperatorStream) -> Result<Answered, Fault> {
        if !self.state.life().rolls().has_read_accounts(&self.rt) {
            return tell(stream, b"down\n");
        }
        tell(stream, b"no such user\n")
    }

    /// Has the message that follows delivered, and reports its outcome.
    fn put_message(
        &self,
        number: &Option<NodeId>,
        user: Name,
        count: u64,
        key: &Option<Key>,
        reader: &mut EpochReader<'_, R>,
        stream: &OperatorStream,
    ) -> Result<Answered, Fault> {
        if !self.state.begin_delivery(&self.rt) {
            return self.tell_closed(stream);
        }
        let told = match self.node_to_store(*number) {
            Some(_) if !self.state.accounts().has(&user) => self.tell_no_user(stream),
            Some(node) => self.put_at(node, user, count, key, reader, stream),
            None => tell(stream, b"down\n"),
        };
        self.state.end_delivery(&self.rt);
        told
    }

    /// The same at a node, once there is room for the message.
    fn put_at(
        &self,
        node: &N,
        user: Name,
        count: u64,
        key: &Option<Key>,
        reader: &mut EpochReader<'_, R>,
        stream: &OperatorStream,
    ) -> Result<Answered, Fault> {
        if let Err(why) = self.take_room(node, count, stream) {
            return self.tell_no_room(why, stream);
        }
        let told = self.put_file(node, user, count, key, reader, stream);
        self.limits.budget.give(&self.rt, count);
        told
    }

    fn put_file(
        &self,
        node: &N,
        user: Name,
        count: u64,
        key: &Option<Key>,
        reader: &mut EpochReader<'_, R>,
        stream: &OperatorStream,
    ) -> Result<Answered, Fault> {
        if reader.begin_file().is_err() {
            return Err(Fault::Read);
        }
        let text = match message_in(self.alloc, reader, count) {
            Ok(text) => text,
            Err(error) => return self.tell_cut(error, stream),
        };
        let mut delivered = Delivered::new();
        let delivery = self.delivery(node, user, stream);
        let told = delivery.deliver_one(text, *key, &mut delivered);
        self.note(node, &user, count, &delivered);
        told?;
        Ok(Answered::Told)
    }

    /// Reports why nothing of a file is delivered. One that is cut short as the epoch ends may be sent again.
    fn tell_cut(&self, error: DeliveryError, stream: &OperatorStream) -> Result<Answered, Fault> {
        match error {
            DeliveryError::Short if self.state.stages().has_ended(&self.rt) => {
                tell(stream, b"down\n")
            }
            error => {
                error.tell(stream)?;
                Ok(Answered::Told)
            }
        }
    }

    /// A delivery to a user at a node, for the client of a connection.
    fn delivery<'a>(
        &self,
        node: &'a N,
        user: Name,
        stream: &'a OperatorStream,
    ) -> Delivery<'a, R, N> {
        Delivery {
            rt: self.rt,
            alloc: self.alloc,
            node,
            stream,
            user,
        }
    }

    /// Notes what has become of a delivery of so many bytes.
    fn note(&self, node: &N, user: &Name, count: u64, delivered: &Delivered) {
        let Delivered {
            stored,
            octets,
            refused,
        } = *delivered;
        let life = self.state.life();
        life.counters().stored(&self.rt, stored, octets);
        // The text of a refused message is kept too.
        life.rolls()
            .store(&self.rt, stored.saturating_add(refused), count);
        life.log()
            .delivery(&self.rt, node.me(), user, stored, refused);
    }

    /// Has a user's lock broken, and reports the outcome.
    fn break_lock(
        &self,
        number: NodeId,
        user: Name,
        stream: &OperatorStream,
    ) -> Result<Answered, Fault> {
        let Some(node) = node_up(&self.nodes, Some(number)) else {
            return self.tell_unbroken(&user, stream);
        };
        match ask(&self.rt, node, stream, user, OperatorOp::Break) {
            Ok((_, Outcome::Done)) => tell(stream, b"done\n"),
            Ok(_) => tell(stream, b"no such user\n"),
            Err(Unanswered::Stopped) => self.tell_unbroken(&user, stream),
            Err(Unanswered::Gone) => Err(Fault::Write),
        }
    }

    /// Reports that a node that is down breaks no lock. If it is down as its epoch has ended, so has the lock.
    fn tell_unbroken(&self, user: &Name, stream: &OperatorStream) -> Result<Answered, Fault> {
        if !self.state.stages().has_ended(&self.rt) || !self.state.is_followed(&self.rt) {
            return tell(stream, b"down\n");
        }
        if self.state.accounts().has(user) {
            return tell(stream, b"done\n");
        }
        tell(stream, b"no such user\n")
    }
}

/// An answer goes out at once, and may be left unread for no more than so many milliseconds.
fn prepare(stream: &OperatorStream, pause_ms: u64) {
    stream.set_nodelay();
    stream.set_write_timeout(Duration::from_millis(pause_ms));
}

impl<R: Wait + Clock + Copy, N: ServedNode + Drop> Handler<OperatorConnection>
    for OperatorHandler<R, N> {
    fn serve(&mut self, connection: &Arc<OperatorConnection>, _peer: SocketAddr) -> ServeEnd {
        prepare(connection.stream(), LONGEST_PAUSE_MS);
        if self.limits.places.take(&self.rt) {
            return self.serve_in_place(connection);
        }
        self.serve_without_place(connection, true);
        ServeEnd::Closed
    }

    fn turn_away(&self, connection: &OperatorConnection) {
        let _untold = tell(connection.stream(), b"down\n");
    }

    fn serve_briefly(&mut self, connection: &OperatorConnection, _peer: SocketAddr) {
        prepare(connection.stream(), BRIEF_LINE_MS);
        self.serve_without_place(connection, false);
    }

    fn share(&self) -> Result<Self, Memory> {
        let nodes = Arc::try_clone(&self.nodes)?;
        let state = Arc::try_clone(&self.state)?;
        let limits = Arc::try_clone(&self.limits)?;
        Ok(OperatorHandler {
            rt: self.rt,
            alloc: self.alloc,
            nodes,
            state,
            limits,
            most_file: self.most_file,
            answer: Vec::with_capacity(self.alloc, ANSWER_ROOM)?,
        })
    }

    fn is_open(&self) -> bool {
        true
    }

    fn is_cut_at_the_end(&self) -> bool {
        true
    }
}
