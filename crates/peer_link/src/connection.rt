//! The connection to one port.
ghost use Rattle.std.specs.Prelude.{◌≡◌, ◌≤◌, ◌^◌, []};
ghost use Rattle.std.specs.Vec.{vec_capacity};

use crate::frames::add_frames;
use ballot::Envelope;
use maildrop::SharedCommand;
use std::alloc::Global;
use std::io::Write;
use std::net::{Ipv4Addr, Net, SocketAddr, TcpListener, TcpStream};
use std::time::{Clock, Duration, Instant};
use std::{io, mem};

/// How many milliseconds a connect or a write may take. A node that takes no connection, or reads nothing, doesn't hold up
/// the others for longer.
const LONGEST_WAIT_MS: u64 = 100;

/// For how many milliseconds nothing is tried after a connect or a write that took too long.
const PAUSE_MS: u64 = 1_000;

/// The most bytes of memory that are kept for the next frames.
const MOST_KEPT: usize = 1 << 20;

/// The connection to one port, if there is one.
#[derive(Drop)]
pub(crate) struct Connection {
    stream: Option<TcpStream>,
    /// When the last connect or write was given up, if it took too long.
    gave_up: Option<Instant>,
    /// Memory for the next frames.
    buffer: Vec<u8>,
    ghost is_empty: { buffer.items ≡ [] },
    ghost is_small: { vec_capacity buffer ≤ 2 ^ 20 },
}

impl Connection {
    /// No connection. Takes no memory.
    pub(crate) fn new(alloc: Global) -> Self {
        Connection {
            stream: None,
            gave_up: None,
            buffer: Vec::new(alloc),
        }
    }

    /// Sends the frames of envelopes by one write. Connects first if there is no connection. If that fails, the envelopes
    /// are lost. After a write that fails there is no connection.
    pub(crate) fn send<R: Net<Listener = TcpListener, Stream = TcpStream> + Clock>(
        &mut self,
        rt: &R,
        port: u16,
        envelopes: &[Envelope<SharedCommand>],
    ) {
        if self.stream.is_none() && !self.pauses(rt) {
            self.connect(rt, port);
        }
        let Some(stream) = &self.stream else {
            return;
        };
        let alloc = *self.buffer.allocator();
        let mut frames = mem::replace(&mut self.buffer, Vec::new(alloc));
        add_frames(&mut frames, envelopes);
        let mut writer = stream;
        if let Err(error) = writer.write_all(&frames) {
            self.stream = None;
            self.note(rt, error.kind());
        }
        self.keep(frames);
    }

    /// Notes when a connect or a write took too long. The system reports such a write as one that would block.
    fn note<R: Clock>(&mut self, rt: &R, kind: io::ErrorKind) {
        if kind == io::ErrorKind::TimedOut || kind == io::ErrorKind::WouldBlock {
            self.gave_up = Instant::now(rt).ok();
        }
    }

    /// Whether a connect or a write took too long, and not long ago.
    fn pauses<R: Clock>(&self, rt: &R) -> bool {
        match self.gave_up {
            Some(time) => match time.elapsed(rt) {
                Ok(passed) => passed < Duration::from_millis(PAUSE_MS),
                Err(_) => false,
            },
            None => false,
        }
    }

    fn connect<R: Net<Listener = TcpListener, Stream = TcpStream> + Clock>(
        &mut self,
        rt: &R,
        port: u16,
    ) {
        match connected(rt, port) {
            Ok(stream) => self.stream = Some(stream),
            Err(error) => self.note(rt, error.kind()),
        }
    }

    /// Keeps the memory of frames for the next ones, unless it is too much.
    fn keep(&mut self, mut frames: Vec<u8>) {
        if frames.capacity() <= MOST_KEPT {
            frames.clear();
            self.buffer = frames;
        }
    }
}

/// A connection to a port of this machine. If nobody listens there, the system may connect the port to itself. This counts
/// as refused.
fn connected<R: Net<Listener = TcpListener, Stream = TcpStream>>(
    rt: &R,
    port: u16,
) -> io::Result<TcpStream> {
    let wait = Duration::from_millis(LONGEST_WAIT_MS);
    let address = SocketAddr::from((Ipv4Addr::LOCALHOST, port));
    let stream = rt.connect_timeout(address, wait)?;
    if stream.local_addr()?.port() == port {
        return Err(io::Error::from(io::ErrorKind::ConnectionRefused));
    }
    stream.set_nodelay(true)?;
    stream.set_write_timeout(Some(wait))?;
    Ok(stream)
}
