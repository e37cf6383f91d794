//! Hears the requests of operators.
ghost use Rattle.std.specs.Prelude.{◌≤◌, IfOk};
ghost use Rattle.std.specs.Io.{ReadsAtMost};
ghost use Rattle.script.specs.Requests.{longest_request};

use crate::state::ServiceState;
use ballot::Memory;
use ports::{OperatorConnection, OperatorReader};
use script::{LONGEST_REQUEST, Request, parse_request};
use std::alloc::Global;
use std::io;
use std::io::{ErrorKind, Read};
use std::sync::{Arc, Wait};
use std::time::Clock;

/// Why no request is heard.
#[derive(Clone, Copy, Debug, PartialEq, Eq)]
pub(crate) enum Unheard {
    /// There is none, or its line isn't whole in time.
    Malformed,
    /// The epoch has ended before its line was whole.
    Unfinished,
}

/// Reads what an operator sends: a file until the epoch has ended, and a line until the next one is there and nothing comes.
#[derive(Drop)]
pub(crate) struct EpochReader<'a, R> {
    rt: R,
    reader: OperatorReader<'a, R>,
    state: Arc<ServiceState>,
    has_file_begun: bool,
}

impl<'a, R: Clock + Wait + Copy> EpochReader<'a, R> {
    /// Awaits the line of a request, which is whole within so many milliseconds.
    pub(crate) fn new(
        rt: R,
        connection: &'a OperatorConnection,
        state: &Arc<ServiceState>,
        most_ms: u64,
    ) -> io::Result<Self> {
        let Ok(state) = Arc::try_clone(state) else {
            return Err(io::Error::from(ErrorKind::OutOfMemory));
        };
        Ok(EpochReader {
            rt,
            reader: OperatorReader::new(rt, connection, most_ms)?,
            state,
            has_file_begun: false,
        })
    }

    /// A file begins after the line.
    pub(crate) fn begin_file(&mut self) -> io::Result<()> {
        self.has_file_begun = true;
        self.reader.begin_file()
    }

    /// Puts all back that was read. No file may have begun.
    pub(crate) fn put_back(&self, alloc: Global) -> Result<(), Memory> {
        self.reader.put_back(alloc)
    }

    /// Whether what comes from now on isn't read here.
    fn is_over(&self) -> bool {
        let state = &self.state;
        state.stages().has_ended(&self.rt)
            && (self.has_file_begun
                || !state.is_followed(&self.rt)
                || state.life().rolls().follows(&self.rt, state.epoch()))
    }
}

impl<R: Clock + Wait + Copy> Read for EpochReader<'_, R> {
    fn read(&mut self, buf: &mut [u8]) -> io::Result<usize> {
        for _ in 0..u64::MAX {
            // A file may come without a pause for hours.
            if self.has_file_begun && self.is_over() {
                break;
            }
            match self.reader.read(buf) {
                Err(error) if error.kind() == ErrorKind::WouldBlock => {
                    if self.is_over() {
                        return Err(error);
                    }
                }
                read => return read,
            }
        }
        Err(io::Error::from(ErrorKind::WouldBlock))
    }
}

/// Reads up to the line feed into the buffer. Returns how many bytes stand before it.
fn read_line<S: Read>(reader: &mut S, line: &mut [u8; LONGEST_REQUEST]) -> Result<usize, Unheard>
    ensures { IfOk result (λ len. len ≤ longest_request) }
{
    let mut byte = [0u8];
    for len in 0..=LONGEST_REQUEST {
        match reader.read(&mut byte) {
            Ok(1) => {}
            Err(error) if error.kind() == ErrorKind::WouldBlock => {
                return Err(Unheard::Unfinished);
            }
            _ => return Err(Unheard::Malformed),
        }
        if byte[0] == b'\n' {
            return Ok(len);
        }
        let Some(place) = line.get_mut(len) else {
            return Err(Unheard::Malformed);
        };
        *place = byte[0];
    }
    Err(Unheard::Malformed)
}

/// Hears a request.
pub(crate) fn hear<S: Read>(reader: &mut S) -> Result<Request, Unheard> {
    let mut line = [0u8; LONGEST_REQUEST];
    let len = read_line(reader, &mut line)?;
    match parse_request(&line[..len]) {
        Some(request) => Ok(request),
        None => Err(Unheard::Malformed),
    }
}
