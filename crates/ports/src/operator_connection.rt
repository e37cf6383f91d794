//! A connection of an operator to a service.

use crate::connection::Connection;
use crate::operator_limits::PIECE;
use crate::operator_stream::OperatorStream;
use ballot::Memory;
use std::alloc::Global;
use std::net::Shutdown;
use std::sync::{Mutex, Wait};

/// A connection of an operator to a service, and what was read of a request that others are to serve.
#[derive(Drop)]
pub struct OperatorConnection {
    stream: OperatorStream,
    /// All that was read, if it was put back: at most a piece.
    read: Mutex<Option<Vec<u8>>>,
}

impl OperatorConnection {
    /// Of which nothing was read. Takes no memory.
    pub(crate) fn new(stream: OperatorStream) -> Self {
        OperatorConnection {
            stream,
            read: Mutex::new(None),
        }
    }

    /// What the peer sends and hears.
    pub fn stream(&self) -> &OperatorStream {
        &self.stream
    }

    /// Puts back what was read.
    pub(crate) fn put_back<R: Wait>(
        &self,
        rt: &R,
        alloc: Global,
        read: &[u8],
    ) -> Result<(), Memory> {
        let bytes = Vec::from_slice(alloc, read)?;
        *self.read.lock(rt) = Some(bytes);
        Ok(())
    }

    /// Takes what was put back, to the begin of this piece. Returns how many bytes that is.
    pub(crate) fn take_read<R: Wait>(&self, rt: &R, piece: &mut [u8; PIECE]) -> usize {
        let Some(bytes) = self.read.lock(rt).take() else {
            return 0;
        };
        match piece.get_mut(..bytes.len()) {
            Some(room) => {
                room.copy_from_slice(bytes.as_slice());
                bytes.len()
            }
            None => 0,
        }
    }
}

impl Connection for OperatorConnection {
    fn shut(&self, how: Shutdown) {
        self.stream.shut(how);
    }
}
