//! A handle of the system that notes what an operator's request was refused.

use crate::unread::Unread;
use std::alloc::Allocator;
use std::cell::Cell;
use std::fmt::Display;
use std::fs::{Metadata, OpenOptions};
use std::io;
use std::io::ErrorKind;
use std::net::{Net, SocketAddr, TcpListener, TcpStream};
use std::os::unix::net::UnixStream;
use std::rt::Files;

/// A handle of the system, as far as `ctl` uses it, that notes what it was refused.
#[derive(Drop)]
pub(crate) struct NotingRuntime<'a, R> {
    rt: &'a R,
    lacks_listener: Cell<bool>,
    unread: Cell<Option<Unread>>,
}

impl<'a, R> NotingRuntime<'a, R> {
    pub(crate) fn new(rt: &'a R) -> Self {
        NotingRuntime {
            rt,
            lacks_listener: Cell::new(false),
            unread: Cell::new(None),
        }
    }

    /// Whether nobody listened where it was to connect to.
    pub(crate) fn lacks_listener(&self) -> bool {
        self.lacks_listener.get()
    }

    /// Why the file that it was to open can't be read, if that is known.
    pub(crate) fn unread(&self) -> Option<Unread> {
        self.unread.get()
    }

    fn note_connection(&self, error: io::Error) -> io::Error {
        match error.kind() {
            ErrorKind::ConnectionRefused | ErrorKind::NotFound => self.lacks_listener.set(true),
            _ => {}
        }
        error
    }

    fn note_file(&self, error: io::Error) -> io::Error {
        self.unread.set(Unread::of(&error));
        error
    }
}

impl<R: Net<Listener = TcpListener, Stream = TcpStream>> Net for NotingRuntime<'_, R> {
    type Stream = TcpStream;

    type Listener = TcpListener;

    fn bind(&self, addr: SocketAddr) -> io::Result<TcpListener> {
        self.rt.bind(addr)
    }

    fn connect(&self, addr: SocketAddr) -> io::Result<TcpStream> {
        match self.rt.connect(addr) {
            Ok(stream) => Ok(stream),
            Err(error) => Err(self.note_connection(error)),
        }
    }

    fn connect_unix(&self, addr: &std::os::unix::net::SocketAddr) -> io::Result<UnixStream> {
        match self.rt.connect_unix(addr) {
            Ok(stream) => Ok(stream),
            Err(error) => Err(self.note_connection(error)),
        }
    }
}

impl<R: Files> Files for NotingRuntime<'_, R> {
    type File = R::File;

    type Dir = R::Dir;

    fn open_file(&self, how: &OpenOptions, path: &str) -> io::Result<R::File> {
        match self.rt.open_file(how, path) {
            Ok(file) => Ok(file),
            Err(error) => Err(self.note_file(error)),
        }
    }

    /// A folder can be opened, but not read.
    fn metadata(&self, path: &str) -> io::Result<Metadata> {
        let found = self.rt.metadata(path)?;
        if found.is_dir() {
            self.unread.set(Some(Unread::Folder));
        }
        Ok(found)
    }

    fn open_dir(&self, path: &str) -> io::Result<R::Dir> {
        self.rt.open_dir(path)
    }

    fn symlink_metadata(&self, path: &str) -> io::Result<Metadata> {
        self.rt.symlink_metadata(path)
    }

    fn copy(&self, from: &str, to: &str) -> io::Result<u64> {
        self.rt.copy(from, to)
    }

    fn rename(&self, from: &str, to: &str) -> io::Result<()> {
        self.rt.rename(from, to)
    }

    fn remove_file(&self, path: &str) -> io::Result<()> {
        self.rt.remove_file(path)
    }

    fn create_dir(&self, path: &str) -> io::Result<()> {
        self.rt.create_dir(path)
    }

    fn remove_dir(&self, path: &str) -> io::Result<()> {
        self.rt.remove_dir(path)
    }

    fn remove_dir_all<B: Allocator>(&self, alloc: B, path: &str) -> io::Result<()> {
        self.rt.remove_dir_all(alloc, path)
    }
}

impl<R: Eprint> Eprint for NotingRuntime<'_, R> {
    fn eprint<D: Display + Drop>(&self, value: D) -> io::Result<()> {
        self.rt.eprint(value)
    }

    fn eprintln<D: Display + Drop>(&self, value: D) -> io::Result<()> {
        self.rt.eprintln(value)
    }
}
