//! The Unix socket that takes operators' requests.
ghost use Rattle.std.specs.Prelude.{◌≡◌, IfErr};

use crate::connection::let_wait;
use crate::fault::Fault;
use std::fs::Permissions;
use std::io::ErrorKind;
use std::net::Net;
use std::os::fd::AsFd;
use std::os::unix::fs::{FileTypeExt, MetadataExt, PermissionsExt};
use std::os::unix::net::{SocketAddr, UnixListener, UnixStream};
use std::rt::Files;
use std::{fs, io};

/// Only the owner reads and writes.
const OWNER_ONLY: u32 = 0o600;

/// Which file a path names.
#[derive(Clone, Copy, PartialEq, Eq)]
struct FileId {
    device: u64,
    inode: u64,
}

/// A Unix socket at which operators are heard.
#[derive(Drop)]
pub struct OperatorSocket {
    listener: UnixListener,
    /// The file that this process made at the socket's path.
    file: FileId,
}

impl OperatorSocket {
    /// Listens at a socket of this path, which only its owner may use. A socket that lies there and at which nobody listens
    /// is removed first.
    pub(crate) fn open<R: Net + Files>(rt: &R, path: &str) -> Result<Self, Fault>
        ensures { IfErr result (λ fault. fault ≡ Fault.ListenSocket) }
    {
        if is_left(rt, path) {
            remove(rt, path);
        }
        match bind_at(rt, path) {
            Ok(socket) => Ok(socket),
            Err(_) => Err(Fault::ListenSocket),
        }
    }

    /// Where connections are taken.
    pub(crate) fn listener(&self) -> &UnixListener {
        &self.listener
    }

    /// Removes the socket's file from its path, unless another process has made its own there meanwhile.
    pub(crate) fn remove_file<R: Files>(&self, rt: &R, path: &str) {
        if let Ok(there) = file_at(rt, path) {
            if there == self.file {
                remove(rt, path);
            }
        }
    }
}

/// The file that a path names.
fn file_at<R: Files>(rt: &R, path: &str) -> io::Result<FileId> {
    let metadata = fs::symlink_metadata(rt, path)?;
    Ok(FileId {
        device: metadata.dev(),
        inode: metadata.ino(),
    })
}

/// Removes the file of this path.
fn remove<R: Files>(rt: &R, path: &str) {
    let _is_gone = fs::remove_file(rt, path);
}

/// Whether a socket lies at this path at which nobody listens.
fn is_left<R: Net + Files>(rt: &R, path: &str) -> bool {
    let is_socket = match fs::symlink_metadata(rt, path) {
        Ok(metadata) => metadata.file_type().is_socket(),
        Err(_) => false,
    };
    is_socket
        && match UnixStream::connect(rt, path) {
            Ok(_) => false,
            Err(error) => error.kind() == ErrorKind::ConnectionRefused,
        }
}

/// Makes the socket. It listens only once nobody else may use it.
fn bind_at<R: Net + Files>(rt: &R, path: &str) -> io::Result<OperatorSocket> {
    let address = SocketAddr::from_pathname(path)?;
    let socket = rt.unix_socket()?;
    rt.bind_unix(socket.as_fd(), &address)?;
    if let Err(error) = fs::set_permissions(rt, path, Permissions::from_mode(OWNER_ONLY)) {
        remove(rt, path);
        return Err(error);
    }
    let file = match file_at(rt, path) {
        Ok(file) => file,
        Err(error) => {
            remove(rt, path);
            return Err(error);
        }
    };
    let listener = UnixListener::from(socket);
    let_wait(&listener);
    Ok(OperatorSocket { listener, file })
}
