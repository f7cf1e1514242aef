//! The file of a socket of this machine. Who may write it may connect.
//!
//! Beside the file PATH lies PATH.lock, which is locked as long as a server listens there: so of two servers one is refused, and
//! the first is not asked by a connection, which would count as one of its sessions. A socket that a killed server left is replaced.
use libc::net::listen;
use std::fs::{File, Files, Permissions, remove_file, set_permissions, symlink_metadata};
use std::io;
use std::io::ErrorKind;
use std::net::Net;
use std::os::fd::{AsFd, AsRawFd, OwnedFd};
use std::os::unix::fs::{FileTypeExt, MetadataExt, OpenOptionsExt, PermissionsExt};
use std::os::unix::net::{SocketAddr, UnixListener, UnixStream};

/// The connections that may wait until a worker takes them.
const BACKLOG: i32 = 128;

/// The mode of the file that is locked.
const LOCK_MODE: u32 = 0o600;

/// The file of a socket, and the one that is locked as long as this value lives.
#[derive(Drop)]
pub struct SocketFile {
    path: String,
    lock_path: String,
    _lock: File,
}

impl SocketFile {
    /// Takes the lock of a path.
    fn reserve(rt: &HostRuntime, path: &str) -> io::Result<SocketFile> {
        let lock_path = format!(in rt.alloc(); "{path}.lock")?;
        let path = format!(in rt.alloc(); "{path}")?;
        let lock = File::options()
            .write(true)
            .create(true)
            .mode(LOCK_MODE)
            .open(rt, lock_path.as_str())?;
        lock.try_lock()?;
        // Who held the lock before may have removed the file since it was opened here.
        let standing = symlink_metadata(rt, lock_path.as_str())?;
        if standing.ino() != lock.metadata()?.ino() {
            return Err(io::Error::from(ErrorKind::AddrInUse));
        }
        Ok(SocketFile {
            path,
            lock_path,
            _lock: lock,
        })
    }

    /// Removes both files, the locked one last. Where one cannot be removed it stays.
    pub fn remove(&self, rt: &HostRuntime) {
        let _ = remove_file(rt, self.path.as_str());
        self.release(rt);
    }

    // Removes the file that is locked.
    fn release(&self, rt: &HostRuntime) {
        let _ = remove_file(rt, self.lock_path.as_str());
    }
}

/// Removes a socket at which nobody listens. Any other file stays, and is an error.
fn clear(rt: &HostRuntime, path: &str) -> io::Result<()> {
    let found = match symlink_metadata(rt, path) {
        Ok(found) => found,
        Err(e) if e.kind() == ErrorKind::NotFound => return Ok(()),
        Err(e) => return Err(e),
    };
    if !found.file_type().is_socket() {
        return Err(io::Error::from(ErrorKind::AlreadyExists));
    }
    match UnixStream::connect(rt, path) {
        Err(e) if e.kind() == ErrorKind::ConnectionRefused => remove_file(rt, path),
        Err(e) => Err(e),
        Ok(_) => Err(io::Error::from(ErrorKind::AddrInUse)),
    }
}

/// Makes a socket at a path, at which nobody listens.
fn bound(rt: &HostRuntime, path: &str, address: &SocketAddr) -> io::Result<OwnedFd> {
    clear(rt, path)?;
    let socket = rt.unix_socket()?;
    rt.bind_unix(socket.as_fd(), address)?;
    Ok(socket)
}

/// Gives the file of a bound socket its mode, and listens only then: nobody connects before.
fn open_to(rt: &HostRuntime, path: &str, mode: u32, socket: &OwnedFd) -> io::Result<()> {
    set_permissions(rt, path, Permissions::from_mode(mode))?;
    if listen(socket.as_raw_fd(), BACKLOG) < 0 {
        return Err(io::Error::from(ErrorKind::Other));
    }
    Ok(())
}

/// Makes a socket at a path, with this mode, and listens there.
pub fn listen_at_path(
    rt: &HostRuntime,
    path: &str,
    mode: u32,
) -> io::Result<(UnixListener, SocketFile)> {
    // For no path the system would choose a name that no file has.
    if path.is_empty() {
        return Err(io::Error::from(ErrorKind::InvalidInput));
    }
    let address = SocketAddr::from_pathname(path)?;
    let file = SocketFile::reserve(rt, path)?;
    let socket = match bound(rt, path, &address) {
        Ok(socket) => socket,
        Err(e) => {
            file.release(rt);
            return Err(e);
        }
    };
    if let Err(e) = open_to(rt, path, mode, &socket) {
        file.remove(rt);
        return Err(e);
    }
    Ok((UnixListener::from(socket), file))
}
