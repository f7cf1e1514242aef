//! What listens at an address: HOST:PORT, or `unix:` and the path of a socket of this machine.
use crate::connection::Connection;
use crate::socket_file::{SocketFile, listen_at_path};
use std::io;
use std::net::TcpListener;
use std::os::unix::net::UnixListener;

/// Listens over TCP, or at a socket of this machine.
#[derive(Drop)]
pub enum Listener {
    Tcp(TcpListener),
    Unix(UnixListener),
}

/// What listens, and the file of its socket, if it has one.
#[derive(Drop)]
pub struct Listening {
    pub listener: Listener,
    pub file: Option<SocketFile>,
}

impl Listener {
    /// Listens at an address. The file of a socket gets this mode.
    pub fn open(rt: &HostRuntime, address: &str, mode: u32) -> io::Result<Listening> {
        match address.strip_prefix("unix:") {
            Some(path) => {
                let (listener, file) = listen_at_path(rt, path, mode)?;
                Ok(Listening {
                    listener: Listener::Unix(listener),
                    file: Some(file),
                })
            }
            None => Ok(Listening {
                listener: Listener::Tcp(TcpListener::bind(rt, address)?),
                file: None,
            }),
        }
    }

    /// Another handle of the same listening socket.
    pub fn try_clone(&self) -> io::Result<Listener> {
        match self {
            Listener::Tcp(listener) => Ok(Listener::Tcp(listener.try_clone()?)),
            Listener::Unix(listener) => Ok(Listener::Unix(listener.try_clone()?)),
        }
    }

    /// The next connection.
    pub fn accept(&self) -> io::Result<Connection> {
        match self {
            Listener::Tcp(listener) => {
                let (stream, _) = listener.accept()?;
                // Without it a reply may wait for the peer to acknowledge the one before.
                let _ = stream.set_nodelay(true);
                Ok(Connection::Tcp(stream))
            }
            Listener::Unix(listener) => {
                let (stream, _) = listener.accept()?;
                Ok(Connection::Unix(stream))
            }
        }
    }

    /// Says on standard error where it listens: over TCP with the port that it got. A standard error that cannot be written
    /// keeps nobody from being served.
    pub fn tell(&self, rt: &HostRuntime, address: &str) {
        let told = match self {
            Listener::Tcp(listener) => listener.local_addr().ok(),
            Listener::Unix(_) => None,
        };
        let _ = match told {
            Some(told) => eprintln!(rt; "pijuld: listening at {told}"),
            None => eprintln!(rt; "pijuld: listening at {address}"),
        };
    }
}
