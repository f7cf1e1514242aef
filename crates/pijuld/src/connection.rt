//! A connection to a client, over TCP or over a socket of this machine.
use std::io;
use std::io::{Read, Write};
use std::net::{Shutdown, TcpStream};
use std::os::unix::net::UnixStream;
use std::time::Duration;

/// The most pieces that are taken of a connection, and let go, before it is closed.
const LAST_PIECES: usize = 64;

/// A connection over TCP, or over a socket of this machine.
#[derive(Drop)]
pub enum Connection {
    Tcp(TcpStream),
    Unix(UnixStream),
}

impl Connection {
    /// Another handle of the same connection, which shares its limit.
    pub fn try_clone(&self) -> io::Result<Connection> {
        match self {
            Connection::Tcp(stream) => Ok(Connection::Tcp(stream.try_clone()?)),
            Connection::Unix(stream) => Ok(Connection::Unix(stream.try_clone()?)),
        }
    }

    /// From now on a read for which no byte comes in this time fails, and so does a write of which none is taken. `None` is no
    /// limit.
    pub fn set_limit(&self, idle: Option<Duration>) -> io::Result<()> {
        match self {
            Connection::Tcp(stream) => {
                stream.set_read_timeout(idle)?;
                stream.set_write_timeout(idle)
            }
            Connection::Unix(stream) => {
                stream.set_read_timeout(idle)?;
                stream.set_write_timeout(idle)
            }
        }
    }

    /// Tells the peer that no more comes, and lets go what has come from it: the system forgets replies that are on their way
    /// where a connection is closed while bytes wait in it.
    pub fn end(&mut self) {
        if self.finish().is_err() {
            return;
        }
        let mut piece = [0; 4_096];
        for _ in 0..LAST_PIECES {
            match self.read(&mut piece) {
                Ok(0) | Err(_) => return,
                Ok(_) => {}
            }
        }
    }

    // No more is written, and no further read waits.
    fn finish(&self) -> io::Result<()> {
        match self {
            Connection::Tcp(stream) => {
                stream.shutdown(Shutdown::Write)?;
                stream.set_nonblocking(true)
            }
            Connection::Unix(stream) => {
                stream.shutdown(Shutdown::Write)?;
                stream.set_nonblocking(true)
            }
        }
    }
}

impl Read for Connection {
    fn read(&mut self, buffer: &mut [u8]) -> io::Result<usize> {
        match self {
            Connection::Tcp(stream) => stream.read(buffer),
            Connection::Unix(stream) => stream.read(buffer),
        }
    }
}

impl Write for Connection {
    fn write(&mut self, bytes: &[u8]) -> io::Result<usize> {
        match self {
            Connection::Tcp(stream) => stream.write(bytes),
            Connection::Unix(stream) => stream.write(bytes),
        }
    }

    fn flush(&mut self) -> io::Result<()> {
        Ok(())
    }
}
