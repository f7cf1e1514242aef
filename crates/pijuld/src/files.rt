//! What the program reads and writes: standard streams, files and sockets.
ghost use Rattle.std.specs.Prelude.{◌≡◌, IfOk};
ghost use Rattle.pj_file_disk.specs.declared.file_disk.FileDisk.{FileDisk};

use crate::connection::Connection;
use crate::listener::{Listener, Listening};
use pj_file_disk::{FileDisk, FileRefusal, open_file_disk};
use std::fs::File;
use std::io;
use std::io::{ErrorKind, Read, Stdin, Stdout, Write};

/// Standard input, a file, or a socket.
#[derive(Drop)]
pub enum Input {
    Standard(Stdin),
    File(File),
    Socket(Connection),
    /// A socket that was closed.
    Closed,
}

impl Input {
    /// Closes a socket. A stream or a file stays open.
    pub fn close(&mut self) {
        if let Input::Socket(_) = self {
            *self = Input::Closed;
        }
    }
}

impl Read for Input {
    fn read(&mut self, buffer: &mut [u8]) -> io::Result<usize> {
        match self {
            Input::Standard(stdin) => stdin.read(buffer),
            Input::File(file) => file.read(buffer),
            Input::Socket(connection) => connection.read(buffer),
            Input::Closed => Ok(0),
        }
    }
}

/// Standard output, a file, or a socket. Each call of `write` is one call of the system.
#[derive(Drop)]
pub enum Output {
    Standard(Stdout),
    File(File),
    Socket(Connection),
    /// A socket that was closed.
    Closed,
}

impl Output {
    /// Ends a socket and closes it. A stream or a file stays open.
    pub fn close(&mut self) {
        if let Output::Socket(connection) = self {
            connection.end();
            *self = Output::Closed;
        }
    }
}

impl Write for Output {
    fn write(&mut self, bytes: &[u8]) -> io::Result<usize> {
        match self {
            Output::Standard(stdout) => stdout.write(bytes),
            Output::File(file) => file.write(bytes),
            Output::Socket(connection) => connection.write(bytes),
            Output::Closed => Err(io::Error::from(ErrorKind::NotConnected)),
        }
    }

    fn flush(&mut self) -> io::Result<()> {
        Ok(())
    }
}

/// Opens files and sockets, but none in the place of a standard stream that was closed at the start.
#[derive(Drop)]
pub struct Files {
    shield: Option<Shield>,
}

/// What stands in the places of closed standard streams, which get the lowest numbers: a folder, which can be neither read nor
/// written.
#[derive(Drop)]
struct Shield {
    _first: File,
    _second: File,
    _third: File,
}

impl Shield {
    fn raise(rt: &HostRuntime) -> io::Result<Shield> {
        Ok(Shield {
            _first: File::open(rt, "/")?,
            _second: File::open(rt, "/")?,
            _third: File::open(rt, "/")?,
        })
    }
}

impl Files {
    /// No file is open yet.
    pub fn new() -> Files {
        Files { shield: None }
    }

    /// Opens a file to be read.
    pub fn read(&mut self, rt: &HostRuntime, path: &str) -> io::Result<Input> {
        self.raise(rt)?;
        Ok(Input::File(File::open(rt, path)?))
    }

    /// Makes a file to be written, or cuts the one that is there to no bytes.
    pub fn write(&mut self, rt: &HostRuntime, path: &str) -> io::Result<Output> {
        self.raise(rt)?;
        Ok(Output::File(File::create(rt, path)?))
    }

    /// Opens a file to be a disk, or makes one.
    pub fn store(&mut self, rt: &HostRuntime, path: &str) -> Result<FileDisk, FileRefusal>
        ensures { IfOk result (λ disk. disk.faults ≡ 0) }
    {
        match self.raise(rt) {
            Ok(()) => open_file_disk(rt, path),
            Err(_) => Err(FileRefusal::Failed),
        }
    }

    /// Listens at an address. The file of a socket gets this mode.
    pub fn listen(&mut self, rt: &HostRuntime, address: &str, mode: u32) -> io::Result<Listening> {
        self.raise(rt)?;
        Listener::open(rt, address, mode)
    }

    // Before the first file or socket is opened.
    fn raise(&mut self, rt: &HostRuntime) -> io::Result<()> {
        if self.shield.is_none() {
            self.shield = Some(Shield::raise(rt)?);
        }
        Ok(())
    }
}
