//! The office of the program: standard input, standard output, files and sockets, and files on which repositories are kept.
ghost use Rattle.std.specs.Prelude.{◌≡◌, false, map, All, IfOk};

use crate::adapters::{StreamSink, StreamSource};
use crate::files::{Files, Input, Output};
use crate::socket_file::SocketFile;
use crate::sockets::{SocketDoor, socket_doors};
use pj_bureau::Bureau;
use pj_file_disk::FileDisk;
use pj_io::{DoorRefusal, Office};
use pj_words::request_in;
use std::io::ErrorKind;
use std::time::Duration;

/// Standard input, standard output, the files under paths, and the sockets at addresses.
#[derive(Drop)]
pub struct Streams<'a> {
    rt: &'a HostRuntime,
    words: &'a [String],
    files: Files,
    socket: Option<SocketFile>,
    read_faults: u64,
    write_faults: u64,
    store_faults: u64,
}

impl<'a> Streams<'a> {
    /// The streams and files of the process. Of the words of `serve`, which begin with that word, it takes what concerns sockets
    /// alone.
    pub fn new(rt: &'a HostRuntime, words: &'a [String]) -> Self {
        Streams {
            rt,
            words,
            files: Files::new(),
            socket: None,
            read_faults: 0,
            write_faults: 0,
            store_faults: 0,
        }
    }

    /// Removes the file of the socket at which it listened.
    pub fn close(&self) {
        if let Some(socket) = &self.socket {
            socket.remove(self.rt);
        }
    }

    /// Listens at an address, says so, and makes a door for each share.
    fn listen(&mut self, address: &str, shares: &[u32]) -> Result<Vec<SocketDoor>, DoorRefusal>
        ensures lefts { IfOk result (λ doors. map (λ door. door.left) doors.items ≡ shares.now) }
        ensures new { IfOk result (λ doors. All (λ door. (door.given ≡ 0) × (door.faults ≡ 0)) doors.items) }
        ensures read_faults { self.new.read_faults ≡ self.old.read_faults }
        ensures write_faults { self.new.write_faults ≡ self.old.write_faults }
    {
        let (idle, mode) = match request_in(self.rt.alloc(), self.words) {
            Ok(Some(request)) => (request.idle, request.mode),
            Ok(None) => return Err(DoorRefusal::Failed),
            Err(_) => return Err(DoorRefusal::Memory),
        };
        let listening = match self.files.listen(self.rt, address, mode) {
            Ok(listening) => listening,
            Err(e) if e.kind() == ErrorKind::OutOfMemory => return Err(DoorRefusal::Memory),
            Err(_) => return Err(DoorRefusal::Failed),
        };
        self.socket = listening.file;
        let listener = listening.listener;
        let doors = socket_doors(self.rt.alloc(), &listener, limit_of(idle), shares)?;
        listener.tell(self.rt, address);
        Ok(doors)
    }
}

/// The time of so many seconds. 0 is no limit.
fn limit_of(idle: u32) -> Option<Duration> {
    if idle == 0 {
        None
    } else {
        Some(Duration::from_secs(u64::from(idle)))
    }
}

impl<'a> Office for Streams<'a> {
    ghost use Rattle.std.specs.Prelude.{false, []};
    ghost use Rattle.pijuld.specs.Untold.{untold};

    type Src = StreamSource;

    type Dst = StreamSink;

    type Way = SocketDoor;

    ghost meaning = { record {
      tells = λ _. false;
      contents = λ _. record { input = []; script = λ _. []; sessions = λ _ _. [] };
      read_faults = λ streams. streams.read_faults;
      write_faults = λ streams. streams.write_faults;
    } };

    ghost as_many = { λ _ told. untold told };

    fn input(&mut self) -> Result<Self::Src, DoorRefusal> {
        Ok(StreamSource::new(Input::Standard(self.rt.stdin())))
    }

    fn output(&mut self) -> Result<Self::Dst, DoorRefusal> {
        Ok(StreamSink::new(Output::Standard(self.rt.stdout())))
    }

    fn script(&mut self, path: &str) -> Result<Self::Src, DoorRefusal> {
        match self.files.read(self.rt, path) {
            Ok(file) => Ok(StreamSource::new(file)),
            Err(_) => {
                self.read_faults = self.read_faults.saturating_add(1);
                Err(DoorRefusal::Failed)
            }
        }
    }

    fn replies(&mut self, path: &str) -> Result<Self::Dst, DoorRefusal> {
        match self.files.write(self.rt, path) {
            Ok(file) => Ok(StreamSink::new(file)),
            Err(_) => {
                self.write_faults = self.write_faults.saturating_add(1);
                Err(DoorRefusal::Failed)
            }
        }
    }

    fn doors(&mut self, address: &str, shares: &[u32]) -> Result<Vec<Self::Way>, DoorRefusal> {
        match self.listen(address, shares) {
            Ok(doors) => Ok(doors),
            Err(DoorRefusal::Memory) => Err(DoorRefusal::Memory),
            Err(DoorRefusal::Failed) => {
                self.read_faults = self.read_faults.saturating_add(1);
                Err(DoorRefusal::Failed)
            }
        }
    }

    fn read_faults(&self) -> u64 {
        self.read_faults
    }

    fn write_faults(&self) -> u64 {
        self.write_faults
    }
}

impl<'a> Bureau for Streams<'a> {
    ghost use Rattle.std.specs.Prelude.{[]};

    type Store = FileDisk;

    ghost bureaus = { record { stores = λ _ _. []; faults = λ streams. streams.store_faults } };

    fn store(&mut self, path: &str) -> Result<FileDisk, DoorRefusal> {
        match self.files.store(self.rt, path) {
            Ok(disk) => Ok(disk),
            Err(_) => {
                self.store_faults = self.store_faults.saturating_add(1);
                Err(DoorRefusal::Failed)
            }
        }
    }

    fn store_faults(&self) -> u64 {
        self.store_faults
    }
}
