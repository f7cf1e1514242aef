//! Doors at an address: one listening socket, which all of them share.
ghost use Rattle.std.specs.Prelude.{◌≡◌, map, All, IfOk};

use crate::adapters::{StreamSink, StreamSource};
use crate::connection::Connection;
use crate::files::{Input, Output};
use crate::listener::Listener;
use pj_io::{Door, DoorRefusal};
use std::alloc::Global;
use std::io;
use std::time::Duration;

/// A door at which connections arrive. It tells nothing of their bytes.
#[derive(Drop)]
pub struct SocketDoor {
    listener: Listener,
    idle: Option<Duration>,
    left: u32,
    given: u64,
    faults: u64,
}

impl SocketDoor {
    /// A door with so many sessions to give, over a handle of the listening socket. A connection that is silent for longer than this
    /// time has a fault.
    pub fn new(listener: Listener, idle: Option<Duration>, share: u32) -> Self
        ensures left { result.left ≡ share }
        ensures given { result.given ≡ 0 }
        ensures faults { result.faults ≡ 0 }
    {
        SocketDoor {
            listener,
            idle,
            left: share,
            given: 0,
            faults: 0,
        }
    }
}

/// A door for each share, each over a handle of the listening socket.
///
/// # Errors
/// `Failed` where the system gives no handle, or `Memory`.
pub fn socket_doors(
    alloc: Global,
    listener: &Listener,
    idle: Option<Duration>,
    shares: &[u32],
) -> Result<Vec<SocketDoor>, DoorRefusal>
    ensures lefts { IfOk result (λ doors. map (λ door. door.left) doors.items ≡ shares.now) }
    ensures new { IfOk result (λ doors. All (λ door. (door.given ≡ 0) × (door.faults ≡ 0)) doors.items) }
{
    let Ok(mut doors) = Vec::with_capacity(alloc, shares.len()) else {
        return Err(DoorRefusal::Memory);
    };
    for share in shares {
        match listener.try_clone() {
            Ok(handle) => doors.push_reserved(SocketDoor::new(handle, idle, *share)),
            Err(_) => return Err(DoorRefusal::Failed),
        }
    }
    Ok(doors)
}

/// The next connection, as it is read and as it is written.
fn connection(listener: &Listener, idle: Option<Duration>) -> io::Result<(Connection, Connection)> {
    let incoming = listener.accept()?;
    incoming.set_limit(idle)?;
    let outgoing = incoming.try_clone()?;
    Ok((incoming, outgoing))
}

impl Door for SocketDoor {
    ghost use Rattle.std.specs.Prelude.{false, []};
    ghost use Rattle.pijuld.specs.Untold.{untold};

    type Src = StreamSource;

    type Dst = StreamSink;

    ghost meaning = { record {
      tells = λ _. false;
      given = λ door. door.given;
      coming = λ _. [];
      left = λ door. door.left;
      faults = λ door. door.faults;
    } };

    ghost all_told = { λ _ told. untold told };

    fn accept(&mut self) -> Result<Option<(Self::Src, Self::Dst)>, DoorRefusal> {
        if self.left == 0 {
            return Ok(None);
        }
        match (
            connection(&self.listener, self.idle),
            self.given.checked_add(1),
        ) {
            (Ok((incoming, outgoing)), Some(given)) => {
                self.left -= 1;
                self.given = given;
                Ok(Some((
                    StreamSource::new(Input::Socket(incoming)),
                    StreamSink::new(Output::Socket(outgoing)),
                )))
            }
            _ => {
                self.faults = self.faults.saturating_add(1);
                Err(DoorRefusal::Failed)
            }
        }
    }

    fn left(&self) -> u32 {
        self.left
    }

    fn faults(&self) -> u64 {
        self.faults
    }
}
