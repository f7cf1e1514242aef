//! An office of two scripts, or of doors, that tells nothing.
ghost use Rattle.std.specs.Prelude.{◌≡◌, map, All, IfSome};

use crate::signals::Signals;
use crate::sinks::door::{HeldDoor, Part, Streams};
use crate::sinks::streams::{HeldSink, HeldSource, Role};
use pj_io::{DoorRefusal, Office};
use std::alloc::Global;
use std::sync::Arc;

/// Opens the two scripts, or doors for the two sessions, whose sources and sinks wait for each other.
#[derive(Drop)]
pub struct HeldOffice {
    alloc: Global,
    streams: Streams,
}

impl HeldOffice {
    /// The office that has opened nothing.
    pub fn new(alloc: Global, signals: Arc<Signals>) -> HeldOffice {
        HeldOffice {
            alloc,
            streams: Streams::new(alloc, signals),
        }
    }
}

/// A door for each share: the first session comes to the first of them, and the second to each other. `None` where memory is wanting.
fn held_doors(alloc: Global, streams: &Streams, shares: &[u32]) -> Option<Vec<HeldDoor>>
    ensures lefts { IfSome result (λ doors. map (λ door. door.left) doors.items ≡ shares.now) }
    ensures new { IfSome result (λ doors. All (λ door. door.given ≡ 0) doors.items) }
{
    let mut doors = Vec::with_capacity(alloc, shares.len()).ok()?;
    let mut part = Part::First;
    for share in shares {
        let streams = streams.shared()?;
        doors.push_reserved(HeldDoor::new(streams, part, *share));
        part = Part::Second;
    }
    Some(doors)
}

impl Office for HeldOffice {
    ghost use Rattle.std.specs.Prelude.{false, []};
    ghost use Rattle.test_sessions.specs.Untold.{untold};

    type Src = HeldSource;

    type Dst = HeldSink;

    type Way = HeldDoor;

    ghost meaning = { record {
      tells = λ _. false;
      contents = λ _. record { input = []; script = λ _. []; sessions = λ _ _. [] };
      read_faults = λ _. 0;
      write_faults = λ _. 0;
    } };

    ghost as_many = { λ _ told. untold told };

    fn input(&mut self) -> Result<Self::Src, DoorRefusal> {
        self.streams.source(b"", false).ok_or(DoorRefusal::Memory)
    }

    fn output(&mut self) -> Result<Self::Dst, DoorRefusal> {
        self.streams.sink(Role::Listens).ok_or(DoorRefusal::Memory)
    }

    fn script(&mut self, path: &str) -> Result<Self::Src, DoorRefusal> {
        let part = match path {
            "first" => Part::First,
            _ => Part::Second,
        };
        self.streams.source_of(part).ok_or(DoorRefusal::Memory)
    }

    fn replies(&mut self, path: &str) -> Result<Self::Dst, DoorRefusal> {
        let part = match path {
            "first.out" => Part::First,
            _ => Part::Second,
        };
        self.streams.sink_of(part).ok_or(DoorRefusal::Memory)
    }

    fn doors(&mut self, _address: &str, shares: &[u32]) -> Result<Vec<Self::Way>, DoorRefusal> {
        match held_doors(self.alloc, &self.streams, shares) {
            Some(doors) => Ok(doors),
            None => Err(DoorRefusal::Memory),
        }
    }

    fn read_faults(&self) -> u64 {
        0
    }

    fn write_faults(&self) -> u64 {
        0
    }
}
