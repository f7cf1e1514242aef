//! Doors at which one session each arrives. They tell nothing.
ghost use Rattle.std.specs.Prelude.{◌≡◌, IfSome};

use crate::signals::Signals;
use crate::sinks::streams::{HeldSink, HeldSource, Role};
use pj_io::{Door, DoorRefusal};
use std::alloc::Global;
use std::sync::Arc;

/// What the first session asks.
const FIRST: &[u8] = b"put 102\npijul change 1\nmessage A\nauthor ann\ntime 1\nfile root a.txt\n\
insert 0.1 after 0.1 before - 6\none\ntw\nend\n\n\
apply main 4fdb5ea24421e6566f44e8d89fdde3a1c382dbec6da2808f7c88bcaf8b62d12e\nprint main\nquit\n";

/// What the second session asks, once the print of the first has begun.
const SECOND: &[u8] = b"put 59\npijul change 1\nmessage T\nauthor ann\ntime 1\nfile root n\nend\n\n\
apply main 6fb6c2532586fd99efae632f20b1bed8c469d55a57e755e15d6acbc7f25eb8ee\nquit\n";

/// One of the two sessions.
#[derive(Clone, Copy, PartialEq, Eq)]
pub enum Part {
    /// It prints, and is held there.
    First,
    /// It applies a change once the print has begun.
    Second,
}

/// Makes the sources and sinks of the sessions, which wait for each other.
#[derive(Drop)]
pub struct Streams {
    alloc: Global,
    signals: Arc<Signals>,
}

impl Streams {
    /// What makes sources and sinks over these signals.
    pub fn new(alloc: Global, signals: Arc<Signals>) -> Streams {
        Streams { alloc, signals }
    }

    /// The same over the same signals, or `None` where memory is wanting.
    pub fn shared(&self) -> Option<Streams> {
        let signals = Arc::try_clone(&self.signals).ok()?;
        Some(Streams::new(self.alloc, signals))
    }

    /// A source of these bytes that has had no fault, or `None` where memory is wanting.
    pub fn source(&self, bytes: &[u8], waits: bool) -> Option<HeldSource>
        ensures { IfSome result (λ source. source.bytes.faults ≡ 0) }
    {
        let signals = Arc::try_clone(&self.signals).ok()?;
        let bytes = Vec::from_slice(self.alloc, bytes).ok()?;
        Some(HeldSource::new(self.alloc, signals, bytes, waits))
    }

    /// The source of a session.
    pub fn source_of(&self, part: Part) -> Option<HeldSource>
        ensures { IfSome result (λ source. source.bytes.faults ≡ 0) }
    {
        match part {
            Part::First => self.source(FIRST, false),
            Part::Second => self.source(SECOND, true),
        }
    }

    /// A sink that has had no fault, or `None` where memory is wanting.
    pub fn sink(&self, role: Role) -> Option<HeldSink>
        ensures { IfSome result (λ sink. sink.bytes.faults ≡ 0) }
    {
        let signals = Arc::try_clone(&self.signals).ok()?;
        Some(HeldSink::new(self.alloc, signals, role))
    }

    /// The sink of a session.
    pub fn sink_of(&self, part: Part) -> Option<HeldSink>
        ensures { IfSome result (λ sink. sink.bytes.faults ≡ 0) }
    {
        match part {
            Part::First => self.sink(Role::HoldsPrint),
            Part::Second => self.sink(Role::TellsApplication),
        }
    }
}

/// A door at which each session is this one.
#[derive(Drop)]
pub struct HeldDoor {
    streams: Streams,
    part: Part,
    left: u32,
    given: u64,
}

impl HeldDoor {
    /// A door with so many sessions to give.
    pub fn new(streams: Streams, part: Part, left: u32) -> HeldDoor
        ensures left { result.left ≡ left }
        ensures given { result.given ≡ 0 }
    {
        HeldDoor {
            streams,
            part,
            left,
            given: 0,
        }
    }
}

impl Door for HeldDoor {
    ghost use Rattle.std.specs.Prelude.{false, []};
    ghost use Rattle.test_sessions.specs.Untold.{untold};

    type Src = HeldSource;

    type Dst = HeldSink;

    ghost meaning = { record {
      tells = λ _. false;
      given = λ door. door.given;
      coming = λ _. [];
      left = λ door. door.left;
      faults = λ _. 0;
    } };

    ghost all_told = { λ _ told. untold told };

    fn accept(&mut self) -> Result<Option<(Self::Src, Self::Dst)>, DoorRefusal> {
        if self.left == 0 {
            return Ok(None);
        }
        let source = self.streams.source_of(self.part);
        let sink = self.streams.sink_of(self.part);
        match (source, sink, self.given.checked_add(1)) {
            (Some(source), Some(sink), Some(given)) => {
                self.left -= 1;
                self.given = given;
                Ok(Some((source, sink)))
            }
            _ => Err(DoorRefusal::Memory),
        }
    }

    fn left(&self) -> u32 {
        self.left
    }

    fn faults(&self) -> u64 {
        0
    }
}
