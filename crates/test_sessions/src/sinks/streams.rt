//! Sources and sinks that wait for each other. They tell nothing of their bytes.
ghost use Rattle.std.specs.Prelude.{◌≡◌};

use crate::signals::Signals;
use pj_io::{Failed, MemSink, MemSource, Sink, Source};
use std::alloc::Global;
use std::sync::Arc;

/// A source that may wait for the print before its first byte.
#[derive(Drop)]
pub struct HeldSource {
    signals: Arc<Signals>,
    bytes: MemSource,
    waits: bool,
}

impl HeldSource {
    /// A source over these bytes, which has had no fault.
    pub fn new(alloc: Global, signals: Arc<Signals>, bytes: Vec<u8>, waits: bool) -> HeldSource
        ensures { result.bytes.faults ≡ 0 }
    {
        HeldSource {
            signals,
            bytes: MemSource::new(bytes, Vec::new(alloc), Vec::new(alloc)),
            waits,
        }
    }
}

impl Source for HeldSource {
    ghost use Rattle.std.specs.Prelude.{false, []};

    ghost meaning = { record {
      tells = λ _. false;
      left = λ _. [];
      was_shut = λ _. false;
      faults = λ source. source.bytes.faults;
    } };

    fn take(&mut self, into: &mut [u8]) -> Result<usize, Failed> {
        if self.waits {
            self.signals.hold_second();
            self.waits = false;
        }
        self.bytes.take(into)
    }

    fn shut(&mut self) {}

    fn faults(&self) -> u64 {
        self.bytes.faults()
    }
}

/// What a sink does beside keeping what is written to it.
#[derive(Clone, Copy, PartialEq, Eq)]
pub enum Role {
    /// Nothing.
    Listens,
    /// It says that the print has begun, and holds it until the application of the other session was told.
    HoldsPrint,
    /// It says that the application was told.
    TellsApplication,
}

/// A sink that keeps what is written to it.
#[derive(Drop)]
pub struct HeldSink {
    signals: Arc<Signals>,
    bytes: MemSink,
    role: Role,
}

impl HeldSink {
    /// A sink to which nothing was written, which has had no fault.
    pub fn new(alloc: Global, signals: Arc<Signals>, role: Role) -> HeldSink
        ensures { result.bytes.faults ≡ 0 }
    {
        HeldSink {
            signals,
            bytes: MemSink::new(String::new(alloc), 4_096, Vec::new(alloc)),
            role,
        }
    }

    /// What was written to it.
    pub fn written(&self) -> &[u8] {
        self.bytes.written()
    }

    /// How many lines were written to it.
    fn lines(&self) -> usize {
        let mut count: usize = 0;
        for byte in self.bytes.written() {
            if *byte == b'\n' {
                count = count.saturating_add(1);
            }
        }
        count
    }
}

impl Sink for HeldSink {
    ghost use Rattle.std.specs.Prelude.{false, []};

    ghost meaning = { record {
      tells = λ _. false;
      label = λ _. [];
      written = λ _. [];
      was_shut = λ _. false;
      faults = λ sink. sink.bytes.faults;
    } };

    fn give(&mut self, bytes: &[u8]) -> Result<usize, Failed> {
        if self.role == Role::HoldsPrint && self.lines() == 2 {
            self.signals.hold_first();
        }
        let given = self.bytes.give(bytes);
        if self.role == Role::TellsApplication && self.lines() == 2 {
            self.signals.second_is_answered();
        }
        given
    }

    fn shut(&mut self) {}

    fn faults(&self) -> u64 {
        self.bytes.faults()
    }
}
