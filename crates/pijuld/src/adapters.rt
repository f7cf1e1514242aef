//! A source over an input, and a sink over an output. Each counts its faults and tells nothing of
//! its bytes, since nothing can be proved of what a real stream holds.
ghost use Rattle.std.specs.Prelude.{◌≡◌, false, []};

use crate::files::{Input, Output};
use pj_io::{Failed, Sink, Source};
use std::io::{Read, Write};

/// A source over standard input, a file or a socket.
#[derive(Drop)]
pub struct StreamSource {
    inner: Input,
    faults: u64,
}

impl StreamSource {
    /// A source that has had no fault.
    pub fn new(inner: Input) -> Self
        ensures { result.faults ≡ 0 }
    {
        StreamSource { inner, faults: 0 }
    }
}

impl Source for StreamSource {
    ghost use Rattle.std.specs.Prelude.{false, []};

    ghost meaning = { record {
      tells = λ _. false;
      left = λ _. [];
      was_shut = λ _. false;
      faults = λ source. source.faults;
    } };

    fn take(&mut self, into: &mut [u8]) -> Result<usize, Failed> {
        match self.inner.read(into) {
            Ok(count) => Ok(count),
            Err(_) => {
                self.faults = self.faults.saturating_add(1);
                Err(Failed)
            }
        }
    }

    fn shut(&mut self) {
        self.inner.close();
    }

    fn faults(&self) -> u64 {
        self.faults
    }
}

/// A sink over standard output, a file or a socket.
#[derive(Drop)]
pub struct StreamSink {
    inner: Output,
    faults: u64,
}

impl StreamSink {
    /// A sink that has had no fault.
    pub fn new(inner: Output) -> Self
        ensures { result.faults ≡ 0 }
    {
        StreamSink { inner, faults: 0 }
    }
}

impl Sink for StreamSink {
    ghost use Rattle.std.specs.Prelude.{false, []};

    ghost meaning = { record {
      tells = λ _. false;
      label = λ _. [];
      written = λ _. [];
      was_shut = λ _. false;
      faults = λ sink. sink.faults;
    } };

    fn give(&mut self, bytes: &[u8]) -> Result<usize, Failed> {
        match self.inner.write(bytes) {
            // A writer that takes nothing of a piece will never take it.
            Ok(0) if !bytes.is_empty() => {
                self.faults = self.faults.saturating_add(1);
                Err(Failed)
            }
            Ok(count) => Ok(count),
            Err(_) => {
                self.faults = self.faults.saturating_add(1);
                Err(Failed)
            }
        }
    }

    fn shut(&mut self) {
        self.inner.close();
    }

    fn faults(&self) -> u64 {
        self.faults
    }
}
