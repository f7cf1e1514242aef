//! A sink in memory.
ghost use Rattle.std.specs.Prelude.{◌≡◌, ◌≤◌, ◌<◌, true, length, min, Contains, IfOk, IsErr, string_bytes};
ghost use Rattle.pj_io.specs.Causes.{one_more, HasCause};
ghost use Rattle.pj_io.specs.Sink.{Gives};
ghost use Rattle.pj_io.specs.MemSink.{new_sink, AfterGive};

use crate::{Failed, Sink};
use std::marker::Model;

/// A sink that keeps its bytes in memory. Each call takes at most so many bytes as a piece has, and
/// chosen calls fail.
#[derive(Drop)]
pub struct MemSink {
    label: String,
    written: Vec<u8>,
    piece: usize,
    failing: Vec<u64>,
    calls: u64,
    faults: u64,
    was_shut: bool,
}

impl Model for MemSink {
    ghost use Rattle.std.specs.Prelude.{◌<◌, string_bytes};
    ghost use Rattle.pj_io.specs.MemSink.{SinkInMemory};

    ghost Value = { SinkInMemory };

    ghost view = { λ s. record {
      label = string_bytes s.label;
      written = s.written.items;
      piece = s.piece;
      failing = s.failing.items;
      calls = s.calls;
      faults = s.faults;
      was_shut = s.was_shut;
    } };

    ghost invariant = { λ s. 0 < s.piece };
}

impl MemSink {
    /// An empty sink. Call `k` of `give`, counted from 1, fails where `failing` has `k`, and where no
    /// memory is left for the bytes. Else it takes at most `piece` bytes.
    pub fn new(label: String, piece: usize, failing: Vec<u64>) -> MemSink
        requires { 0 < piece }
        ensures { result ≡ new_sink (string_bytes label) piece failing.items }
    {
        let alloc = *failing.allocator();
        MemSink {
            label,
            written: Vec::new(alloc),
            piece,
            failing,
            calls: 0,
            faults: 0,
            was_shut: false,
        }
    }

    /// The bytes that were written.
    pub fn written(&self) -> &[u8]
        ensures { result.now ≡ self.now.written }
    {
        &self.written
    }

    /// The text that says which sink this is.
    pub fn label(&self) -> &str
        ensures { result.now ≡ self.now.label }
    {
        &self.label
    }
}

impl Sink for MemSink {
    ghost meaning = { record {
      tells = λ _. true;
      label = λ s. s.label;
      written = λ s. s.written;
      was_shut = λ s. s.was_shut;
      faults = λ s. s.faults;
    } };

    fn give(&mut self, bytes: &[u8]) -> Result<usize, Failed>
        ensures bound { IfOk result (λ n. n ≤ length bytes.now) }
        ensures progress { IfOk result (λ n. 0 < length bytes.now → 0 < n) }
        ensures bytes { Gives self.old.written self.new.written bytes.now result }
        ensures cause { HasCause self.old.faults self.new.faults result }

        // The chosen calls fail. The others take as many bytes as they can, where there is memory.
        ensures failing { Contains self.old.failing (one_more self.old.calls) → IsErr result }
        ensures count { IfOk result (λ n. n ≡ min (length bytes.now) self.old.piece) }
        ensures after { AfterGive self.old self.new bytes.now result }
    {
        self.calls = self.calls.saturating_add(1);
        let count = bytes.len().min(self.piece);
        if self.failing.contains(&self.calls)
            || self.written.extend_from_slice(&bytes[..count]).is_err()
        {
            self.faults = self.faults.saturating_add(1);
            return Err(Failed);
        }
        Ok(count)
    }

    fn shut(&mut self)
        ensures { self.new ≡ record self.old { was_shut = true } }
    {
        self.was_shut = true;
    }

    fn faults(&self) -> u64 {
        self.faults
    }
}
