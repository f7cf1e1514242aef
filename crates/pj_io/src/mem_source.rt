//! A source in memory.
ghost use Rattle.std.specs.Prelude.{◌≡◌, ◌≤◌, ◌↔◌, true, length, min, Contains, IfOk, IsErr, OnErr};
ghost use Rattle.pj_io.specs.Causes.{one_more, HasCause};
ghost use Rattle.pj_io.specs.Source.{Takes};
ghost use Rattle.pj_io.specs.Pieces.{AllPositive, piece_at, within_piece};
ghost use Rattle.pj_io.specs.MemSource.{new_source, AfterTake};

use crate::pieces::{allowed, copy_front};
use crate::{Failed, Source};
use std::marker::Model;

/// A source over bytes in memory. Its calls give the bytes in pieces of chosen lengths, and chosen
/// calls fail.
#[derive(Drop)]
pub struct MemSource {
    bytes: Vec<u8>,
    taken: usize,
    pieces: Vec<usize>,
    failing: Vec<u64>,
    calls: u64,
    faults: u64,
    was_shut: bool,
}

impl Model for MemSource {
    ghost use Rattle.std.specs.Prelude.{◌≤◌, length, drop};
    ghost use Rattle.pj_io.specs.Pieces.{AllPositive};
    ghost use Rattle.pj_io.specs.MemSource.{SourceInMemory};

    ghost Value = { SourceInMemory };

    ghost view = { λ s. record {
      left = drop s.taken s.bytes.items;
      pieces = s.pieces.items;
      failing = s.failing.items;
      calls = s.calls;
      faults = s.faults;
      was_shut = s.was_shut;
    } };

    ghost invariant = { λ s. (s.taken ≤ length s.bytes.items) × AllPositive s.pieces.items };
}

impl MemSource {
    /// A source over these bytes. Call `k` of `take`, counted from 1, fails where `failing` has `k`.
    /// Else it gives at most as many bytes as the `k`-th piece says, and the last one for later
    /// calls; where there are no pieces there is no such bound.
    pub fn new(bytes: Vec<u8>, pieces: Vec<usize>, failing: Vec<u64>) -> MemSource
        requires { AllPositive pieces.items }
        ensures { result ≡ new_source bytes.items pieces.items failing.items }
    {
        MemSource {
            bytes,
            taken: 0,
            pieces,
            failing,
            calls: 0,
            faults: 0,
            was_shut: false,
        }
    }

    /// The bytes that are left.
    pub fn left(&self) -> &[u8]
        ensures { result.now ≡ self.now.left }
    {
        &self.bytes[self.taken..]
    }
}

impl Source for MemSource {
    ghost meaning = { record {
      tells = λ _. true;
      left = λ s. s.left;
      was_shut = λ s. s.was_shut;
      faults = λ s. s.faults;
    } };

    fn take(&mut self, into: &mut [u8]) -> Result<usize, Failed>
        ensures bound { IfOk result (λ n. n ≤ length into.old) }
        ensures bytes { Takes self.old.left self.new.left into.old into.new result }
        ensures cause { HasCause self.old.faults self.new.faults result }

        // Exactly the chosen calls fail. The others give as many bytes as they can.
        ensures failing { IsErr result ↔ Contains self.old.failing (one_more self.old.calls) }
        ensures count { IfOk result (λ n. n ≡ within_piece (piece_at self.old.pieces (one_more self.old.calls))
            (min (length into.old) (length self.old.left))) }
        ensures after { AfterTake self.old self.new result }
        ensures untouched { OnErr result (into.new ≡ into.old) }
    {
        self.calls = self.calls.saturating_add(1);
        if self.failing.contains(&self.calls) {
            self.faults = self.faults.saturating_add(1);
            return Err(Failed);
        }
        let left = &self.bytes[self.taken..];
        let count = allowed(&self.pieces, self.calls, into.len().min(left.len()));
        copy_front(left, into, count);
        self.taken += count;
        Ok(count)
    }

    fn shut(&mut self)
        ensures { self.new ≡ record self.old { was_shut = true } }
    {
        self.was_shut = true;
    }

    fn faults(&self) -> u64 {
        self.faults
    }
}
