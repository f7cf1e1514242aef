//! A source in memory that never fails.
ghost use Rattle.std.specs.Prelude.{◌≡◌, true, length, min, Ok};
ghost use Rattle.pj_io.specs.Source.{Takes};
ghost use Rattle.pj_io.specs.SureSource.{new_sure_source};

use crate::pieces::copy_front;
use crate::{Failed, Source};
use std::marker::Model;

/// A source over bytes in memory that never fails.
#[derive(Drop)]
pub struct SureSource {
    bytes: Vec<u8>,
    taken: usize,
    was_shut: bool,
}

impl Model for SureSource {
    ghost use Rattle.std.specs.Prelude.{◌≤◌, length, drop};
    ghost use Rattle.pj_io.specs.SureSource.{SureSourceInMemory};

    ghost Value = { SureSourceInMemory };

    ghost view = { λ s. record { left = drop s.taken s.bytes.items; was_shut = s.was_shut } };

    ghost invariant = { λ s. s.taken ≤ length s.bytes.items };
}

impl SureSource {
    /// A source over these bytes.
    pub fn new(bytes: Vec<u8>) -> SureSource
        ensures { result ≡ new_sure_source bytes.items }
    {
        SureSource {
            bytes,
            taken: 0,
            was_shut: false,
        }
    }
}

impl Source for SureSource {
    ghost meaning = { record {
      tells = λ _. true;
      left = λ s. s.left;
      was_shut = λ s. s.was_shut;
      faults = λ _. 0;
    } };

    fn take(&mut self, into: &mut [u8]) -> Result<usize, Failed>
        ensures count { result ≡ Ok (min (length into.old) (length self.old.left)) }
        ensures bytes { Takes self.old.left self.new.left into.old into.new result }
        ensures not_shut { self.new.was_shut ≡ self.old.was_shut }
    {
        let left = &self.bytes[self.taken..];
        let count = into.len().min(left.len());
        copy_front(left, into, count);
        self.taken += count;
        Ok(count)
    }

    fn shut(&mut self)
        ensures { self.new ≡ record self.old { was_shut = true } }
    {
        self.was_shut = true;
    }

    fn faults(&self) -> u64 {
        0
    }
}
