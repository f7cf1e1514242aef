//! A script that is read.
ghost use Rattle.std.specs.Prelude.{◌≡◌, true};

use pj_io::{Failed, Source};

/// A source over a script that stands in memory. It never fails.
#[derive(Drop)]
pub(crate) struct Reading<'a> {
    pub(crate) left: &'a [u8],
    pub(crate) was_shut: bool,
}

impl<'a> Source for Reading<'a> {
    ghost meaning = { record {
      tells = λ _. true;
      left = λ r. r.left.now;
      was_shut = λ r. r.was_shut;
      faults = λ _. 0;
    } };

    fn take(&mut self, into: &mut [u8]) -> Result<usize, Failed> {
        let count = into.len().min(self.left.len());
        into[..count].copy_from_slice(&self.left[..count]);
        self.left = &self.left[count..];
        Ok(count)
    }

    fn shut(&mut self) {
        self.was_shut = true;
    }

    fn faults(&self) -> u64 {
        0
    }
}
