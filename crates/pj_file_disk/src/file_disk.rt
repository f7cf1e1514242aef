//! A disk over a file.
ghost use Rattle.std.specs.Prelude.{◌≡◌, ◌≤◌, length, IfSome, IsErr};
ghost use Rattle.pj_disk.specs.Causes.{HasCause};

use pj_disk::{Disk, Failed};
use std::fs::File;
use std::os::unix::fs::FileExt;

/// The greatest length of a file, and one byte more.
const END: u64 = 1 << 63;

/// A disk over a file, which is read and written at places and never cut. It holds the file's lock until it is let go.
#[derive(Drop)]
pub struct FileDisk {
    file: File,
    faults: u64,
}

impl FileDisk {
    /// A disk over a file that is open to be read and written. It has had no fault.
    pub(crate) fn over(file: File) -> FileDisk
        ensures { result.faults ≡ 0 }
    {
        FileDisk { file, faults: 0 }
    }

    /// Counts a fault.
    fn fail<T>(&mut self) -> Result<T, Failed>
        ensures err { IsErr result }
        ensures cause { HasCause self.old.faults self.new.faults result }
    {
        self.faults = self.faults.saturating_add(1);
        Err(Failed)
    }
}

impl Disk for FileDisk {
    ghost use Rattle.std.specs.Prelude.{[], false};

    ghost tells = { λ _. false };

    ghost seen = { λ _. [] };

    ghost may_leave = { λ _ _. Unit {0} };

    ghost moment = { λ _. 0 };

    ghost left_since = { λ _ _ _. Unit {0} };

    ghost faults = { λ disk. disk.faults };

    ghost reads_an_image = { λ _. tt };

    ghost counts_now = { λ _ _ _ _ _. tt };

    ghost only_now = { λ _ _ _. tt };

    fn len(&mut self) -> Result<u64, Failed> {
        match self.file.metadata() {
            Ok(found) if found.len() < END => Ok(found.len()),
            _ => self.fail(),
        }
    }

    fn read(&mut self, at: u64, into: &mut [u8]) -> Result<usize, Failed> {
        match read_from(&self.file, at, into) {
            Some(count) => Ok(count),
            None => self.fail(),
        }
    }

    fn write_at(&mut self, at: u64, bytes: &[u8]) -> Result<(), Failed> {
        match at.checked_add(bytes.len() as u64) {
            Some(end) if end < END => {}
            _ => return self.fail(),
        }
        match self.file.write_all_at(bytes, at) {
            Ok(()) => Ok(()),
            Err(_) => self.fail(),
        }
    }

    fn sync(&mut self) -> Result<(), Failed> {
        match self.file.sync_data() {
            Ok(()) => Ok(()),
            Err(_) => self.fail(),
        }
    }

    fn faults(&self) -> u64 {
        self.faults
    }
}

/// Copies the bytes from this place on, as many as there are or as `into` holds: their number, or None where a read failed.
fn read_from(file: &File, at: u64, into: &mut [u8]) -> Option<usize>
    ensures { IfSome result (λ n. n ≤ length into.old) }
{
    let mut count = 0;
    // Each turn but the last reads a byte at least.
    for _ in 0..=into.len() {
        let place = at.checked_add(count as u64)?;
        let read = file.read_at(&mut into[count..], place).ok()?;
        if read == 0 {
            break;
        }
        count += read;
    }
    Some(count)
}
