//! A disk that tears the write at which it stops.
ghost use Rattle.std.specs.Prelude.{◌≡◌, ◌≤◌, length, false, [], refl};
ghost use Rattle.pj_disk.specs.Causes.{Rose};

use pj_disk::{Disk, Failed};
use pj_journal::Memory;

/// How a write is torn.
#[derive(Clone, Copy, Debug)]
pub struct Tear {
    /// How many of its bytes are written.
    pub kept: usize,
    /// The byte that is written in the place of each of the others, if any is.
    pub filler: Option<u8>,
}

/// A disk that stops at the last of its calls, and tears it where it is a write. It tells nothing.
#[derive(Drop)]
pub struct TornDisk {
    file: Vec<u8>,
    calls: u64,
    tear: Tear,
    faults: u64,
}

impl TornDisk {
    /// A disk of this file.
    pub fn new(file: Vec<u8>, calls: u64, tear: Tear) -> TornDisk {
        TornDisk {
            file,
            calls,
            tear,
            faults: 0,
        }
    }

    /// What is left of the file.
    pub fn into_file(self) -> Vec<u8> {
        self.file
    }
}

impl Disk for TornDisk {
    ghost tells = { λ _. false };

    ghost seen = { λ _. [] };

    ghost may_leave = { λ _ c. c ≡ [] };

    ghost moment = { λ _. 0 };

    ghost left_since = { λ _ _ c. c ≡ [] };

    ghost faults = { λ d. d.faults };

    ghost reads_an_image = { λ _. refl };

    ghost counts_now = { λ _ _ _ _ now. now };

    ghost only_now = { λ _ _ left. left };

    fn len(&mut self) -> Result<u64, Failed> {
        if !goes_on(&mut self.calls) {
            return Err(failed(&mut self.faults));
        }
        Ok(self.file.len() as u64)
    }

    fn read(&mut self, at: u64, into: &mut [u8]) -> Result<usize, Failed> {
        if !goes_on(&mut self.calls) {
            return Err(failed(&mut self.faults));
        }
        let from = (at as usize).min(self.file.len());
        let count = into.len().min(self.file.len() - from);
        into[..count].copy_from_slice(&self.file[from..from + count]);
        Ok(count)
    }

    fn write_at(&mut self, at: u64, bytes: &[u8]) -> Result<(), Failed> {
        let room = (1 << 63) - 1 - self.file.len();
        if at > self.file.len() as u64 || bytes.len() > room || self.calls == 0 {
            return Err(failed(&mut self.faults));
        }
        if !goes_on(&mut self.calls) {
            let _ = write_torn(&mut self.file, at as usize, bytes, self.tear);
            return Err(failed(&mut self.faults));
        }
        if overwrite(&mut self.file, at as usize, bytes).is_err() {
            return Err(failed(&mut self.faults));
        }
        Ok(())
    }

    fn sync(&mut self) -> Result<(), Failed> {
        if !goes_on(&mut self.calls) {
            return Err(failed(&mut self.faults));
        }
        Ok(())
    }

    fn faults(&self) -> u64 {
        self.faults
    }
}

// Counts a call: whether one is left behind it.
fn goes_on(calls: &mut u64) -> bool {
    *calls = calls.saturating_sub(1);
    *calls > 0
}

// Writes the bytes that the tear keeps, and its filler in the place of the others.
fn write_torn(file: &mut Vec<u8>, at: usize, bytes: &[u8], tear: Tear) -> Result<(), Memory>
    requires { at ≤ length file.old.items }
{
    let mut torn = Vec::from_slice(*file.allocator(), bytes)?;
    let kept = tear.kept.min(torn.len());
    match tear.filler {
        Some(filler) => torn[kept..].fill(filler),
        None => torn.truncate(kept),
    }
    overwrite(file, at, &torn)
}

// A failure, which is counted.
fn failed(faults: &mut u64) -> Failed
    ensures never_falls { faults.old ≤ faults.new }
    ensures rose { Rose faults.old faults.new }
{
    *faults = faults.saturating_add(1);
    Failed
}

// Writes over what is there, and past the end.
fn overwrite(file: &mut Vec<u8>, at: usize, bytes: &[u8]) -> Result<(), Memory>
    requires { at ≤ length file.old.items }
{
    let inside = bytes.len().min(file.len() - at);
    file.extend_from_slice(&bytes[inside..])?;
    file[at..at + inside].copy_from_slice(&bytes[..inside]);
    Ok(())
}
