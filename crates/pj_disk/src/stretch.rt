//! What was synced, and the ranges that were written since.
ghost use Rattle.std.specs.Prelude.{◌≡◌, ◌⊎◌, ◌<◌, ◌≤◌, ◌+◌, ◌^◌, [], ◌∷◌, ◌++◌, length, OnOk, OnErr, IfErr, MatchResult};
ghost use Rattle.pj_disk.specs.Image.{overwritten};
ghost use Rattle.pj_disk.specs.MemDisk.{Stretch as TheStretch};

use pj_memory::Memory;
use std::marker::Model;

/// What was synced, and the place and the length of each range that was written since, in order.
#[derive(Drop)]
pub struct Stretch {
    synced: Vec<u8>,
    ranges: Vec<(u64, usize)>,
}

impl Model for Stretch {
    ghost use Rattle.pj_disk.specs.MemDisk.{Stretch as TheStretch};

    ghost Value = { TheStretch };

    ghost view = { λ s. record { synced = s.synced.items; ranges = s.ranges.items } };
}

impl Stretch {
    /// Nothing was written since these bytes were synced.
    pub fn of(synced: Vec<u8>) -> Stretch
        ensures { result ≡ record { synced = synced.items; ranges = [] } }
    {
        let ranges = Vec::new(*synced.allocator());
        Stretch { synced, ranges }
    }

    /// One range more. It answers `Memory` where there is none for it.
    pub fn add(&mut self, at: u64, len: usize) -> Result<(), Memory>
        ensures { MatchResult result
            (λ _. self.new ≡ record self.old { ranges = self.old.ranges ++ (at, len) ∷ [] })
            (λ _. self.new ≡ self.old) }
    {
        self.ranges.push((at, len))?;
        Ok(())
    }

    /// What was synced.
    pub fn into_synced(self) -> Vec<u8>
        ensures { result.items ≡ self.synced }
    {
        self.synced
    }
}

/// Writes over what is there, and past the end. It answers `Memory` where there is none, and the file is as before.
pub fn overwrite(file: &mut Vec<u8>, at: usize, bytes: &[u8]) -> Result<(), Memory>
    requires { at ≤ length file.old.items }
    ensures { MatchResult result
        (λ _. file.new.items ≡ overwritten file.old.items at bytes.now)
        (λ _. file.new.items ≡ file.old.items) }
{
    let inside = bytes.len().min(file.len() - at);
    file.extend_from_slice(&bytes[inside..])?;
    file[at..at + inside].copy_from_slice(&bytes[..inside]);
    Ok(())
}
