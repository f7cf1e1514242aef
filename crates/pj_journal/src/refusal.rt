//! What the calls of a log answer where they cannot do their work.
ghost use Rattle.std.specs.Prelude.{◌≡◌};
ghost use Rattle.pj_journal.specs.declared.refusal.LogRefusal.TheVariants.{Store as StoreRefused, Memory as OutOfMemory};

use pj_disk::Failed;
use pj_memory::Memory;
use std::alloc::AllocError;

/// Why a file was not opened as a log. The disk comes back.
#[derive(Drop)]
pub enum OpenRefusal<K> {
    /// The file has more than 9 bytes and another header.
    Foreign(K),
    /// The disk failed: its count of faults rose.
    Store(K),
}

/// Why a log gave no string, and not its end.
#[derive(Clone, Copy, Debug, PartialEq, Eq)]
pub enum LogRefusal {
    /// The gate is open or past the end of the file, and there is no entry.
    Broken,
    /// The disk failed: its count of faults rose.
    Store,
    /// No memory was left for the string.
    Memory,
}

impl From<Failed> for LogRefusal {
    ghost from_gives = { λ _ e. e ≡ StoreRefused };

    fn from(_: Failed) -> Self {
        LogRefusal::Store
    }
}

impl From<AllocError> for LogRefusal {
    ghost from_gives = { λ _ e. e ≡ OutOfMemory };

    fn from(_: AllocError) -> Self {
        LogRefusal::Memory
    }
}

/// The disk failed while a string was appended: its count of faults rose.
#[derive(Clone, Copy, Debug, PartialEq, Eq)]
pub struct StoreFault;
