//! What the calls to the outside answer where they cannot do their work.
ghost use Rattle.std.specs.Prelude.{◌≡◌};
ghost use Rattle.pj_io.specs.declared.refusal.DoorRefusal.TheVariants.{Memory as OutOfMemory};

use std::alloc::{AllocError, AllocFailed};
use thiserror::Error;

/// A source or a sink failed: its count of faults rose.
#[derive(Clone, Copy, Debug, PartialEq, Eq, Error)]
#[error("failed")]
pub struct Failed;

/// A sink failed before all bytes were written.
#[derive(Clone, Copy, Debug, PartialEq, Eq, Error)]
#[error("write fault")]
pub struct WriteFault;

/// Why an opening, or a door, gave nothing.
#[derive(Clone, Copy, Debug, PartialEq, Eq, Error)]
pub enum DoorRefusal {
    /// It failed: its count of faults rose.
    #[error("failed")]
    Failed,
    /// No memory was left for what it gives.
    #[error("no memory")]
    Memory,
}

impl From<AllocError> for DoorRefusal {
    ghost from_gives = { λ _ e. e ≡ OutOfMemory };

    fn from(_: AllocError) -> Self {
        DoorRefusal::Memory
    }
}

impl<T: Drop> From<AllocFailed<T>> for DoorRefusal {
    ghost from_gives = { λ _ e. e ≡ OutOfMemory };

    fn from(_: AllocFailed<T>) -> Self {
        DoorRefusal::Memory
    }
}
