//! What is answered where there is no inverse, or no memory for it.

ghost use Rattle.std.specs.Prelude.{◌≡◌};
ghost use Rattle.pj_inverse.specs.declared.refusal.InverseRefusal.TheVariants as refusal;

use pj_change::Memory;
use std::alloc::{AllocError, AllocFailed};

/// Why a change was not inverted.
#[derive(Clone, Copy, PartialEq, Eq, Debug)]
pub enum InverseRefusal {
    /// The number of the first hunk, counted from 0, that has no inverse.
    Hunk(u32),
    Memory,
}

impl From<AllocError> for InverseRefusal {
    ghost from_gives = { λ _ e. e ≡ refusal.Memory };

    fn from(_: AllocError) -> InverseRefusal {
        InverseRefusal::Memory
    }
}

impl<T: Drop> From<AllocFailed<T>> for InverseRefusal {
    ghost from_gives = { λ _ e. e ≡ refusal.Memory };

    fn from(_: AllocFailed<T>) -> InverseRefusal {
        InverseRefusal::Memory
    }
}

impl From<Memory> for InverseRefusal {
    ghost from_gives = { λ _ e. e ≡ refusal.Memory };

    fn from(_: Memory) -> InverseRefusal {
        InverseRefusal::Memory
    }
}
