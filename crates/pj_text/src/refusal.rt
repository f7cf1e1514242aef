//! What the reading of a text answers where it gives no change.

ghost use Rattle.std.specs.Prelude.{◌≡◌};
ghost use Rattle.pj_text.specs.declared.refusal.ReadRefusal.TheVariants.{Memory};

use std::alloc::{AllocError, AllocFailed};
use thiserror::Error;

/// Why a text was not read.
#[derive(Clone, Copy, PartialEq, Eq, Debug, Error)]
pub enum ReadRefusal {
    /// No change has this text.
    #[error("malformed")]
    Malformed,
    /// Memory was wanted and not there.
    #[error("out of memory")]
    Memory,
}

impl From<AllocError> for ReadRefusal {
    ghost from_gives = { λ _ e. e ≡ Memory };

    fn from(_error: AllocError) -> ReadRefusal {
        ReadRefusal::Memory
    }
}

impl<T: Drop> From<AllocFailed<T>> for ReadRefusal {
    ghost from_gives = { λ _ e. e ≡ Memory };

    fn from(_error: AllocFailed<T>) -> ReadRefusal {
        ReadRefusal::Memory
    }
}
