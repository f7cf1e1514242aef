//! Want of memory, as the crates above answer it.
//!
//! Contract: a `Memory` tells nothing but that memory was wanted and not there; it stands in each call's answer that may be
//! given for want of memory, or where a count has no room, and after it nothing that the caller sees has changed but what was given up
//! to the call.
//! Cost: none.
//! Used by: `pj_io`, `pj_disk`, `pj_journal`, `pj_bits`, `pj_pmap`, `pj_book`, `pj_change`, `pj_words`; crates above take it from these.
#![tactic(auto)]

use std::alloc::{AllocError, AllocFailed};

/// Memory was wanted and not there, or room in a count of owners or of pairs. Nothing that the caller sees has changed.
#[derive(Clone, Copy, Debug, PartialEq, Eq)]
pub struct Memory;

impl From<AllocError> for Memory {
    fn from(_: AllocError) -> Memory {
        Memory
    }
}

impl<T: Drop> From<AllocFailed<T>> for Memory {
    fn from(_: AllocFailed<T>) -> Memory {
        Memory
    }
}
