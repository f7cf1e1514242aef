//! What applying a change to a channel gives, and why the calls of a channel are refused.

ghost use Rattle.std.specs.Prelude.{◌≡◌};
ghost use Rattle.pj_change.specs.declared.refusals.ApplyRefusal.TheVariants as apply;
ghost use Rattle.pj_change.specs.declared.refusals.UnrecordRefusal.TheVariants as unrecord;
ghost use Rattle.pj_change.specs.declared.refusals.UprootRefusal.TheVariants as uproot;
ghost use Rattle.pj_change.specs.declared.refusals.PrintRefusal.TheVariants as print;

use crate::point::Point;
use pj_memory::Memory;
use pj_name::Name;
use std::alloc::AllocError;

/// What an application to a channel gives.
#[derive(Drop)]
pub enum Applied<C> {
    /// The channel with the change.
    New(C),
    /// The channel has the change already.
    Already,
}

/// Why a change was not applied.
#[derive(Clone, Copy, PartialEq, Eq)]
pub enum ApplyRefusal {
    /// A need is not in the channel; this is the least one.
    Needs(Name),
    /// The number of the first hunk, counted from 0, whose context does not hold.
    Context(u32),
    Memory,
}

/// Why a change was not taken out.
#[derive(Clone, Copy, PartialEq, Eq)]
pub enum UnrecordRefusal {
    /// The channel does not have it.
    Absent,
    /// A change of the channel needs it; this is the least one.
    Held(Name),
    Memory,
}

/// Why a change was not taken out with all that need it.
#[derive(Clone, Copy, PartialEq, Eq)]
pub enum UprootRefusal {
    /// The channel does not have it.
    Absent,
    Memory,
}

/// Why a channel was not printed.
#[derive(Clone, Copy, PartialEq, Eq)]
pub enum PrintRefusal {
    /// A file has too many live vertices; this is the first one of the print.
    Wide(Point),
    Memory,
}

impl From<AllocError> for ApplyRefusal {
    ghost from_gives = { λ _ e. e ≡ apply.Memory };

    fn from(_: AllocError) -> ApplyRefusal {
        ApplyRefusal::Memory
    }
}

impl From<Memory> for ApplyRefusal {
    ghost from_gives = { λ _ e. e ≡ apply.Memory };

    fn from(_: Memory) -> ApplyRefusal {
        ApplyRefusal::Memory
    }
}

impl From<AllocError> for UnrecordRefusal {
    ghost from_gives = { λ _ e. e ≡ unrecord.Memory };

    fn from(_: AllocError) -> UnrecordRefusal {
        UnrecordRefusal::Memory
    }
}

impl From<Memory> for UnrecordRefusal {
    ghost from_gives = { λ _ e. e ≡ unrecord.Memory };

    fn from(_: Memory) -> UnrecordRefusal {
        UnrecordRefusal::Memory
    }
}

impl From<AllocError> for UprootRefusal {
    ghost from_gives = { λ _ e. e ≡ uproot.Memory };

    fn from(_: AllocError) -> UprootRefusal {
        UprootRefusal::Memory
    }
}

impl From<Memory> for UprootRefusal {
    ghost from_gives = { λ _ e. e ≡ uproot.Memory };

    fn from(_: Memory) -> UprootRefusal {
        UprootRefusal::Memory
    }
}

impl From<AllocError> for PrintRefusal {
    ghost from_gives = { λ _ e. e ≡ print.Memory };

    fn from(_: AllocError) -> PrintRefusal {
        PrintRefusal::Memory
    }
}

impl From<Memory> for PrintRefusal {
    ghost from_gives = { λ _ e. e ≡ print.Memory };

    fn from(_: Memory) -> PrintRefusal {
        PrintRefusal::Memory
    }
}
