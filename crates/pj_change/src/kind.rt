//! What stands at the positions of a change, and what a `delete` hunk deletes there.

ghost use Rattle.std.specs.Prelude.{◌≡◌};
ghost use Rattle.pj_change.specs.Makers.{maker};

use crate::point::Place;

/// What stands at a position of a change.
#[derive(Clone, Copy, PartialEq, Eq)]
pub enum Kind {
    /// The name that a hunk makes.
    NameAt { hunk: u32 },
    /// The file that a hunk makes.
    FileInode { hunk: u32 },
    /// The directory that a hunk makes.
    DirInode { hunk: u32 },
    /// A byte that a hunk inserts. The bytes of the hunk have the positions from `start` up to and without `end`.
    Text { hunk: u32, start: u32, end: u32 },
}

impl Kind {
    /// The number of the hunk that made it, counted from 0.
    pub fn hunk(self) -> u32
        ensures { result ≡ maker self }
    {
        match self {
            Kind::NameAt { hunk }
            | Kind::FileInode { hunk }
            | Kind::DirInode { hunk }
            | Kind::Text { hunk, .. } => hunk,
        }
    }
}

/// What a `delete` hunk deletes.
#[derive(Clone, Copy, PartialEq, Eq)]
pub enum Deleted {
    /// Bytes that a hunk inserts.
    Text,
    /// The name of this child.
    NameOf(Place),
}
