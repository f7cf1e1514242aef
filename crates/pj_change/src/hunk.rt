//! The hunks of a change: what each kind says, its first word, and how many positions it takes.

use crate::lists::{Bytes, Owners, Refs};
use crate::point::Ref;

/// One step of a change.
#[derive(Drop)]
pub enum Hunk {
    /// A new file with its first name.
    File {
        /// The root, or a directory.
        parent: Ref,
        name: Bytes,
        /// Whether the name is executable, which version 2 of the text allows.
        exec: bool,
    },
    /// A new directory with its first name.
    Dir {
        /// The root, or a directory.
        parent: Ref,
        name: Bytes,
    },
    /// A further name of a file or a directory.
    NameOf {
        /// The root, or a directory.
        parent: Ref,
        /// The file or directory that is named.
        child: Ref,
        name: Bytes,
        /// Whether the name is executable, which version 2 of the text allows.
        exec: bool,
    },
    /// New bytes of a file, between the bytes of `ups` and those of `downs`.
    Insert {
        file: Ref,
        /// What the bytes follow: bytes of the file, or the file itself for its beginning.
        ups: Refs,
        /// Bytes of the file that follow.
        downs: Refs,
        bytes: Bytes,
    },
    /// One byte of a file is before another.
    Order {
        file: Ref,
        source: Ref,
        target: Ref,
    },
    /// The positions of a need from `start` up to and without `end` are deleted.
    Delete {
        /// The number of the need, counted from 1.
        owner: u32,
        start: u32,
        end: u32,
        /// The needs whose versions of these positions the hunk takes the place of.
        by: Owners,
    },
    /// The positions of a need from `start` up to and without `end` are alive again, which version 2 of the text allows.
    Revive {
        /// The number of the need, counted from 1.
        owner: u32,
        start: u32,
        end: u32,
        /// The needs whose versions of these positions the hunk takes the place of.
        by: Owners,
    },
}

impl Hunk {
    ghost use Rattle.std.specs.Prelude.{◌≡◌};
    ghost use Rattle.pj_change.specs.Text.{word as first_word};
    ghost use Rattle.pj_change.specs.Rules.{position_count};

    /// The first word of the hunk's line in the text.
    pub fn word(&self) -> &'static str
        ensures { result.now ≡ first_word self.now }
    {
        match self {
            Hunk::File { exec: false, .. } => "file",
            Hunk::File { exec: true, .. } => "file+x",
            Hunk::Dir { .. } => "dir",
            Hunk::NameOf { exec: false, .. } => "name",
            Hunk::NameOf { exec: true, .. } => "name+x",
            Hunk::Insert { .. } => "insert",
            Hunk::Order { .. } => "order",
            Hunk::Delete { .. } => "delete",
            Hunk::Revive { .. } => "revive",
        }
    }

    /// How many positions the hunk takes.
    pub fn position_count(&self) -> usize
        ensures { result ≡ position_count self.now }
    {
        match self {
            Hunk::File { .. } | Hunk::Dir { .. } => 2,
            Hunk::NameOf { .. } => 1,
            Hunk::Insert { bytes, .. } => bytes.items().len(),
            Hunk::Order { .. } | Hunk::Delete { .. } | Hunk::Revive { .. } => 0,
        }
    }
}
