//! The entries of a print, without the texts of files.

use crate::lists::Bytes;
use crate::point::Point;
use std::marker::Model;

/// What an entry of a print is.
#[derive(Clone, Copy, PartialEq, Eq)]
pub enum StepKind {
    /// A directory.
    Dir,
    /// A file, with its text.
    File,
    /// A file or a directory that has had an entry before.
    Same,
}

/// How an entry of a print was reached.
#[derive(Clone, Copy, PartialEq, Eq)]
pub enum StepWord {
    /// By a name that is alive.
    Alive,
    /// By a name that is a zombie, and by none that is alive.
    Zombie,
    /// By no name: it has content and each of its names is dead.
    Orphan,
    /// By no path from the root, though it has a name that is not dead.
    Adrift,
}

/// An entry of a print, without its text.
#[derive(Drop)]
pub struct Step {
    pub kind: StepKind,
    pub word: StepWord,
    pub inode: Point,
    pub path: Bytes,
    /// Whether the entry is an executable file.
    pub exec: bool,
}

/// The entries of a print, in order.
#[derive(Drop)]
pub struct Walk {
    items: Vec<Step>,
}

impl Model for Walk {
    ghost use Rattle.std.specs.Prelude.{List};
    ghost use Rattle.pj_change.specs.declared.print.Step.{Step};

    ghost Value = { List Step };

    ghost view = { λ b. b.items.items };
}

impl Walk {
    ghost use Rattle.std.specs.Prelude.{◌≡◌};

    /// The list of these entries.
    pub fn of(items: Vec<Step>) -> Walk
        ensures { result ≡ items.items }
    {
        Walk { items }
    }

    /// Its entries.
    pub fn items(&self) -> &[Step]
        ensures { result.now ≡ self.now }
    {
        self.items.as_slice()
    }
}
