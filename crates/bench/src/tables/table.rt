//! Which table is timed, and what all of them can do.

use pj_pmap::{Memory, Steps};
use std::alloc::Global;
use std::sync::ledger::Ledger;

/// Which table is worked on.
#[derive(Clone, Copy)]
pub enum Kind {
    Cuts,
    Edges,
    Deps,
    Versions,
}

impl Kind {
    /// The kind that a word names.
    pub fn named(word: &str) -> Option<Kind> {
        match word {
            "cuts" => Some(Kind::Cuts),
            "edges" => Some(Kind::Edges),
            "deps" => Some(Kind::Deps),
            "versions" => Some(Kind::Versions),
            _ => None,
        }
    }
}

/// A table that is given up for the one with a row more.
pub trait Table: Sized + Drop {
    /// What is added to it.
    type Row: Drop;

    /// No row.
    fn none() -> Self;

    /// The row of a number.
    fn row(alloc: Global, number: u32) -> Result<Self::Row, Memory>;

    /// The table with the row too.
    fn with_row<L: Ledger>(
        self,
        alloc: Global,
        row: &Self::Row,
        steps: &mut Steps<L>,
    ) -> Result<Self, Memory>;

    /// Whether the row is found.
    fn has_row(&self, row: &Self::Row) -> bool;
}
