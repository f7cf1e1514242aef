//! Pseudo rows as the keys of a map.

use pj_change::Point;
use pj_pmap::{Memory, Share};

/// A row across a dead set, from the last point of a live vertex to the first point of one.
///
/// Rows are ordered by the source, then by the target, then by the least point of the set.
#[derive(Clone, Copy, PartialEq, Eq, PartialOrd, Ord)]
pub struct PseudoRow {
    pub source: Point,
    pub target: Point,
    /// The least point of the dead set.
    pub least: Point,
}

impl Share for PseudoRow {
    ghost shown = { λ k. k };

    fn share(&self) -> Result<PseudoRow, Memory> {
        Ok(*self)
    }
}
