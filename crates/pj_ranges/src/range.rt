//! Ranges of positions and the hunks that speak of them, as keys of maps.

ghost use Rattle.std.specs.Prelude.{◌≡◌};
ghost use Rattle.pj_ranges.specs.Over as over;

use pj_change::Point;
use pj_name::Name;
use pj_pmap::{Memory, Share};

/// A hunk of a change.
#[derive(Clone, Copy, PartialEq, Eq, PartialOrd, Ord)]
pub struct HunkAt {
    pub change: Name,
    /// Its number, counted from 0.
    pub hunk: u32,
}

impl Share for HunkAt {
    ghost shown = { λ k. k };

    fn share(&self) -> Result<HunkAt, Memory> {
        Ok(*self)
    }
}

/// A range of positions of a change, and the hunk that speaks of it.
///
/// Ranges are ordered by their fields in turn.
#[derive(Clone, Copy, PartialEq, Eq, PartialOrd, Ord)]
pub struct RangeAt {
    /// The change whose positions they are.
    pub owner: Name,
    /// The greatest power of 2 that is not above their number.
    pub unit: u32,
    /// The first position.
    pub start: u32,
    /// The one past the last.
    pub end: u32,
    pub by: HunkAt,
}

impl RangeAt {
    /// Whether the point is one of its positions.
    pub fn has_point(&self, at: Point) -> bool
        ensures { result ≡ over.has_point self.now at }
    {
        self.owner == at.change && self.start <= at.offset && at.offset < self.end
    }
}

impl Share for RangeAt {
    ghost shown = { λ k. k };

    fn share(&self) -> Result<RangeAt, Memory> {
        Ok(*self)
    }
}
