//! The rows of the indexes, and the bounds of walks over them.
//!
//! A row says what stands at a place, and by whom. Rows have a `by`, and `past` false; the other marks bound a walk over the rows of a
//! place. Each index has a type of its own and no generic one: whoever holds an index pays for all types below it.

use pj_change::Point;
use pj_name::Name;
use pj_pmap::{Memory, Share};

/// A row of the index by ups: a point, and the change that inserts after it.
#[derive(Clone, Copy, PartialEq, Eq, PartialOrd, Ord)]
pub struct UpMark {
    pub at: Point,
    pub by: Option<Name>,
}

impl Share for UpMark {
    ghost shown = { λ k. k };

    fn share(&self) -> Result<UpMark, Memory> {
        Ok(*self)
    }
}

/// A row of the index by bases: a file or a parent, and the change that builds on it.
#[derive(Clone, Copy, PartialEq, Eq, PartialOrd, Ord)]
pub struct BaseMark {
    pub at: Option<Point>,
    pub past: bool,
    pub by: Option<Name>,
}

impl Share for BaseMark {
    ghost shown = { λ k. k };

    fn share(&self) -> Result<BaseMark, Memory> {
        Ok(*self)
    }
}

/// A row of the index by children: a child, and a name that it has.
#[derive(Clone, Copy, PartialEq, Eq, PartialOrd, Ord)]
pub struct ChildMark {
    pub at: Option<Point>,
    pub past: bool,
    pub by: Option<Point>,
}

impl Share for ChildMark {
    ghost shown = { λ k. k };

    fn share(&self) -> Result<ChildMark, Memory> {
        Ok(*self)
    }
}
