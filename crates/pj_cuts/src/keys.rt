//! What the maps of the table have: points as keys, and the lengths of blocks.

use pj_change::Point;
use pj_pmap::{Memory, Share};

/// The point before which cuts stand, or with which a block begins.
#[derive(Clone, Copy, PartialEq, Eq, PartialOrd, Ord)]
pub struct CutAt {
    pub at: Point,
}

impl Share for CutAt {
    ghost shown = { λ k. k };

    fn share(&self) -> Result<CutAt, Memory> {
        Ok(*self)
    }
}

/// The length of a block, in positions.
#[derive(Clone, Copy, PartialEq, Eq)]
pub struct Length {
    pub len: u32,
}

impl Share for Length {
    ghost shown = { λ n. n };

    fn share(&self) -> Result<Length, Memory> {
        Ok(*self)
    }
}
