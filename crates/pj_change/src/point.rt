//! Positions of changes, and how hunks refer to them.

use pj_name::Name;

/// A position of a change.
///
/// Points are ordered by the change's name, then by the offset.
#[derive(Clone, Copy, PartialEq, Eq, PartialOrd, Ord)]
pub struct Point {
    pub change: Name,
    /// The position, counted from 0.
    pub offset: u32,
}

/// The root, or a point. The root is before each point.
#[derive(Clone, Copy, PartialEq, Eq, PartialOrd, Ord)]
pub enum Place {
    Root,
    At(Point),
}

/// A reference of a hunk: the root, or a position of this change or of one of its needs.
///
/// References are ordered with the root first, then by the owner's number, then by the offset.
#[derive(Clone, Copy, PartialEq, Eq, PartialOrd, Ord)]
pub enum Ref {
    Root,
    At {
        /// 0 for the change itself, and k for its k-th need.
        owner: u32,
        /// The position in that change, counted from 0.
        offset: u32,
    },
}
