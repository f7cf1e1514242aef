//! Edges in the form that tables keep.

use crate::graph::Label;
use crate::point::{Place, Point};
use pj_name::Name;

/// An edge without its status, which is looked up where it is asked for.
#[derive(Clone, Copy, PartialEq, Eq)]
pub struct EdgeRow {
    pub source: Place,
    pub target: Point,
    pub label: Label,
    /// The change that says it.
    pub introducer: Name,
}
