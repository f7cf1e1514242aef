//! Which live text is joined across dead text, as rows that are made anew only where something was touched.
//!
//! Contract: the rows of a [`View`] lead from the last point of a live vertex to the first point of one, across one connected set of
//! dead vertices, which its least point names. [`Pseudo::refresh`] gives exactly the rows of a later view from those of an earlier one
//! and a point of each dead vertex in which the two differ; `laws` ties them to the pseudo rows of a set of changes.
//! Cost: `refresh` walks each dead set that has a touched vertex, in either view, and no other one: once whichever way its edges
//! lead, and once along them, or against them where that is less, from each vertex at which rows come in or go out; and one step of a
//! map for each row that is taken away or made. It asks each view once for the first point of the vertex of each touched point, at most
//! once for the neighbours of a dead vertex and whether a vertex is dead, which it keeps until it ends, for the last point of a live
//! vertex at each edge that enters a set, and never for the neighbours of a live one. `next` takes at most two searches and no memory.
//! Used by: `pj_view`, `dead_cases`, `bench_dead`, `pj_tables`, `pj_unrecord`, `pj_output`.
#![tactic(auto)]

mod across;
mod found;
mod known;
pub mod laws;
mod near;
mod pseudo;
mod row;
mod search;
mod touched;
mod view;

pub use found::{Found, distinct, with_points};
pub use pj_rows::{Here, Memory};
pub use pseudo::Pseudo;
pub use row::PseudoRow;
pub use touched::touched_rows;
pub use view::View;
