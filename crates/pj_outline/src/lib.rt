//! The outline of the graph of a channel: where its text is cut, and which edges it has, without statuses.
//!
//! Contract: an [`Outline`] is a table of cuts and one of edges. Of a lawful list of changes, `with_change` gives the outline with a
//! change more, and `without_change` that with a change less: its blocks, its cuts and its own rows come or go, and so do the rows inside
//! blocks where the first cut comes or the last one goes. Rows keep their sources, and a cut that another change makes stays.
//! Cost: a step for each hunk, and at most three for each cut and two for each row of the change, whatever the list is.
//! Used by: `pj_view`, `pj_tables`, `pj_unrecord`.
#![tactic(auto)]

mod inner;
pub mod laws;
mod outline;

pub use outline::Outline;
pub use pj_cuts::Cuts;
pub use pj_edges::{EdgeRow, EdgeRows};
