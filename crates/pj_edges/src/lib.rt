//! The edges of a channel without their statuses, by source and by target.
//!
//! Contract: an [`EdgeRows`] is a set of rows that two maps hold in two orders. `with` and `without` change both by one row; `next_out`
//! and `next_into` give the rows of a source and of a target in order, as an [`OutWalk`] and an [`IntoWalk`] do by the same words;
//! `own_rows` are the rows that a change gives by itself.
//! Cost: two steps of a map for each row that is added or removed; a look-up takes at most two searches and no memory. A walk searches
//! nothing for a row in the leaf of the one that it found last.
//! Used by: `pj_outline`, `pj_view`, `pj_tables`, `pj_unrecord`, `pj_output`, `table_cases`, `bench_tables`, `table_rows`.
#![tactic(auto)]

mod edges;
mod keys;
pub mod laws;
mod own;
pub mod threads;
mod walks;

pub use edges::EdgeRows;
pub use keys::{IntoRow, OutRow};
pub use own::{inner_row, own_rows};
pub use pj_change::EdgeRow;
pub use pj_rows::{Here, Memory};
pub use walks::{IntoWalk, OutWalk};
