//! Where the text of a channel is cut, counted, and the vertices between the cuts.
//!
//! Contract: a [`Cuts`] is a count for each point and a length for each first point of a block. `add` and `remove` change one count by
//! one, `add_block` and `remove_block` one length; `with_change` and `without_change` make the table of a set that of the set with a
//! change or without it. `vertex_of` and `next` read vertices off the table, `start_of` and `end_of` where one begins and where it ends.
//! Cost: one step of a map for each cut and each block that is added or removed; a look-up takes at most five searches and no memory,
//! one of the two ends of a vertex at most two, and both at most three: an end of the block right beside the point takes none of its own.
//! Used by: `pj_outline`, `pj_view`, `pj_tables`, `pj_unrecord`, `pj_output`, `table_cases`, `bench_tables`, `table_rows`.
#![tactic(auto)]

mod changes;
mod cuts;
mod keys;
pub mod laws;
mod points;
pub mod threads;

pub use cuts::Cuts;
pub use keys::{CutAt, Length};
pub use pj_rows::{Count, Memory};
pub use points::cut_points;
