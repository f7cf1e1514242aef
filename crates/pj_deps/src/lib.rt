//! Which changes are held, and which of them need which.
//!
//! Contract: a [`Deps`] is the set of the held changes, and the pairs of a need and a held change that has it. `with` and `without`
//! make the table of a set that of the set with a change or without it; `missing`, `holder` and `next_holder` give the least name.
//! Cost: one step of a map for the change and one for each of its needs; a look-up takes no memory, and one search: `holder` two, and
//! `missing` one for each need.
//! Used by: `contest_cases`, `pj_tables`, `pj_unrecord`, `pj_channel`, `table_cases`, `bench_tables`, `table_rows`.
#![tactic(auto)]

mod deps;
mod keys;
pub mod threads;

pub use deps::Deps;
pub use keys::{HeldBy, HeldName};
pub use pj_rows::{Here, Memory};
