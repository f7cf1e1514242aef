//! The text of a change, both ways: a change is read from its text and written as its one spelling.
//!
//! Contract: `read` gives the change that the text spells, and `Malformed` exactly where no change spells it; `write` gives
//! the one spelling of a change. The reading says what the words and numbers are, and `Change::of` decides whether they are
//! the parts of a change.
//! Cost: time and memory linear in the text, but that needs, knows and falling ranges are compared with each other.
//! Used by: `contest_cases`, `bench_apply`, `table_cases`, `bench_tables`, `plain_rows`, `table_rows`, `calls`, `pj_state`,
//! `pj_repo`, `pj_serve`, `inverse_rows`.

#![tactic(auto)]

mod fields;
mod header;
mod hunks;
pub mod laws;
mod lists;
mod reading;
mod refusal;
mod writing;

pub use reading::{read, read_record};
pub use refusal::ReadRefusal;
pub use writing::write;
