//! Which `delete` hunks of a set of changes are contested, and by how many changes.
//!
//! Contract: a [`Contests`] is the table of a set: `counts` has exactly the contested hunks, each with the number of changes of the set
//! that contest it, whatever the order in which changes came and went. `hits` and `hits_without` give exactly the hunks of the others
//! that a change contests which is to come or to go, and with these `with` and `without` make the table of a set that of the set with
//! the change or without it. No change of the set may be in need of that one, which is so wherever changes keep their order. A table
//! that changes is given up: whoever keeps it shares it before.
//! Cost: at most four steps of a map for each hunk and each reference of the change, and for each pair of a contested hunk and a change
//! that contests it that comes or goes. What is looked at are the deletions that have one of the change's ups, or a name whose child it
//! builds on, and the rows of the changes that have an up in one of its ranges, or build on the child of a name that it deletes; a pair
//! is tested once, and no position of a range is walked. A run of deletions of text of one change takes one look-up of that change; the
//! changes that delete are looked up only where a change of the set knows others beside its needs, and then once for a run of deletions
//! by one. `contested` is one look-up, and takes no memory.
//! Used by: `pj_view`, `contest_cases`, `pj_tables`, `pj_unrecord`.
#![tactic(auto)]

mod contests;
mod distinct;
mod given;
mod hits;
mod indexes;
mod keys;
pub mod laws;
mod marks;
mod own;
mod owners;
mod rivals;
mod search;
mod starts;
mod strangers;

pub use contests::Contests;
pub use hits::hunk_at;
pub use marks::{BaseMark, ChildMark, UpMark};
pub use pj_ranges::HunkAt;
pub use pj_rows::{Count, Memory};
