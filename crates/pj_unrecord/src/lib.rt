//! The tables of a lawful list of changes without one of them.
//!
//! Contract: [`removed`] takes a change that none of the list needs out of the tables of the list, and gives the tables of the others
//! in their order, as if it had never been applied. The tables of the list are lent and stay as they were: each part is shared before
//! it changes.
//! Cost: at most 64 steps for each hunk, reference, need and name under a `by` of the change, for each pair of a contested hunk and a
//! change that contests it that goes, and for the change itself. A step is one change of a persistent map, by which a row comes, goes
//! or is replaced. Look-ups are not counted, nor is the making of the rows across dead text, which walks the dead sets that the
//! change touches, as `pj_dead` and `pj_view` say; the list is not gone through.
//! Used by: `pj_channel`.
#![tactic(auto)]

mod removal;

pub use pj_tables::Memory;
pub use removal::removed;
