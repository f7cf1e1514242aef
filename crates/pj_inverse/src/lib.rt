//! The inverse of a change: the change that undoes it.
//!
//! Contract: `inverse` gives exactly the definition's change, and `Hunk` exactly where a hunk is the first without an inverse;
//! `laws::undone` has what the inverse undoes in a lawful set.
//! Cost: a hunk that deletes looks for a name among the needs of the inverse, of which there are at most 256; the memory is that
//! of the inverse and of a set of its needs.
//! Used by: `pj_state`, `inverse_rows`.

#![tactic(auto)]

mod hunks;
mod inverting;
pub mod laws;
mod needs;
mod refusal;

pub use inverting::inverse;
pub use refusal::InverseRefusal;
