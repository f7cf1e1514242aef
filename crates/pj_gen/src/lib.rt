//! The scripts of the large run, from a number.
//!
//! A large run has a prelude, from one to eight sessions and a closing. Its first change makes eight files. Each later change
//! is of one of eight lines of changes; what it does to which file is drawn from the number.
//!
//! Contract: `scripts` gives exactly the scripts of the definitions, byte for byte; `summary` writes the summary of every number
//! for whose sets the given digests stand. The module `laws` says that the scripts are requests to their ends, and that their
//! texts are those of changes.
//! Cost: time and memory linear in the scripts, some 800 bytes for a change; each session's script goes through the draws of
//! all changes.
//! Used by: `pj_load`, `gen_cases`.

#![tactic(auto)]

mod changes;
mod draws;
mod hunks;
pub mod laws;
mod lines;
mod making;
mod names;
mod parts;
mod pieces;
mod requests;
mod telling;
mod zero;

pub use making::{MOST_CHANGES, MOST_SESSIONS, scripts};
pub use parts::{Parts, Scripts};
pub use telling::{Found, line_count, summary};
