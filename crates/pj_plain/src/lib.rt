//! The plain channel: a list of changes from which everything is computed by plain loops.
//!
//! Contract: a `PlainChannel` is a lawful list of changes, and each call answers as the definitions of `pj_change` say, so it
//! is the first body of a channel and the yardstick of a faster one.
//! Cost: a call that changes the list copies it and goes through it for each need; the status of a position goes through all
//! changes, so a graph or a print takes time at least quadratic in the hunks of the set.
//! Used by: `plain_rows`, `table_rows`, `calls`, `inverse_rows`.

#![tactic(auto)]

mod channel;
mod contested;
mod covers;
mod cuts;
mod edges;
mod file_text;
mod graph;
mod links;
mod listing;
mod live_text;
mod names;
mod one_text;
mod pieces;
mod print;
mod records;
mod runs;
mod status;
mod uproot;
mod versions;
mod vertices;
mod walk;

pub use channel::PlainChannel;
pub use one_text::have_one_text;
pub use runs::{Replayed, replay};
