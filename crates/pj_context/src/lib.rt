//! The context of a change: what its references have to name in the change itself and in its needs, and which changes contest it.
//!
//! Contract: `check` gives exactly the first hunk whose context does not hold (`first_broken`), for all kinds of hunk; `opposes` says
//! whether one change contests a deletion by another, and what it asks is public: what numbers and references mean, who are strangers,
//! whether a hunk works on what is deleted.
//! Cost: each reference goes through the hunks of the change that it names, and each position of a range through those of the
//! changes under `by`; `opposes` goes through the hunks of one change; no call takes memory.
//! Used by: `pj_plain`, `pj_contest`, `pj_output`, `pj_channel`.

#![tactic(auto)]

mod contests;
mod contexts;
pub mod laws;
mod range;
mod references;
mod scope;

pub use contests::{are_strangers, base_of, child_of, deleted_at, has_contesting, opposes};
pub use contexts::{Missing, check};
pub use references::{is_at, is_within, means, name_of, own_point, place_of};
