//! Ranges of positions of changes, and which of them have a point.
//!
//! Contract: a [`Ranges`] is a set of ranges, each of a hunk. `with` and `without` change it by one range; a [`Walk`] gives the
//! ranges that have a point one after the other, and no other.
//! Cost: one step of a map for each range that comes or goes. A range is kept once, under the greatest power of 2 that is not above its
//! length: one of the power u that has a point begins in the 2u positions up to it, and all that begin in the nearer u of them have it.
//! So a walk over the ranges of a point takes at most two look-ups for each power in use, one for each range that has the point, and one
//! for each position in the window of a power at which ranges begin that end before the point. One that stays in a leaf of the map
//! searches no node. It takes no memory.
//! Used by: `pj_contest`, `pj_states`, `pj_view`, `contest_cases`, `pj_tables`.
#![tactic(auto)]

mod range;
mod ranges;
mod units;
mod walk;
mod windows;

pub use pj_rows::{Here, Memory};
pub use range::{HunkAt, RangeAt};
pub use ranges::Ranges;
pub use walk::Walk;
