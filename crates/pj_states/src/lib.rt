//! The versions of bytes and names, and which of them survive.
//!
//! Contract: a [`Versions`] has what each `delete` and each `revive` hunk says, by the hunk. `add` and `remove` change it by one hunk,
//! in any order; `with_change` and `without_change` make the table of a set that of the set with a change or without it. `surviving`
//! gives the surviving versions of a point one after the other, `survivors` what survives at all, and `status` the status that follows.
//! Where the hunks are those of a set of changes, these are the versions and the status of the set.
//! Cost: two steps of a map for each hunk that comes or goes, and one for each name under its `by`. A look-up takes no memory, and hunks
//! that cover other points of the owner are not looked at. `status` walks once over the hunks that cover the point, and asks whether the
//! version by a hunk survives only where that can still decide: it ends at the first one that makes the point a zombie, and where no
//! hunk speaks of the change of the point it takes one search of the ranges. A version whose change no hunk has under `by` survives: that is one search.
//! For one that some hunk has, all hunks that cover the point are asked for the name, and each name under their `by`: a search and a
//! step for each of them, with the searches of the ranges of the point beside it. `surviving` and `survivors` go to the end of the walk.
//! Used by: `pj_view`, `pj_tables`, `pj_unrecord`, `table_cases`, `bench_tables`.
#![tactic(auto)]

mod changes;
mod contested;
mod deletion;
pub mod laws;
mod named;
mod survivors;
pub mod threads;
mod versions;

pub use contested::ContestedHunks;
pub use deletion::Deletion;
pub use pj_change::Memory;
pub use pj_ranges::HunkAt;
pub use survivors::Survivors;
pub use versions::Versions;
