//! The life of a repository that is kept on a disk: it is restored by pass 1, and then pass 2 speaks.
//!
//! Contract: `keep_repository` leaves a legal journal, whose first entries are the writes of the stored requests, and the session
//! of pass 2; at each moment each image of the disk stores the list that it had, and behind it a prefix of what pass 2 entered
//! (`HasKept` of `pj_keep`). Where the disk was not restored it says why (`HasLeftOff`), and nothing was taken or given.
//! Cost: that of restoring (`pj_stored`), and of one session, each accepted request of which takes one append.
//! Used by: no crate yet.
#![tactic(auto)]

mod hold;
mod journals;
mod life;

pub use hold::keep_repository;
pub use life::{Ending, Life};
