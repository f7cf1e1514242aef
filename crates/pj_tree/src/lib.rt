//! The names and inodes of a set of changes, and the walk over them that a print follows.
//!
//! Contract: `with`, `without`, `with_inode` and `without_inode` give exactly the changed lists; `walk` gives the entries of a
//! print in their order, without their texts (`IsWalk`).
//! Cost: a change is one change of a persistent map, in one tick; the walk goes once over all names and inodes, with a binary
//! search for each, and its memory is that of them and of the paths that it gives.
//! Used by: `pj_names`, `pj_plain`, `pj_tables`, `pj_unrecord`, `pj_output`, `calls`.

#![tactic(auto)]

mod inodes;
mod keys;
mod lives;
mod pairings;
mod paths;
mod row;
mod scans;
mod tree;
mod walk;
mod walker;

pub use lives::Lives;
pub use row::{Inode, NameRow};
pub use tree::Tree;
