//! What a change adds to the names and inodes of a channel, and takes away from them.
//!
//! Contract: where a tree is that of a lawful list of changes, `with_change` gives the tree of the list with a change more, and
//! `without_change` that of the list with a change less: the rows of the names that it makes, each with its child, and its inodes.
//! Cost: at most two steps of a map for each hunk of the change, whatever the list is. A name of an inode of another change looks that
//! change up among the others, and goes once over its hunks.
//! Used by: `pj_tables`, `pj_unrecord`.
#![tactic(auto)]

pub mod laws;
mod names;
mod rows;

pub use names::{with_change, without_change};
pub use pj_tree::{Inode, NameRow, Tree};
