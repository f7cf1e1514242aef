//! A log of byte strings in one file, which a crash at any moment leaves readable, with every string that was acknowledged.
//!
//! Contract: a file stores a list of strings, or has no reading. `Log::open` keeps that list, and refuses exactly a file with
//! another header; `read` gives the strings in order, and refuses exactly where the gate is open and no entry is there;
//! `append` adds a string: at each moment each image of the disk stores the list of before, with the new string or without,
//! and after its Ok with it. A fault is answered only where the disk's count rose. The law `torn_tail_never_returns` says that
//! what a crash left in the middle of an append stands behind no later string.
//! `GroupLog` appends in groups: strings are staged, and then stored all at once, so that each image has all of a group or
//! none.
//! Cost: an opening takes at most four calls of the disk, a read three and an append four, of which two are syncs; a string
//! of n bytes takes n + 9 bytes of the file. A staged string takes at most six writes, and a group two syncs and one write.
//! Memory is taken by `read`, for the string, and by `Frame::of`.
//! Used by: `disk_cases`, `pj_stored`.
#![tactic(auto)]

mod frame;
mod group;
mod head;
pub mod laws;
mod log;
mod refusal;
mod staging;
mod steps;

pub use frame::Frame;
pub use group::GroupLog;
pub use log::Log;
pub use pj_memory::Memory;
pub use refusal::{LogRefusal, OpenRefusal, StoreFault};
