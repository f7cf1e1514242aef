//! A disk over one file of the system, on which a log is kept.
//!
//! Contract: `FileDisk` is a `Disk`: each failure raises its count, a read gives no more bytes than were asked for, and a write
//! that would reach 2^63 bytes fails. It tells nothing of its bytes, since nothing can be proved of what a real file holds. That
//! it does what `Disk` says is trusted: a write that returned is seen by reads, and what was written before a `sync` that
//! returned outlasts a crash. `open_file_disk` opens a regular file that no other process has locked so, or makes one.
//! Cost: a call is one call of the system, but a read that comes to an end early or is parted. No memory is taken.
//! Used by: no crate yet.
#![tactic(auto)]

mod file_disk;
mod opening;

pub use file_disk::FileDisk;
pub use opening::{FileRefusal, open_file_disk};
