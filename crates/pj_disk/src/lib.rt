//! A file as a log sees it: what a read gives, and the images that a crash may leave; and a disk in memory, for tests.
//!
//! Contract: a disk has a written meaning, in the bytes that a read gives, in the images that a crash now may leave, and in
//! those at any moment since a named one, and a count of faults that never falls; it answers a failure only where the count
//! rose. A disk may tell what it holds: the clauses on bytes and images hold where it does, those on causes always.
//! Cost: in memory a call takes time linear in the bytes that it moves; the first write after a sync copies the file, and
//! what was synced each time is kept.
//! Used by: `pj_journal`, `disk_cases`, `pj_stored`.
#![tactic(auto)]

mod disk;
mod mem_disk;
mod refusal;
mod stretch;

pub use disk::Disk;
pub use mem_disk::MemDisk;
pub use pj_memory::Memory;
pub use refusal::Failed;
