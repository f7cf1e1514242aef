//! An office that also opens stores: files on which a repository is kept.
//!
//! Contract: the trait `Bureau` says what `store` gives, and why it gives none; `MemBureau` is one in memory, whose stores are
//! disks in memory.
//! Cost: `MemBureau` copies the bytes of a store when it opens it.
//! Used by: no crate yet.
#![tactic(auto)]

mod bureau;
mod mem_bureau;

pub use bureau::Bureau;
pub use mem_bureau::MemBureau;
