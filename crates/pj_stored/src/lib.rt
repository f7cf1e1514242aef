//! A log of the requests that a repository accepted, from which the repository is restored; each of them is on the disk before
//! its reply may be given.
//!
//! Contract: `open_store` opens the file of a disk and answers each stored request in the restoring pass, over `Stored::open`;
//! it refuses a file only where the header is another one, or an entry is broken or not accepted. As a `Step` a `Stored` answers
//! a command, and appends it where it was accepted. `kept_session` is a session over it: at each moment each image of the disk
//! stores the list of before, and behind it a prefix of the accepted requests; at each end but `StoreFault` all of them. The
//! module `laws` says that restored strings are the requests of one legal journal, and that what a crash leaves of such a
//! journal is restored as a prefix of it.
//! Cost: an accepted request is written into memory before it is answered, and then takes one append of the log, of four calls
//! of the disk. Restoring takes for each string three calls of the disk, its memory, and what its answer takes.
//! Used by: no crate yet.
#![tactic(auto)]

mod calls;
mod frames;
mod kept;
pub mod laws;
mod numbers;
mod refusal;
mod restoring;
mod store;
mod stored;

pub use kept::kept_session;
pub use pj_change::Memory;
pub use refusal::RestoreRefusal;
pub use store::{StoreRefusal, open_store};
pub use stored::Stored;
