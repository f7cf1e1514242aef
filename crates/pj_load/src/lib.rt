//! The large run: its sessions over one repository, and its summary.
//!
//! The prelude runs alone; then the sessions run in threads, from passes that have seen it; then the closing prints every
//! channel. Each session reads its script. What is seen of its replies is kept and nothing else: whether each request was
//! entered, and the digest of each print.
//!
//! Contract: `large_run` says that the journal is legal, how the sessions end, and, where it has a summary, that the entries of
//! each pass are the writes of its script and that the summary is that of the number. `journal_of` closes a repository with all
//! its passes.
//! Cost: the scripts, those of the sessions twice, a pass, an end and a thread for each session, all before the first one, and the summary behind the last.
//! A print is worked out whole, hashed and let go before the next one.
//! Used by: `pj_serve`.
#![tactic(auto)]

mod journal;
pub mod laws;
mod reading;
mod run;
mod seats;
mod seeing;
mod speaking;
mod stages;
mod telling;

pub use journal::journal_of;
pub use run::{Loaded, large_run};
