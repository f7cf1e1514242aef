//! The top call with kept repositories: all that the program does with what is handed in.
//!
//! `run_kept` takes the words of the command line and an office that opens stores too. `keep PATH`, also written `keep PATH one`,
//! restores the repository of the store under the path and answers the requests of the input. All other words are those of
//! `pj_serve`.
//!
//! Contract: `run_kept` keeps all that `KeptPromises` says, for every bureau, whatever it gives and however often it fails: for
//! `keep` what `HasLived` of `pj_kept` says of the life of a repository, over the store, the input and the output that were opened
//! in this order; for all other words `Promises` of `pj_serve`, and no store.
//! Cost: that of `pj_kept` and `pj_serve`.
//! Used by: `pijuld`.
#![tactic(auto)]

mod finish;
mod keep;
mod opening;
mod top;
mod words;

pub use finish::KeptFinish;
pub use top::run_kept;
