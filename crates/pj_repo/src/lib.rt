//! A repository behind its lock: many sessions, one journal.
//!
//! A `Repo` has the state of a repository under the lock of a book, and gives out passes. Each session answers its commands
//! through a pass of its own. A text is read before the lock is taken; a body is worked out after it was left, the texts of
//! a print side by side; an application and an unrecord are worked out in between and installed where the channel had no
//! entry since.
//!
//! Contract: `Repo` is a `Replier`: each call is one call of its pass, and the reply numbers the end of the journal that the
//! pass has then seen and is what one thread replies there. `answer_gated` has the same contract. `finish` gives the entries
//! of the passes, legal under the limits of `start`, with the channels that they lead to; a refusal hands all back.
//! Cost: under the lock a command looks up a channel or a change, and enters at most one write; `pull`, `uproot`, `channels`,
//! `journal` and the second try of an application or an unrecord are worked out whole under it. `finish` takes no memory.
//! Used by: `pj_load`, `repo_cases`, `bench_repo`, `pj_serve`.
#![tactic(auto)]

mod body;
mod change;
mod closed;
mod gate;
mod locked;
mod repo;
mod share;
pub mod threads;
mod work;

pub use closed::{Closed, RepoNotAll};
pub use gate::{Gate, OpenGate};
pub use locked::LockedState;
pub use repo::Repo;
