//! The machine: what one thread replies to each command, the journal of what it enters, and the states that a journal leads to.
//!
//! Contract: `IsAnswer` says, at each journal and for each command, which reply comes and which write is entered, the first
//! refusal whose cause stands before all others; `Replier` is what answers so, call by call; the module `laws` has that there
//! is one answer, that a write was entered exactly where its reply says so, and that a legal journal leads to one sound state.
//! The bodies of `graph`, `log`, `channels` and `journal` are the bytes of `graph_text`, `log_text`, `channels_text` and
//! `journal_text`.
//! Cost: a body takes time and memory linear in its bytes; the name of a channel and the line of an entry take no memory.
//! Used by: `pj_wire`, `request_cases`, `bench_wire`, `pj_gen`, `pj_load`, `pj_session`, `pj_stored`, `pj_state`, `state_rows`,
//! `pj_repo`, `repo_cases`, `bench_repo`, `session_cases`, `pj_serve`, `serve_cases`.
#![tactic(auto)]

mod channel_name;
mod command;
mod entry_lines;
mod graphs;
mod journal;
pub mod laws;
mod limits;
mod listings;
mod replier;
mod reply;
mod stored;
#[cfg(test)]
mod tests;

pub use channel_name::ChannelName;
pub use command::{Command, Write};
pub use entry_lines::{journal_body, journal_line};
pub use graphs::graph_body;
pub use journal::{Entries, Entry};
pub use limits::Limits;
pub use listings::{ChannelCount, channels_body, log_body};
pub use replier::Replier;
pub use reply::{Numbered, Refusal, Reply};
pub use stored::Stored;
