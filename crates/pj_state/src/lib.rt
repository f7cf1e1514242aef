//! The state of a repository without its lock, and what one thread replies from it.
//!
//! Contract: a `State` is a legal journal under its limits, with the store and the channels that the journal leads to.
//! `opening` has no entry; `find` and `standing` tell what the journal leads to. `answer` gives to each command the machine's
//! reply at the journal, and the state afterwards is that of the longer journal, one entry more where a write was accepted and
//! as it was everywhere else; each command is a call of its own too. `install` enters a channel that was worked out elsewhere.
//! What is worked out on a channel or a change alone (`applied`, `graph_reply` and their kin) is the same inside a state and
//! outside. Where memory was wanting the state is as it was.
//! Cost: a change of the store takes a few steps in a hash map, which has room from the beginning for all changes that the limits
//! allow, as the journal has for its first 65,536 entries; past these it is moved when it is full. A fork
//! shares a channel in constant time; no command but `journal` goes through the journal, and none but `channels` through the channels.
//! Used by: `pj_load`, `state_rows`, `pj_repo`, `repo_cases`.
#![tactic(auto)]

mod answer;
mod reads;
mod replies;
mod standing;
mod state;
mod store;
mod store_key;
mod uncounted;
mod writes;

pub use replies::{
    applied, get_reply, graph_reply, inverse_reply, log_reply, print_reply, print_reply_in_threads,
    unrecorded, uprooted,
};
pub use standing::Standing;
pub use state::State;
