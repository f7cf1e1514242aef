//! What a repository leaves.
use crate::locked::LockedState;
use crate::repo::Repo;
use pj_book::{Keeps, Pass};
use pj_machine::{ChannelName, Entries};
use pj_state::Standing;
use std::collections::BTreeMap;

/// What a repository leaves.
#[derive(Drop)]
pub struct Closed {
    /// The entries of its journal.
    pub entries: Entries,
    /// The channels that the entries lead to, each with the number of its last entry.
    pub channels: BTreeMap<ChannelName, Standing>,
}

/// The passes are not those made, each once. All that was passed comes back.
#[derive(Drop)]
pub struct RepoNotAll<N: Keeps<LockedState>> {
    /// The repository, which goes on as before.
    pub repo: Repo<N>,
    /// The passes, in their order.
    pub passes: Vec<Pass<LockedState, N>>,
    /// How many passes were made.
    pub made: u64,
}
