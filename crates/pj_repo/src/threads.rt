//! A repository is shared by threads, and each pass is sent to its thread. Nothing runs: that it is proved tells so.
use crate::closed::{Closed, RepoNotAll};
use crate::locked::LockedState;
use crate::repo::Repo;
use pj_book::{Keeps, Pass};

fn crosses<T: Send + Sync>() {}

fn is_sent<T: Send>() {}

/// A repository may be shared and sent.
pub fn repo_crosses<N: Keeps<LockedState> + Send + Sync>() {
    crosses::<Repo<N>>();
    crosses::<Closed>();
}

/// A pass may be sent.
pub fn pass_is_sent<N: Keeps<LockedState> + Send + Sync>() {
    is_sent::<Pass<LockedState, N>>();
    is_sent::<RepoNotAll<N>>();
}
