//! The state under the lock.
use pj_book::Journaled;
use pj_machine::Write;
use pj_state::State;
use std::marker::Model;

/// How many words lie between a lock and the state that it has: two cache lines.
pub(crate) const GAP: usize = 16;

/// The state of a repository, as the lock has it. Contracts see what they see of the state.
#[derive(Drop)]
pub struct LockedState {
    /// Nothing. It keeps the state off the cache lines of the lock itself, which other threads try while one works.
    pub(crate) gap: [u64; GAP],
    pub(crate) state: State,
}

impl Model for LockedState {
    ghost use Rattle.pj_state.specs.Kept.{Kept};

    ghost Value = { Kept };

    ghost view = { λ locked. locked.state };
}

impl Journaled for LockedState {
    ghost use Rattle.pj_repo.specs.Views.{book_journal};

    type Content = Write;

    ghost journal = { λ locked. book_journal locked.journal };

    fn count(&self) -> u64 {
        self.state.len()
    }
}
