//! Why a repository was not restored.

/// Why a repository was not restored from its store.
#[derive(Clone, Copy, Debug, PartialEq, Eq)]
pub enum Stop {
    /// The store has no list of requests that are accepted one after the other.
    Foreign,
    /// The store failed: its count of faults rose.
    Store,
    /// There was no memory.
    Memory,
}
