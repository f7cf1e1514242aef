//! Why a log was not restored.

/// Why a log was not restored. The disk comes back.
#[derive(Drop)]
pub enum RestoreRefusal<K> {
    /// This entry, counted from 1, is the first that is broken or was not accepted.
    Foreign { entry: u64, store: K },
    /// The disk failed: its count of faults rose.
    Store(K),
    /// There was no memory for a string, or to answer it.
    Memory(K),
}
