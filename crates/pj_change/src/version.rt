//! Versions of bytes and names: the owner's, and those of changes that delete or revive.

use pj_name::Name;

/// A version of a byte or a name: whose word it is whether the byte or name is alive or deleted.
#[derive(Clone, Copy, PartialEq, Eq)]
pub enum Version {
    /// Its owner's, which is alive.
    Owner,
    /// That of a change which deletes it.
    Deleted {
        change: Name,
        /// The number of the `delete` hunk that covers it, counted from 0.
        hunk: u32,
    },
    /// That of a change which revives it, which is alive.
    Revived {
        change: Name,
        /// The number of the `revive` hunk that covers it, counted from 0.
        hunk: u32,
    },
}
