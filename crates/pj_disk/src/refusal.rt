//! What a call of a disk answers where it cannot do its work.

/// A call of a disk failed: its count of faults rose.
#[derive(Clone, Copy, Debug, PartialEq, Eq)]
pub struct Failed;
