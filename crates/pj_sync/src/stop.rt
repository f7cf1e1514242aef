//! Why no reply was received.

/// Why no reply was received.
#[derive(Clone, Copy, Debug, PartialEq, Eq)]
pub enum Stop {
    /// The bytes that stand for the reply are none that may come.
    Strange,
    /// The input ended where the reply was due.
    Cut,
    /// As many bytes were taken as may be, and the reply is not whole.
    Spent,
    /// The source failed.
    ReadFault,
    /// There was no memory.
    Memory,
}
