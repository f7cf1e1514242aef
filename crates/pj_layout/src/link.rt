//! The two kinds of link by which sets of classes are parted.

/// Which two classes are linked.
#[derive(Clone, Copy)]
pub enum Link {
    /// Two of which one is before the other.
    Ordered,
    /// Two of which neither is before the other.
    Unordered,
}
