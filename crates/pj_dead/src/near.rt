//! The directions in which a search follows edges.

/// Which way a search goes.
#[derive(Clone, Copy)]
pub enum Way {
    /// Along the edges.
    Ahead,
    /// Against the edges.
    Back,
    /// Whichever way the edges lead.
    Either,
}
