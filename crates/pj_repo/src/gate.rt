//! What stands between the halves of a call.

/// Is called between the halves of an answer that has two: after a change of a channel was worked out outside the lock, and
/// before the lock is taken again to install it.
pub trait Gate {
    fn between(&self);
}

/// A gate that does nothing.
#[derive(Clone, Copy)]
pub struct OpenGate;

impl Gate for OpenGate {
    fn between(&self) {}
}
