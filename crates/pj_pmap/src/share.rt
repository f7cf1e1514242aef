//! What keys and values must allow so that maps can share them.

ghost use Rattle.std.specs.Prelude.{◌≡◌, IfOk};
ghost use Rattle.std.specs.Ptr.{null_ptr};
ghost use Rattle.std.specs.Arc.{arc_value};

use pj_memory::Memory;
use std::sync::Arc;

/// A value that a second owner may hold.
///
/// `shown` is what contracts see of the value: all of it, but for where it lies in memory.
/// For a plain value it is `λ x. x`.
pub trait Share: Sized + Drop {
    ghost shown: { Self → Self };

    /// The value for a second owner, equal in all that is shown.
    fn share(&self) -> Result<Self, Memory>
        ensures { IfOk result (λ s. shown s ≡ shown self.now) };

    /// Whether the value can have one more owner. All values of a list are asked before any of them gets one: the waits for counts
    /// that lie in no cache overlap then, and those of raising them would not.
    fn has_room(&self) -> bool {
        true
    }
}

impl<T: Drop> Share for Arc<T> {
    ghost shown = { λ a. record { ptr = null_ptr; value = arc_value a } };

    fn share(&self) -> Result<Arc<T>, Memory> {
        Arc::try_clone(self).map_err(|_| Memory)
    }

    fn has_room(&self) -> bool {
        Arc::strong_count(self) < usize::MAX / 2
    }
}
