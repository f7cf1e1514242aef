//! What is kept of a change, by its name.

ghost use Rattle.std.specs.Ptr.{null_ptr};
ghost use Rattle.std.specs.Arc.{arc_value};

use pj_change::Record;
use pj_name::Name;
use pj_pmap::{Memory, Share};
use std::sync::Arc;

/// The key of a change.
#[derive(Clone, Copy, PartialEq, Eq, PartialOrd, Ord)]
pub struct HeldName {
    pub name: Name,
}

impl Share for HeldName {
    ghost shown = { λ k. k };

    fn share(&self) -> Result<HeldName, Memory> {
        Ok(*self)
    }
}

/// A change, with the names of the changes before and after it in the list.
#[derive(Drop)]
pub struct Link {
    pub change: Arc<Record>,
    pub before: Option<Name>,
    pub after: Option<Name>,
}

impl Share for Link {
    ghost shown = { λ l. record l { change = record { ptr = null_ptr; value = arc_value l.change } } };

    fn share(&self) -> Result<Link, Memory> {
        Ok(Link {
            change: self.change.share()?,
            before: self.before,
            after: self.after,
        })
    }

    fn has_room(&self) -> bool {
        self.change.has_room()
    }
}
