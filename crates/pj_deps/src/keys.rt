//! The keys of the table's maps: held changes, and needs with the changes that have them.

use pj_name::Name;
use pj_pmap::{Memory, Share};

/// The key of a held change.
#[derive(Clone, Copy, PartialEq, Eq, PartialOrd, Ord)]
pub struct HeldName {
    pub name: Name,
}

impl Share for HeldName {
    ghost shown = { λ k. k };

    fn share(&self) -> Result<HeldName, Memory> {
        Ok(*self)
    }
}

/// A need, and a held change that has it. Pairs are ordered by the need, then by the change.
#[derive(Clone, Copy, PartialEq, Eq, PartialOrd, Ord)]
pub struct HeldBy {
    pub need: Name,
    pub holder: Name,
}

impl Share for HeldBy {
    ghost shown = { λ k. k };

    fn share(&self) -> Result<HeldBy, Memory> {
        Ok(*self)
    }
}
