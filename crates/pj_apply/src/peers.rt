//! The changes of a list as records that are found by their names.

ghost use Rattle.std.specs.Prelude.{◌<◌, ◌^◌, length};
ghost use Rattle.pj_change.specs.Sets.{HaveDistinctNames};

use crate::held::Held;
use pj_change::{Peers, Record};
use pj_name::Name;

/// The changes of a list, fewer than 2^80, with distinct names.
pub struct HeldPeers<'a> {
    pub held: &'a Held,
    pub ghost few: { length held.now < 2 ^ 80 },
    pub ghost distinct: { HaveDistinctNames held.now },
}

impl Held {
    ghost use Rattle.std.specs.Prelude.{◌≡◌};

    /// Its changes as peers of one another.
    pub fn peers(&self) -> HeldPeers<'_>
        ensures { result.held.now ≡ self.now }
    {
        let _few = self.len();
        HeldPeers { held: self }
    }
}

impl Peers for HeldPeers<'_> {
    ghost records = { λ p. p.held.now };

    fn peer(&self, name: Name) -> Option<&Record> {
        let change = self.held.get(name)?;
        Some(change)
    }

    ghost few = { λ p. p.few };

    ghost distinct = { λ p. p.distinct };
}
