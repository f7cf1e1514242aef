//! The tables of which those of a list are made, and how a part is taken to be changed.

ghost use Rattle.std.specs.Prelude.{◌≡◌, IfOk};
ghost use Rattle.std.specs.Arc.{arc_value};

use pj_apply::Held;
use pj_change::Memory;
use pj_contest::Contests;
use pj_dead::Pseudo;
use pj_deps::Deps;
use pj_outline::Outline;
use pj_states::Versions;
use std::sync::Arc;

/// A table that is given up by the calls that change it, and that a second owner may have.
pub trait Part: Sized + Drop {
    /// The same table for a second owner, in constant time.
    fn second(&self) -> Result<Self, Memory>
        ensures { IfOk result (λ p. p ≡ self.now) };
}

impl Part for Held {
    fn second(&self) -> Result<Held, Memory> {
        self.share()
    }
}

impl Part for Outline {
    fn second(&self) -> Result<Outline, Memory> {
        self.share()
    }
}

impl Part for Versions {
    fn second(&self) -> Result<Versions, Memory> {
        self.share()
    }
}

impl Part for Contests {
    fn second(&self) -> Result<Contests, Memory> {
        self.share()
    }
}

impl Part for Deps {
    fn second(&self) -> Result<Deps, Memory> {
        self.share()
    }
}

impl Part for Pseudo {
    fn second(&self) -> Result<Pseudo, Memory> {
        self.share()
    }
}

/// The table for one owner, to be given up: itself where no other tables have it, and else shared.
pub fn owned<T: Part>(part: Arc<T>) -> Result<T, Memory>
    ensures { IfOk result (λ p. p ≡ arc_value part) }
{
    match Arc::try_unwrap(part) {
        Ok(part) => Ok(part),
        Err(held) => held.second(),
    }
}
