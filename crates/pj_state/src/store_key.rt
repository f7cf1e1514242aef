//! How the store finds a change.
ghost use Rattle.std.specs.Prelude.{[], ◌∷◌, take};
ghost use Rattle.pj_state.specs.StoreKey.{same_name_equivalence, same_name_partial_equivalence, same_names_begin_alike};
ghost use Rattle.pj_name.specs.Name.{same_name};

use pj_name::Name;
use std::hash::{Hash, Hasher};
use std::marker::Model;

/// The name of a change as a key of the store. Contracts see the name.
///
/// Only its first eight bytes are hashed: a name is a digest, so they are as good as all of them, and are hashed in one step.
#[derive(Drop)]
pub struct StoreKey {
    name: Name,
}

impl Model for StoreKey {
    ghost use Rattle.pj_name.specs.declared.name.Name.{Name};

    ghost Value = { Name };

    ghost view = { λ key. key.name };
}

impl StoreKey {
    ghost use Rattle.std.specs.Prelude.{◌≡◌};

    /// The key of this name.
    pub fn of(name: Name) -> StoreKey
        ensures { result ≡ name }
    {
        StoreKey { name }
    }
}

impl PartialEq for StoreKey {
    ghost eq = { same_name };

    ghost laws = { same_name_partial_equivalence };

    fn eq(&self, other: &StoreKey) -> bool {
        self.name == other.name
    }
}

impl Eq for StoreKey {
    ghost laws = { same_name_equivalence };
}

impl Hash for StoreKey {
    ghost hash_input = { λ name. take 8 name.bytes ∷ [] };

    ghost respects_eq = { same_names_begin_alike };

    fn hash<H: Hasher>(&self, state: &mut H) {
        state.write(&self.name.bytes[..8]);
    }
}
