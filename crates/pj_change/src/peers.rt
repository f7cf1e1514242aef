//! How the records of a set of changes are looked up by name.

ghost use Rattle.std.specs.Prelude.{◌≡◌, ◌^◌, ◌<◌, List, length, AllPairs, IfSome, ◌↔◌, IsSome, Contains, Any, ◌≢◌};
ghost use Rattle.pj_change.specs.declared.change.Record.{Record as RecordValue};

use crate::change::Record;
use pj_name::Name;

/// Records that are found by their names.
pub trait Peers {
    /// The records: fewer than 2^80, with distinct names.
    ghost records: { Self → List RecordValue };

    /// The record of this name, if it is there.
    fn peer(&self, name: Name) -> Option<&Record>
        ensures found { IfSome result (λ r. Contains (records self.now) r.now) }
        ensures named { IfSome result (λ r. r.now.name ≡ name) }
        ensures there { IsSome result ↔ Any (λ r. r.name ≡ name) (records self.now) };

    ghost few: { (p : Self) → length (records p) < 2 ^ 80 };

    ghost distinct: { (p : Self) → AllPairs (λ r s. r.name ≢ s.name) (records p) };
}
