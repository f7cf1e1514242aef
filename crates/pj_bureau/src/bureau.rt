//! What opens stores.
ghost use Rattle.std.specs.Prelude.{◌≡◌, IsTrue, IfOk};
ghost use Rattle.pj_io.specs.Told.{Where};
ghost use Rattle.pj_io.specs.Causes.{HasFaultCause};
ghost use Rattle.pj_bureau.specs.Bureaus.{Bureaus};

use pj_disk::Disk;
use pj_io::{DoorRefusal, Office};

/// An office that opens stores too. What it opens may be let go at any time.
pub trait Bureau: Office {
    type Store: Disk + Send + Drop;

    /// What proofs know of its stores.
    ghost bureaus: { Bureaus Self };

    /// Opens the store under a path. Where the office tells, the store tells the bytes under the path.
    ///
    /// # Errors
    /// `Failed` only where the count of faults of stores rose, or `Memory`.
    fn store(&mut self, path: &str) -> Result<Self::Store, DoorRefusal>
        ensures told { Where (Self.meaning.tells self.old) (IfOk result (λ store. IsTrue (Self.Store.tells store))) }
        ensures bytes { Where (Self.meaning.tells self.old) (IfOk result (λ store. Self.Store.seen store ≡ bureaus.stores self.old path.now)) }
        ensures no_fault { IfOk result (λ store. Self.Store.faults store ≡ 0) }
        ensures telling { Self.meaning.tells self.new ≡ Self.meaning.tells self.old }
        ensures contents { Where (Self.meaning.tells self.old) (Self.meaning.contents self.new ≡ Self.meaning.contents self.old) }
        ensures read_faults { Self.meaning.read_faults self.new ≡ Self.meaning.read_faults self.old }
        ensures write_faults { Self.meaning.write_faults self.new ≡ Self.meaning.write_faults self.old }
        ensures cause { HasFaultCause (bureaus.faults self.old) (bureaus.faults self.new) result };

    /// How often an opening of a store has failed. The count stands still at its type's end.
    fn store_faults(&self) -> u64
        ensures { result ≡ bureaus.faults self.now };
}
