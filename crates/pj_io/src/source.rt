//! Where bytes come from.
ghost use Rattle.std.specs.Prelude.{◌≡◌, ◌≤◌, true, length, IfOk};
ghost use Rattle.pj_io.specs.Told.{Where};
ghost use Rattle.pj_io.specs.Meanings.{Sources};
ghost use Rattle.pj_io.specs.Causes.{HasCause};
ghost use Rattle.pj_io.specs.Source.{Takes};

use crate::Failed;

/// Where bytes come from: a file, a stream, a connection.
pub trait Source {
    /// What proofs know of its values. No call changes whether a source tells.
    ghost meaning: { Sources Self };

    /// Moves some of the bytes that are left, from the first on, to the front of `into`, and answers
    /// how many. `Ok(0)` for a buffer that is not empty is the end of the input.
    ///
    /// # Errors
    /// `Failed` only where the count of faults rose. The bytes left are as before.
    fn take(&mut self, into: &mut [u8]) -> Result<usize, Failed>
        ensures bound { IfOk result (λ n. n ≤ length into.old) }
        ensures bytes { Where (meaning.tells self.old) (Takes (meaning.left self.old) (meaning.left self.new) into.old into.new result) }
        ensures told { meaning.tells self.new ≡ meaning.tells self.old }
        ensures not_shut { Where (meaning.tells self.old) (meaning.was_shut self.new ≡ meaning.was_shut self.old) }
        ensures cause { HasCause (meaning.faults self.old) (meaning.faults self.new) result };

    /// Shuts the source.
    fn shut(&mut self)
        ensures shut { Where (meaning.tells self.old) (meaning.was_shut self.new ≡ true) }
        ensures bytes { Where (meaning.tells self.old) (meaning.left self.new ≡ meaning.left self.old) }
        ensures told { meaning.tells self.new ≡ meaning.tells self.old }
        ensures count { meaning.faults self.new ≡ meaning.faults self.old };

    /// How often the source has failed. The count stands still at its type's end.
    fn faults(&self) -> u64
        ensures { result ≡ meaning.faults self.now };
}
