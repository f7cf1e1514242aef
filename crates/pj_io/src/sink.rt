//! Where bytes go to.
ghost use Rattle.std.specs.Prelude.{◌≡◌, ◌≤◌, ◌<◌, true, length, IfOk};
ghost use Rattle.pj_io.specs.Told.{Where};
ghost use Rattle.pj_io.specs.Meanings.{Sinks};
ghost use Rattle.pj_io.specs.Causes.{HasCause};
ghost use Rattle.pj_io.specs.Sink.{Gives};

use crate::Failed;

/// Where bytes go to: a file, a stream, a connection.
pub trait Sink {
    /// What proofs know of its values. No call changes whether a sink tells, nor its label.
    ghost meaning: { Sinks Self };

    /// Writes some of the bytes, from the first on, and answers how many: at least one, where there is one.
    ///
    /// # Errors
    /// `Failed` only where the count of faults rose. Nothing is written.
    fn give(&mut self, bytes: &[u8]) -> Result<usize, Failed>
        ensures bound { IfOk result (λ n. n ≤ length bytes.now) }
        ensures progress { IfOk result (λ n. 0 < length bytes.now → 0 < n) }
        ensures bytes { Where (meaning.tells self.old) (Gives (meaning.written self.old) (meaning.written self.new) bytes.now result) }
        ensures told { meaning.tells self.new ≡ meaning.tells self.old }
        ensures label { Where (meaning.tells self.old) (meaning.label self.new ≡ meaning.label self.old) }
        ensures not_shut { Where (meaning.tells self.old) (meaning.was_shut self.new ≡ meaning.was_shut self.old) }
        ensures cause { HasCause (meaning.faults self.old) (meaning.faults self.new) result };

    /// Shuts the sink.
    fn shut(&mut self)
        ensures shut { Where (meaning.tells self.old) (meaning.was_shut self.new ≡ true) }
        ensures bytes { Where (meaning.tells self.old) (meaning.written self.new ≡ meaning.written self.old) }
        ensures told { meaning.tells self.new ≡ meaning.tells self.old }
        ensures label { Where (meaning.tells self.old) (meaning.label self.new ≡ meaning.label self.old) }
        ensures count { meaning.faults self.new ≡ meaning.faults self.old };

    /// How often the sink has failed. The count stands still at its type's end.
    fn faults(&self) -> u64
        ensures { result ≡ meaning.faults self.now };
}
