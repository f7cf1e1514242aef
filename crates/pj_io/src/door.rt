//! Where sessions arrive.
ghost use Rattle.std.specs.Prelude.{◌≡◌, length};
ghost use Rattle.std.specs.Fmt.{decimal};
ghost use Rattle.pj_io.specs.Told.{Where};
ghost use Rattle.pj_io.specs.Meanings.{Doors};
ghost use Rattle.pj_io.specs.Causes.{HasFaultCause};
ghost use Rattle.pj_io.specs.Source.{NewSource};
ghost use Rattle.pj_io.specs.Sink.{NewSink};
ghost use Rattle.pj_io.specs.Door.{IfPair, Counts, CountsGiven, Comes};

use crate::{DoorRefusal, Sink, Source};

/// Where sessions arrive: each is a pair of a source and a sink, which may be let go at any time.
pub trait Door {
    type Src: Source + Drop;

    type Dst: Sink + Drop;

    /// What proofs know of its values. No call changes whether a door tells.
    ghost meaning: { Doors Self };

    /// The next session, or `None` exactly where none is left.
    ///
    /// # Errors
    /// `Failed` only where the count of faults rose, or `Memory`. What is left is as before.
    fn accept(&mut self) -> Result<Option<(Self::Src, Self::Dst)>, DoorRefusal>
        ensures left { Counts (meaning.left self.old) (meaning.left self.new) result }
        ensures given { CountsGiven (meaning.given self.old) (meaning.given self.new) result }
        ensures cause { HasFaultCause (meaning.faults self.old) (meaning.faults self.new) result }

        // What a door that tells says of its sessions.
        ensures told { meaning.tells self.new ≡ meaning.tells self.old }
        ensures bytes { Where (meaning.tells self.old) (Comes Self.Src.meaning.left (meaning.coming self.old) (meaning.coming self.new) result) }

        // The pair is new. A sink that tells has the pair's number for its label, counted from 1, at any door.
        ensures source { IfPair result (λ source _. NewSource (meaning.tells self.old) Self.Src.meaning source) }
        ensures sink { IfPair result (λ _ sink. NewSink Self.Dst.meaning sink) }
        ensures label { IfPair result (λ _ sink.
            Where (Self.Dst.meaning.tells sink) (Self.Dst.meaning.label sink ≡ decimal (meaning.given self.new))) };

    /// How many sessions the door has still to give.
    fn left(&self) -> u32
        ensures { result ≡ meaning.left self.now };

    /// How often the door has failed. The count stands still at its type's end.
    fn faults(&self) -> u64
        ensures { result ≡ meaning.faults self.now };

    /// As many sessions are told as are left.
    ghost all_told: { (door : Self) → Where (meaning.tells door) (length (meaning.coming door) ≡ meaning.left door) };
}
