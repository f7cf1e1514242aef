//! What opens sources, sinks and doors.
ghost use Rattle.std.specs.Prelude.{◌≡◌, [], map, All, IfOk};
ghost use Rattle.pj_io.specs.Told.{Where};
ghost use Rattle.pj_io.specs.Meanings.{Offices};
ghost use Rattle.pj_io.specs.Causes.{HasFaultCause};
ghost use Rattle.pj_io.specs.Source.{NewSource};
ghost use Rattle.pj_io.specs.Sink.{NewSink};
ghost use Rattle.pj_io.specs.Door.{NewDoor};
ghost use Rattle.pj_io.specs.Office.{AsManyAsShared};

use crate::{Door, DoorRefusal, Sink, Source};

/// What opens the sources, sinks and doors that a program works on. All that it opens may be let go at any time.
pub trait Office {
    type Src: Source + Send + Drop;

    type Dst: Sink + Send + Drop;

    type Way: Door<Src = Self::Src, Dst = Self::Dst> + Send + Drop;

    /// What proofs know of its values. No call changes whether an office tells, nor what its sources and doors give.
    ghost meaning: { Offices Self };

    /// Opens the input.
    ///
    /// # Errors
    /// `Failed` only where the count of faults of reading rose, or `Memory`.
    fn input(&mut self) -> Result<Self::Src, DoorRefusal>
        ensures source { IfOk result (NewSource (meaning.tells self.old) Self.Src.meaning) }
        ensures bytes { Where (meaning.tells self.old)
            (IfOk result (λ source. Self.Src.meaning.left source ≡ (meaning.contents self.old).input)) }
        ensures told { meaning.tells self.new ≡ meaning.tells self.old }
        ensures contents { Where (meaning.tells self.old) (meaning.contents self.new ≡ meaning.contents self.old) }
        ensures cause { HasFaultCause (meaning.read_faults self.old) (meaning.read_faults self.new) result }
        ensures write_faults { meaning.write_faults self.new ≡ meaning.write_faults self.old };

    /// Opens the output, a sink whose label is empty.
    ///
    /// # Errors
    /// `Failed` only where the count of faults of writing rose, or `Memory`.
    fn output(&mut self) -> Result<Self::Dst, DoorRefusal>
        ensures sink { IfOk result (NewSink Self.Dst.meaning) }
        ensures label { IfOk result (λ sink. Where (Self.Dst.meaning.tells sink) (Self.Dst.meaning.label sink ≡ [])) }
        ensures told { meaning.tells self.new ≡ meaning.tells self.old }
        ensures contents { Where (meaning.tells self.old) (meaning.contents self.new ≡ meaning.contents self.old) }
        ensures cause { HasFaultCause (meaning.write_faults self.old) (meaning.write_faults self.new) result }
        ensures read_faults { meaning.read_faults self.new ≡ meaning.read_faults self.old };

    /// Opens the script under a path.
    ///
    /// # Errors
    /// `Failed` only where the count of faults of reading rose, or `Memory`.
    fn script(&mut self, path: &str) -> Result<Self::Src, DoorRefusal>
        ensures source { IfOk result (NewSource (meaning.tells self.old) Self.Src.meaning) }
        ensures bytes { Where (meaning.tells self.old)
            (IfOk result (λ source. Self.Src.meaning.left source ≡ (meaning.contents self.old).script path.now)) }
        ensures told { meaning.tells self.new ≡ meaning.tells self.old }
        ensures contents { Where (meaning.tells self.old) (meaning.contents self.new ≡ meaning.contents self.old) }
        ensures cause { HasFaultCause (meaning.read_faults self.old) (meaning.read_faults self.new) result }
        ensures write_faults { meaning.write_faults self.new ≡ meaning.write_faults self.old };

    /// Opens the file for the replies to the script under a path, a sink whose label is the path.
    ///
    /// # Errors
    /// `Failed` only where the count of faults of writing rose, or `Memory`.
    fn replies(&mut self, path: &str) -> Result<Self::Dst, DoorRefusal>
        ensures sink { IfOk result (NewSink Self.Dst.meaning) }
        ensures label { IfOk result (λ sink. Where (Self.Dst.meaning.tells sink) (Self.Dst.meaning.label sink ≡ path.now)) }
        ensures told { meaning.tells self.new ≡ meaning.tells self.old }
        ensures contents { Where (meaning.tells self.old) (meaning.contents self.new ≡ meaning.contents self.old) }
        ensures cause { HasFaultCause (meaning.write_faults self.old) (meaning.write_faults self.new) result }
        ensures read_faults { meaning.read_faults self.new ≡ meaning.read_faults self.old };

    /// Opens one door for each share, all at one address. Each has as many sessions to give as its share.
    ///
    /// # Errors
    /// `Failed` only where the count of faults of reading rose, or `Memory`.
    fn doors(&mut self, address: &str, shares: &[u32]) -> Result<Vec<Self::Way>, DoorRefusal>
        ensures shares { IfOk result (λ doors. map Self.Way.meaning.left doors.items ≡ shares.now) }
        ensures made { IfOk result (λ doors. All (NewDoor (meaning.tells self.old) Self.Way.meaning) doors.items) }
        ensures sessions { Where (meaning.tells self.old) (IfOk result (λ doors. map Self.Way.meaning.coming doors.items ≡
            (meaning.contents self.old).sessions address.now shares.now)) }
        ensures told { meaning.tells self.new ≡ meaning.tells self.old }
        ensures contents { Where (meaning.tells self.old) (meaning.contents self.new ≡ meaning.contents self.old) }
        ensures cause { HasFaultCause (meaning.read_faults self.old) (meaning.read_faults self.new) result }
        ensures write_faults { meaning.write_faults self.new ≡ meaning.write_faults self.old };

    /// How often an opening for reading has failed. The count stands still at its type's end.
    fn read_faults(&self) -> u64
        ensures { result ≡ meaning.read_faults self.now };

    /// How often an opening for writing has failed. The count stands still at its type's end.
    fn write_faults(&self) -> u64
        ensures { result ≡ meaning.write_faults self.now };

    /// Each door has as many sessions as its share.
    ghost as_many: { (office : Self) → Where (meaning.tells office) (AsManyAsShared (meaning.contents office)) };
}
