//! One file of bytes, as those see it who keep a log in it.
ghost use Rattle.std.specs.Prelude.{◌≡◌, ◌≤◌, ◌<◌, ◌+◌, ◌^◌, ℕ, Bool, List, length, IfOk, OnOk};
ghost use Rattle.pj_disk.specs.Told.{Where};
ghost use Rattle.pj_disk.specs.Causes.{HasCause};
ghost use Rattle.pj_disk.specs.Image.{overwritten, Torn, Follows, AddsNone, Only};
ghost use Rattle.pj_disk.specs.Moments.{Elapses};
ghost use Rattle.pj_disk.specs.Reading.{ReadAt};

use crate::Failed;

/// One file of bytes, in which what was written is sure to outlast a crash only once it was synced.
///
/// A crash leaves an image of the disk. After a sync the only image is what a read gives. Until the
/// next sync each range that was written, and the part past the old end, may hold any bytes in an
/// image, and its length is any from the old one to the greatest since; bytes outside stay. What a
/// read gives is one of the images, after a call that failed too.
pub trait Disk {
    /// Whether the disk tells its bytes and its images. No call changes this.
    ghost tells: { Self → Bool };

    /// Where it tells, the bytes that a read gives.
    ghost seen: { Self → List ℕ };

    /// Where it tells, the images that a crash now may leave.
    ghost may_leave: { Self → List ℕ → Type 0 };

    /// The moment, as a number that does not fall, by which a caller names it.
    ghost moment: { Self → ℕ };

    /// Where it tells, the images that a crash may have left at any moment since the named one, in
    /// the middle of a call or between two.
    ghost left_since: { Self → ℕ → List ℕ → Type 0 };

    /// How often it has failed.
    ghost faults: { Self → ℕ };

    /// The length in bytes, which is below 2^63.
    ///
    /// # Errors
    /// `Failed` only where the count of faults rose.
    fn len(&mut self) -> Result<u64, Failed>
        ensures bound { IfOk result (λ n. n < 2 ^ 63) }
        ensures length { Where (tells self.old) (IfOk result (λ n. n ≡ length (seen self.old))) }
        ensures seen { Where (tells self.old) (seen self.new ≡ seen self.old) }
        ensures images { Where (tells self.old) (AddsNone (may_leave self.old) (may_leave self.new)) }
        ensures time { Where (tells self.old)
            (Elapses (moment self.old) (moment self.new) (left_since self.old) (left_since self.new) (may_leave self.new)) }
        ensures told { tells self.new ≡ tells self.old }
        ensures cause { HasCause (faults self.old) (faults self.new) result };

    /// Copies the bytes from this place on to the front of `into`, as many as there are or as it
    /// holds, and answers their number.
    ///
    /// # Errors
    /// `Failed` only where the count of faults rose.
    fn read(&mut self, at: u64, into: &mut [u8]) -> Result<usize, Failed>
        ensures bound { IfOk result (λ n. n ≤ length into.old) }
        ensures bytes { Where (tells self.old) (IfOk result (λ n. ReadAt (seen self.old) at into.old into.new n)) }
        ensures seen { Where (tells self.old) (seen self.new ≡ seen self.old) }
        ensures images { Where (tells self.old) (AddsNone (may_leave self.old) (may_leave self.new)) }
        ensures time { Where (tells self.old)
            (Elapses (moment self.old) (moment self.new) (left_since self.old) (left_since self.new) (may_leave self.new)) }
        ensures told { tells self.new ≡ tells self.old }
        ensures cause { HasCause (faults self.old) (faults self.new) result };

    /// Writes the bytes over what is there, and past the end. Until the next sync an image may hold
    /// any bytes in their range, after a failure too.
    ///
    /// # Errors
    /// `Failed` only where the count of faults rose; a write that would reach 2^63 bytes is failed.
    fn write_at(&mut self, at: u64, bytes: &[u8]) -> Result<(), Failed>
        requires { Where (tells self.old) (at ≤ length (seen self.old)) }
        ensures bound { OnOk result (at + length bytes.now < 2 ^ 63) }
        ensures written { Where (tells self.old) (OnOk result (seen self.new ≡ overwritten (seen self.old) at bytes.now)) }
        ensures images { Where (tells self.old) (Follows (Torn at (length bytes.now)) (may_leave self.old) (may_leave self.new)) }
        ensures time { Where (tells self.old)
            (Elapses (moment self.old) (moment self.new) (left_since self.old) (left_since self.new) (may_leave self.new)) }
        ensures told { tells self.new ≡ tells self.old }
        ensures cause { HasCause (faults self.old) (faults self.new) result };

    /// Sees that all that was written outlasts a crash.
    ///
    /// # Errors
    /// `Failed` only where the count of faults rose. A read may then give any of the images of before.
    fn sync(&mut self) -> Result<(), Failed>
        ensures durable { Where (tells self.old) (OnOk result (Only (seen self.old) (may_leave self.new))) }
        ensures seen { Where (tells self.old) (OnOk result (seen self.new ≡ seen self.old)) }
        ensures images { Where (tells self.old) (AddsNone (may_leave self.old) (may_leave self.new)) }
        ensures time { Where (tells self.old)
            (Elapses (moment self.old) (moment self.new) (left_since self.old) (left_since self.new) (may_leave self.new)) }
        ensures told { tells self.new ≡ tells self.old }
        ensures cause { HasCause (faults self.old) (faults self.new) result };

    /// How often the disk has failed. The count stands still at its type's end.
    fn faults(&self) -> u64
        ensures { result ≡ faults self.now };

    /// What a read gives is one of the images.
    ghost reads_an_image: { (disk : Self) → may_leave disk (seen disk) };

    /// This moment is one of those since an earlier one.
    ghost counts_now: { (disk : Self) (t : ℕ) (c : List ℕ) → t ≤ moment disk → may_leave disk c → left_since disk t c };

    /// Since this moment there is no other.
    ghost only_now: { (disk : Self) (c : List ℕ) → left_since disk (moment disk) c → may_leave disk c };
}
