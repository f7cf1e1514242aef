//! A log of strings over a disk.
ghost use Rattle.std.specs.Prelude.{◌≡◌, ◌≢◌, ◌<◌, ◌≤◌, ◌^◌, ◌++◌, [], ◌∷◌, ◌&&◌, not, ℕ, List, true, false, length, take, IfOk, OnOk, OnErr, IfErr, IsErr, IsErrOf, MatchResult};
ghost use Rattle.pj_disk.specs.Told.{Where};
ghost use Rattle.pj_disk.specs.Causes.{Rose, HasCause};
ghost use Rattle.pj_disk.specs.Image.{AddsNone, Only};
ghost use Rattle.pj_disk.specs.Moments.{LeavesOnly};
ghost use Rattle.pj_journal.specs.Format.{header};
ghost use Rattle.pj_journal.specs.Stored.{Stores, EndsAt, IsForeign};
ghost use Rattle.pj_journal.specs.Appended.{opened, appended, LeftByOpen, LeftByAppend, IsBeforeOrAfter};
ghost use Rattle.pj_journal.specs.Log.{new_log, Found, IsBroken, IsKept, AfterRead, AfterAppend};
ghost use Rattle.pj_journal.specs.Opened.{disk_after, OnForeign, OnStore};
ghost use Rattle.pj_journal.specs.declared.refusal.LogRefusal.TheVariants.{Broken, Store};

use crate::Frame;
use crate::refusal::{LogRefusal, OpenRefusal, StoreFault};
use crate::steps::{prepare, put, string_at};
use pj_disk::Disk;
use std::alloc::Global;
use std::marker::Model;

/// A log of strings in one file. Its strings are read in order, and behind the last one more can be appended.
#[derive(Drop)]
pub struct Log<K: Disk> {
    disk: K,
    place: u64,
    ended: bool,
    failed: bool,
}

impl<K: Disk> Model for Log<K> {
    ghost use Rattle.std.specs.Prelude.{◌<◌, ◌^◌, false, ◌≡◌};
    ghost use Rattle.pj_disk.specs.Told.{Where};
    ghost use Rattle.pj_journal.specs.Log.{LogOver, IsKept};

    ghost Value = { LogOver K };

    ghost view = { λ l. record { disk = l.disk; place = l.place; ended = l.ended; failed = l.failed } };

    // Until an append fails, what was read and appended is on the disk.
    ghost invariant = { λ l. (l.place < 2 ^ 63)
        × (l.failed ≡ false → Where (K.tells l.disk) (IsKept (K.seen l.disk) (K.may_leave l.disk) l.place l.ended)) };
}

impl<K: Disk> Log<K> {
    /// The file of this disk as a log, from its first string on. A file of at most 9 bytes is written anew, as one of no
    /// string. It takes no memory.
    ///
    /// # Errors
    /// `Foreign` exactly where a file of more than 9 bytes has another header, and then it is as before; `Store` only where
    /// the disk's count of faults rose.
    pub fn open(disk: K) -> Result<Log<K>, OpenRefusal<K>>
        ensures log { IfOk result (λ log. log ≡ new_log log.disk) }
        ensures seen { Where (K.tells disk) (IfOk result (λ log. K.seen log.disk ≡ opened (K.seen disk))) }
        ensures header { Where (K.tells disk) (IfOk result (λ log. take 8 (K.seen log.disk) ≡ header)) }
        ensures durable { Where (K.tells disk) (IfOk result (λ log. Only (K.seen log.disk) (K.may_leave log.disk))) }
        ensures list { Where (K.tells disk) (IfOk result (λ log.
            (strings : List (List ℕ)) → Stores (K.seen disk) strings → Stores (K.seen log.disk) strings)) }
        ensures foreign { Where (K.tells disk) (IsForeign (K.seen disk) → IsErr result) }
        ensures only_foreign { Where (K.tells disk) (OnForeign result
            (IsForeign (K.seen disk) × (K.seen (disk_after result) ≡ K.seen disk))) }

        // A crash at any moment leaves an image of before, or one of at most 9 bytes where the file had no more.
        ensures moments { Where (K.tells disk)
            (LeavesOnly K.moment K.left_since disk (disk_after result) (LeftByOpen (K.may_leave disk) (K.seen disk))) }
        ensures told { K.tells (disk_after result) ≡ K.tells disk }
        ensures count { K.faults disk ≤ K.faults (disk_after result) }
        ensures cause { OnStore result (Rose (K.faults disk) (K.faults (disk_after result))) }
    {
        let mut disk = disk;
        match prepare(&mut disk) {
            Ok(true) => Ok(Log {
                disk,
                place: 8,
                ended: false,
                failed: false,
            }),
            Ok(false) => Err(OpenRefusal::Foreign(disk)),
            Err(_) => Err(OpenRefusal::Store(disk)),
        }
    }

    /// The next string, or None at the closed gate behind the last one.
    ///
    /// # Errors
    /// `Broken` exactly where the gate is open or past the end of the file, and no entry is there; `Store` only where the
    /// disk's count of faults rose; `Memory`. The log is then as before.
    pub fn read(&mut self, alloc: Global) -> Result<Option<Vec<u8>>, LogRefusal>
        ensures found { Where (K.tells self.old.disk) (IfOk result (λ found. Found (K.seen self.old.disk) self.old.place found)) }
        ensures broken { Where (K.tells self.old.disk) (IsBroken (K.seen self.old.disk) self.old.place → IsErr result) }
        ensures only_broken { Where (K.tells self.old.disk) (IsErrOf result Broken → IsBroken (K.seen self.old.disk) self.old.place) }
        ensures after { AfterRead self.old self.new result }
        ensures place { self.new.place < 2 ^ 63 }
        ensures seen { Where (K.tells self.old.disk) (K.seen self.new.disk ≡ K.seen self.old.disk) }
        ensures images { Where (K.tells self.old.disk) (AddsNone (K.may_leave self.old.disk) (K.may_leave self.new.disk)) }
        ensures moments { Where (K.tells self.old.disk)
            (LeavesOnly K.moment K.left_since self.old.disk self.new.disk (K.may_leave self.old.disk)) }
        ensures told { K.tells self.new.disk ≡ K.tells self.old.disk }
        ensures count { K.faults self.old.disk ≤ K.faults self.new.disk }
        ensures cause { IsErrOf result Store → Rose (K.faults self.old.disk) (K.faults self.new.disk) }
    {
        let found = string_at(alloc, &mut self.disk, self.place)?;
        match &found {
            Some(string) => {
                self.place += 9 + string.len() as u64;
                self.ended = false;
            }
            None => self.ended = true,
        }
        Ok(found)
    }

    /// Appends a string behind the last one, where the last read gave None and no append failed. It takes no memory.
    ///
    /// At each moment each image of the disk stores the list of before, with the string or without; after Ok with it, and it
    /// is the only image.
    ///
    /// # Errors
    /// `StoreFault` only where the disk's count of faults rose. Nothing can be appended from then on: open the file again.
    pub fn append(&mut self, frame: &Frame) -> Result<(), StoreFault>
        requires ended { self.old.ended ≡ true }
        requires sound { self.old.failed ≡ false }
        ensures end { Where (K.tells self.old.disk) (EndsAt (K.seen self.old.disk) self.old.place) }
        ensures seen { Where (K.tells self.old.disk) (OnOk result
            (K.seen self.new.disk ≡ appended (K.seen self.old.disk) self.old.place frame.now)) }
        ensures durable { Where (K.tells self.old.disk) (OnOk result (Only (K.seen self.new.disk) (K.may_leave self.new.disk))) }
        ensures acknowledged { Where (K.tells self.old.disk) (OnOk result ((strings : List (List ℕ))
            → Stores (K.seen self.old.disk) strings → Stores (K.seen self.new.disk) (strings ++ frame.now ∷ []))) }
        ensures images { Where (K.tells self.old.disk) (LeavesOnly K.moment K.left_since self.old.disk self.new.disk
            (LeftByAppend (K.seen self.old.disk) self.old.place frame.now)) }
        ensures moments { Where (K.tells self.old.disk) ((strings : List (List ℕ)) → Stores (K.seen self.old.disk) strings
            → LeavesOnly K.moment K.left_since self.old.disk self.new.disk (IsBeforeOrAfter strings frame.now)) }
        ensures after { AfterAppend self.old self.new frame.now result }
        ensures told { K.tells self.new.disk ≡ K.tells self.old.disk }
        ensures cause { HasCause (K.faults self.old.disk) (K.faults self.new.disk) result }
    {
        match put(&mut self.disk, self.place, frame.bytes()) {
            Ok(()) => {
                self.place += 9 + frame.string_len();
                Ok(())
            }
            Err(_) => {
                self.failed = true;
                Err(StoreFault)
            }
        }
    }

    /// Whether a string can be appended: the last read gave None, and no append failed. Then the disk has all of the log.
    pub fn is_at_end(&self) -> bool
        ensures answer { result ≡ (self.now.ended && not self.now.failed) }
        ensures end { result ≡ true → Where (K.tells self.now.disk) (EndsAt (K.seen self.now.disk) self.now.place) }
        ensures durable { result ≡ true → Where (K.tells self.now.disk) (Only (K.seen self.now.disk) (K.may_leave self.now.disk)) }
    {
        self.ended && !self.failed
    }

    /// The disk of the log, and the place of the closed gate at its end.
    pub(crate) fn into_end(self) -> (K, u64)
        requires ended { self.ended ≡ true }
        requires sound { self.failed ≡ false }
        ensures disk { result.0 ≡ self.disk }
        ensures place { result.1 ≡ self.place }
        ensures bound { result.1 < 2 ^ 63 }
        ensures kept { Where (K.tells result.0) (IsKept (K.seen result.0) (K.may_leave result.0) result.1 true) }
    {
        (self.disk, self.place)
    }

    /// The disk of the log.
    pub fn close(self) -> K
        ensures { result ≡ self.disk }
    {
        self.disk
    }
}
