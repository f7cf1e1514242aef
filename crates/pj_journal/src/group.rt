//! A log to whose end strings are appended in groups.
ghost use Rattle.std.specs.Prelude.{◌≡◌, ◌++◌, [], ◌∷◌, ℕ, List, true, false, not, OnOk};
ghost use Rattle.pj_disk.specs.Told.{Where};
ghost use Rattle.pj_disk.specs.Causes.{HasCause};
ghost use Rattle.pj_disk.specs.Image.{Only};
ghost use Rattle.pj_disk.specs.Moments.{LeavesOnly};
ghost use Rattle.pj_journal.specs.Format.{IsStorable};
ghost use Rattle.pj_journal.specs.Stored.{Stores};
ghost use Rattle.pj_journal.specs.Group.{Stages, new_group, AfterStage, AfterSeal, StoresAllOrNone};

use crate::log::Log;
use crate::refusal::StoreFault;
use crate::staging::{open_gate, stage_at};
use pj_disk::Disk;
use std::marker::Model;

/// A log that was read to its end, to which strings are appended in groups: each is staged behind the closed gate at the end
/// of what is stored, and opening that gate stores all of them at once.
#[derive(Drop)]
pub struct GroupLog<K: Disk> {
    disk: K,
    place: u64,
    end: u64,
    failed: bool,
}

impl<K: Disk> Model for GroupLog<K> {
    ghost use Rattle.std.specs.Prelude.{◌<◌, ◌≤◌, ◌^◌, false, ◌≡◌};
    ghost use Rattle.pj_disk.specs.Told.{Where};
    ghost use Rattle.pj_journal.specs.Group.{GroupOver, IsGrouped};

    ghost Value = { GroupOver K };

    ghost view = { λ l. record { disk = l.disk; place = l.place; end = l.end; failed = l.failed } };

    // Until a call of the disk fails, each image has what is stored, and what is read has the group behind it.
    ghost invariant = { λ l. (l.place ≤ l.end) × (l.end < 2 ^ 63)
        × (l.failed ≡ false → Where (K.tells l.disk) (IsGrouped (K.seen l.disk) (K.may_leave l.disk) l.place l.end)) };
}

impl<K: Disk> GroupLog<K> {
    /// The log, at its end, where the last read gave None and no append failed.
    pub fn of(log: Log<K>) -> GroupLog<K>
        requires ended { log.ended ≡ true }
        requires sound { log.failed ≡ false }
        ensures group { result ≡ new_group log.disk log.place }
        ensures stages { Where (K.tells log.disk) (Stages (K.seen log.disk) log.place log.place []) }
    {
        let (disk, place) = log.into_end();
        GroupLog {
            disk,
            place,
            end: place,
            failed: false,
        }
    }

    /// Stages the string of these three parts, one behind another, behind what is staged, where no call failed. It takes no
    /// memory, and does not sync.
    ///
    /// At each moment each image of the disk stores the list of before.
    ///
    /// # Errors
    /// `StoreFault` only where the disk's count of faults rose. Nothing can be stored from then on: open the file again.
    pub fn stage(&mut self, head: &[u8], body: &[u8], tail: &[u8]) -> Result<(), StoreFault>
        requires sound { self.old.failed ≡ false }
        requires storable { IsStorable (head.now ++ body.now ++ tail.now) }
        ensures staged { Where (K.tells self.old.disk) (OnOk result ((group : List (List ℕ))
            → Stages (K.seen self.old.disk) self.old.place self.old.end group
            → Stages (K.seen self.new.disk) self.new.place self.new.end (group ++ (head.now ++ body.now ++ tail.now) ∷ []))) }
        ensures list { Where (K.tells self.old.disk)
            ((strings : List (List ℕ)) → Stores (K.seen self.old.disk) strings → Stores (K.seen self.new.disk) strings) }
        ensures moments { Where (K.tells self.old.disk) ((strings : List (List ℕ)) → Stores (K.seen self.old.disk) strings
            → LeavesOnly K.moment K.left_since self.old.disk self.new.disk (λ c. Stores c strings)) }
        ensures after { AfterStage self.old self.new (head.now ++ body.now ++ tail.now) result }
        ensures told { K.tells self.new.disk ≡ K.tells self.old.disk }
        ensures cause { HasCause (K.faults self.old.disk) (K.faults self.new.disk) result }
    {
        match stage_at(&mut self.disk, self.place, self.end, head, body, tail) {
            Ok(end) => {
                self.end = end;
                Ok(())
            }
            Err(_) => {
                self.failed = true;
                Err(StoreFault)
            }
        }
    }

    /// Stores what is staged, where no call failed: one sync, the opened gate, and one more sync for the whole group. Where
    /// nothing is staged it does nothing.
    ///
    /// At each moment each image of the disk stores the list of before with the whole group, or without any of it; after Ok
    /// with it, and it is the only image.
    ///
    /// # Errors
    /// `StoreFault` only where the disk's count of faults rose. Nothing can be stored from then on: open the file again.
    pub fn seal(&mut self) -> Result<(), StoreFault>
        requires sound { self.old.failed ≡ false }
        ensures acknowledged { Where (K.tells self.old.disk) (OnOk result ((strings group : List (List ℕ))
            → Stores (K.seen self.old.disk) strings → Stages (K.seen self.old.disk) self.old.place self.old.end group
            → Stores (K.seen self.new.disk) (strings ++ group))) }
        ensures durable { Where (K.tells self.old.disk) (OnOk result (Only (K.seen self.new.disk) (K.may_leave self.new.disk))) }
        ensures stages { Where (K.tells self.old.disk) (OnOk result (Stages (K.seen self.new.disk) self.new.place self.new.end [])) }
        ensures moments { Where (K.tells self.old.disk) ((strings group : List (List ℕ))
            → Stores (K.seen self.old.disk) strings → Stages (K.seen self.old.disk) self.old.place self.old.end group
            → LeavesOnly K.moment K.left_since self.old.disk self.new.disk (StoresAllOrNone strings group)) }
        ensures after { AfterSeal self.old self.new result }
        ensures told { K.tells self.new.disk ≡ K.tells self.old.disk }
        ensures cause { HasCause (K.faults self.old.disk) (K.faults self.new.disk) result }
    {
        if self.place == self.end {
            return Ok(());
        }
        match open_gate(&mut self.disk, self.place) {
            Ok(()) => {
                self.place = self.end;
                Ok(())
            }
            Err(_) => {
                self.failed = true;
                Err(StoreFault)
            }
        }
    }

    /// Whether no call of the disk failed. Then what is read is the only image where nothing is staged.
    pub fn is_sound(&self) -> bool
        ensures answer { result ≡ not self.now.failed }
    {
        !self.failed
    }

    /// The disk of the log. What is staged and not stored is lost when its file is opened again.
    pub fn close(self) -> K
        ensures { result ≡ self.disk }
    {
        self.disk
    }
}
