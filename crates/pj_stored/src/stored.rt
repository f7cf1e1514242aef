//! A log of the requests that a repository accepted.
ghost use Rattle.std.specs.Prelude.{◌≡◌, ◌<◌, ◌^◌, take, IfOk};
ghost use mathlib.Core.List.{IsPrefix};
ghost use Rattle.pj_disk.specs.Told.{Where};
ghost use Rattle.pj_disk.specs.Causes.{Rose};
ghost use Rattle.pj_disk.specs.Image.{Only};
ghost use Rattle.pj_journal.specs.Format.{header};
ghost use Rattle.pj_journal.specs.Log.{new_log};
ghost use Rattle.pj_machine.specs.Call.{IsFresh};
ghost use Rattle.pj_stored.specs.Opened.{Restored, OnStore, disk_after};
ghost use Rattle.pj_stored.specs.Reading.{IsRead};
ghost use Rattle.pj_stored.specs.Recorded.{IsReady, Recorded};

use crate::frames::frame_of;
use crate::numbers::has_small_numbers;
use crate::refusal::RestoreRefusal;
use crate::restoring::restore_next;
use pj_change::Memory;
use pj_disk::Disk;
use pj_journal::{Log, LogRefusal, StoreFault};
use pj_machine::{Command, Numbered, Replier};
use pj_session::{Step, StepRefusal};
use std::alloc::Global;
use std::marker::Model;
use std::sync::Wait;
use std::thread::Threads;

/// A log whose strings are requests that a repository accepted. As a step of a session it answers a
/// command, and appends it where it was accepted, before the reply may be given.
#[derive(Drop)]
pub struct Stored<K: Disk> {
    log: Log<K>,
}

impl<K: Disk> Model for Stored<K> {
    ghost use Rattle.pj_journal.specs.Log.{LogOver};

    ghost Value = { LogOver K };

    ghost view = { λ s. s.log };
}

impl<K: Disk> Stored<K> {
    /// Answers the strings of a log that was just opened, in their order, each as a request of the
    /// restoring pass. It may wait.
    ///
    /// # Errors
    /// `Foreign` exactly where that entry is the first that is broken or not accepted; `Store` only
    /// where the disk's count of faults rose; `Memory`. The disk was only read.
    pub fn open<P: Replier, R: Threads + Wait + Sync>(
        rt: &R,
        alloc: Global,
        replier: &P,
        restore: &mut P::Pass,
        log: Log<K>,
    ) -> Result<Stored<K>, RestoreRefusal<K>>
        requires fresh { IsFresh (P.view restore.old) }
        requires opened { log ≡ new_log log.disk }
        requires header { Where (K.tells log.disk) (take 8 (K.seen log.disk) ≡ header) }
        requires durable { Where (K.tells log.disk) (Only (K.seen log.disk) (K.may_leave log.disk)) }
        ensures number { (P.view restore.new).number ≡ (P.view restore.old).number }
        ensures journal { IsPrefix (P.view restore.old).journal (P.view restore.new).journal }

        // At Ok the file stores strings that were all accepted; else the first of its strings were,
        // and then there is why not the next one.
        ensures restored { Restored (P.limits replier.now) (P.view restore.old) (P.view restore.new)
            (K.tells log.disk) (K.seen log.disk) result }
        ensures ready { IfOk result (λ stored. IsReady K.tells K.seen K.may_leave stored) }
        ensures read { IsRead K.tells K.seen K.may_leave K.moment K.left_since K.faults log.disk (disk_after result) }
        ensures cause { OnStore result (Rose (K.faults log.disk) (K.faults (disk_after result))) }
    {
        let mut log = log;
        let mut entry: u64 = 1;
        loop {
            match log.read(alloc) {
                Ok(Some(string)) => match restore_next(rt, alloc, replier, restore, &string) {
                    Ok(true) => entry += 1,
                    Ok(false) => {
                        let store = log.close();
                        return Err(RestoreRefusal::Foreign { entry, store });
                    }
                    Err(Memory) => return Err(RestoreRefusal::Memory(log.close())),
                },
                Ok(None) => return Ok(Stored { log }),
                Err(LogRefusal::Broken) => {
                    let store = log.close();
                    return Err(RestoreRefusal::Foreign { entry, store });
                }
                Err(LogRefusal::Store) => return Err(RestoreRefusal::Store(log.close())),
                Err(LogRefusal::Memory) => return Err(RestoreRefusal::Memory(log.close())),
            }
        }
    }

    /// The disk of the log.
    pub fn close(self) -> K
        ensures { result ≡ self.disk }
    {
        self.log.close()
    }
}

impl<K: Disk> Step for Stored<K> {
    ghost ready = { λ s. IsReady K.tells K.seen K.may_leave s };

    ghost does = { λ s x r t. Recorded K.tells K.seen K.may_leave K.moment K.left_since K.faults s x r t };

    ghost faults = { λ s. K.faults s.disk };

    fn step<P: Replier, R: Threads + Wait + Sync>(
        &mut self,
        rt: &R,
        alloc: Global,
        replier: &P,
        pass: &mut P::Pass,
        command: &Command,
    ) -> Result<Numbered, StepRefusal> {
        let frame = match frame_of(alloc, command) {
            Ok(frame) => frame,
            Err(Memory) => return Err(StepRefusal::Memory),
        };
        let numbered = replier.answer(rt, alloc, pass, command);
        has_small_numbers(&numbered);
        if !numbered.is_entered() {
            return Ok(numbered);
        }
        match frame {
            Some(frame) => match self.log.append(&frame) {
                Ok(()) => Ok(numbered),
                Err(StoreFault) => Err(StepRefusal::Store),
            },
            None => Ok(numbered),
        }
    }
}
