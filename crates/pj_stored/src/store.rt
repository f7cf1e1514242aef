//! The file of a disk is opened as a store.
ghost use Rattle.std.specs.Prelude.{◌≡◌, ◌≤◌, IfOk, ℕ, List};
ghost use mathlib.Core.List.{IsPrefix};
ghost use Rattle.pj_disk.specs.Told.{Where};
ghost use Rattle.pj_disk.specs.Causes.{Rose};
ghost use Rattle.pj_journal.specs.Stored.{Stores};
ghost use Rattle.pj_machine.specs.Call.{IsFresh};
ghost use Rattle.pj_stored.specs.Recorded.{IsReady};
ghost use Rattle.pj_stored.specs.Store.{StoreOpened, StaysStored, OnStore, store_after};

use crate::refusal::RestoreRefusal;
use crate::stored::Stored;
use pj_disk::Disk;
use pj_journal::{Log, OpenRefusal};
use pj_machine::Replier;
use std::alloc::Global;
use std::sync::Wait;
use std::thread::Threads;

/// Why the file of a disk was not restored. The disk comes back.
#[derive(Drop)]
pub enum StoreRefusal<K> {
    /// The file has no list of requests that are accepted one after the other.
    Foreign(K),
    /// The disk failed: its count of faults rose.
    Store(K),
    /// There was no memory.
    Memory(K),
}

/// Opens the file of the disk as a log, and answers its strings in their order, each as a request of the restoring pass.
/// It may wait.
///
/// # Errors
/// `Foreign` only where the file has another header, a broken entry, or one that was not accepted; `Store` only where the
/// disk's count of faults rose; `Memory`. The first strings of the file were accepted then, and nothing else of the pass.
pub fn open_store<K: Disk, P: Replier, R: Threads + Wait + Sync>(
    rt: &R,
    alloc: Global,
    replier: &P,
    restore: &mut P::Pass,
    disk: K,
) -> Result<Stored<K>, StoreRefusal<K>>
    requires { IsFresh (P.view restore.old) }
    ensures number { (P.view restore.new).number ≡ (P.view restore.old).number }
    ensures journal { IsPrefix (P.view restore.old).journal (P.view restore.new).journal }
    ensures opened { StoreOpened (P.limits replier.now) (P.view restore.old) (P.view restore.new) (K.tells disk) (K.seen disk) result }
    ensures ready { IfOk result (λ stored. IsReady K.tells K.seen K.may_leave stored) }
    ensures list { Where (K.tells disk) (IfOk result (λ stored.
        (strings : List (List ℕ)) → Stores (K.seen disk) strings → Stores (K.seen stored.disk) strings)) }

    // A crash at any moment leaves an image that stores the list that the file had.
    ensures moments { StaysStored K.tells K.seen K.may_leave K.moment K.left_since disk (store_after result) }
    ensures told { K.tells (store_after result) ≡ K.tells disk }
    ensures count { K.faults disk ≤ K.faults (store_after result) }
    ensures cause { OnStore result (Rose (K.faults disk) (K.faults (store_after result))) }
{
    match Log::open(disk) {
        Ok(log) => match Stored::open(rt, alloc, replier, restore, log) {
            Ok(stored) => Ok(stored),
            Err(RestoreRefusal::Foreign { entry: _, store }) => Err(StoreRefusal::Foreign(store)),
            Err(RestoreRefusal::Store(store)) => Err(StoreRefusal::Store(store)),
            Err(RestoreRefusal::Memory(store)) => Err(StoreRefusal::Memory(store)),
        },
        Err(OpenRefusal::Foreign(store)) => Err(StoreRefusal::Foreign(store)),
        Err(OpenRefusal::Store(store)) => Err(StoreRefusal::Store(store)),
    }
}
