//! The command `keep`: a session over the input and the output, on a repository that is kept in a store.
ghost use Rattle.pj_serve.specs.Outside.{KeepsOffice};
ghost use Rattle.pj_top.specs.Keeps.{DoesKeep};

use crate::finish::{KeptFinish, lived, make_room, nothing, unpaired};
use crate::opening::{open_store, open_streams};
use pj_bureau::Bureau;
use pj_kept::keep_repository;
use pj_machine::Limits;
use pj_serve::Status;
use std::alloc::Global;
use std::sync::Wait;
use std::thread::Threads;

/// Opens the store under a path, the input and the output. Pass 1 restores the repository of the store, and pass 2 answers the
/// requests of the input.
pub(crate) fn keep<R: Threads + Wait + Sync, B: Bureau>(
    rt: &R,
    alloc: Global,
    bureau: &mut B,
    path: &str,
    limits: Limits,
) -> KeptFinish<B::Src, B::Dst, B::Way, B::Store>
    ensures keep { DoesKeep (record {
      outside = record {
        offices = B.meaning;
        streams = record { sources = B.Src.meaning; sinks = B.Dst.meaning };
        doors = B.Way.meaning;
      };
      bureaus = B.bureaus;
      disks = record {
        tells = B.Store.tells;
        seen = B.Store.seen;
        may_leave = B.Store.may_leave;
        moment = B.Store.moment;
        left_since = B.Store.left_since;
        faults = B.Store.faults;
      };
    }) limits bureau.old bureau.new path.now result }
    ensures office { KeepsOffice B.meaning bureau.old bureau.new }
{
    let Some(room) = make_room(alloc) else {
        return nothing(alloc, Status::Memory);
    };
    let store = match open_store(bureau, path) {
        Ok(store) => store,
        Err(status) => return nothing(alloc, status),
    };
    let opened = match open_streams(bureau) {
        Ok(opened) => opened,
        Err(lacks) => return unpaired(alloc, lacks, store),
    };
    let life = keep_repository(rt, alloc, limits, store, opened.source, opened.sink);
    lived(alloc, room, life)
}
