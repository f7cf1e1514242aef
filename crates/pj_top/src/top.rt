//! The top call.
ghost use Rattle.std.specs.Prelude.{◌≡◌, None};
ghost use Rattle.pj_serve.specs.Promises.{Promises};
ghost use Rattle.pj_top.specs.Keeps.{KeptPromises};

use crate::finish::KeptFinish;
use crate::keep::keep;
use crate::words::kept_path;
use pj_bureau::Bureau;
use pj_machine::Limits;
use pj_serve::run_with;
use std::alloc::Global;
use std::sync::Wait;
use std::thread::Threads;

/// What the program does with other words than those of `keep`. No store is opened.
fn plain<R: Threads + Wait + Sync, B: Bureau>(
    rt: &R,
    alloc: Global,
    bureau: &mut B,
    words: &[String],
    limits: Limits,
) -> KeptFinish<B::Src, B::Dst, B::Way, B::Store>
    ensures finish { Promises (record {
      offices = B.meaning;
      streams = record { sources = B.Src.meaning; sinks = B.Dst.meaning };
      doors = B.Way.meaning;
    }) limits bureau.old bureau.new words.now result.finish }
    ensures store { result.store ≡ None }
{
    KeptFinish {
        finish: run_with(rt, alloc, bureau, words, limits),
        store: None,
    }
}

/// All that the program does with these words, those after the program's name, under these limits.
pub fn run_kept<R: Threads + Wait + Sync, B: Bureau>(
    rt: &R,
    alloc: Global,
    bureau: &mut B,
    words: &[String],
    limits: Limits,
) -> KeptFinish<B::Src, B::Dst, B::Way, B::Store>
    ensures { KeptPromises (record {
      outside = record {
        offices = B.meaning;
        streams = record { sources = B.Src.meaning; sinks = B.Dst.meaning };
        doors = B.Way.meaning;
      };
      bureaus = B.bureaus;
      disks = record {
        tells = B.Store.tells;
        seen = B.Store.seen;
        may_leave = B.Store.may_leave;
        moment = B.Store.moment;
        left_since = B.Store.left_since;
        faults = B.Store.faults;
      };
    }) limits bureau.old bureau.new words.now result }
{
    match kept_path(words) {
        Some(path) => keep(rt, alloc, bureau, path, limits),
        None => plain(rt, alloc, bureau, words, limits),
    }
}
