//! The life of a repository, from the passes that it is made with to its journal.
ghost use Rattle.std.specs.Prelude.{◌≡◌, []};
ghost use Rattle.pj_kept.specs.Life.{HasLived, store_left, stop_left};

use crate::journals::{journal_of_one, journal_of_two};
use pj_book::{Keeps, Pass};
use pj_disk::Disk;
use pj_io::{Sink, Source};
use pj_keep::{Stop, keep_session};
use pj_machine::{Entries, Limits};
use pj_repo::{LockedState, Repo};
use pj_session::End;
use pj_stored::{StoreRefusal, open_store};
use std::alloc::Global;
use std::sync::Wait;
use std::thread::Threads;

/// How the life of a kept repository ended.
#[derive(Clone, Copy, Debug, PartialEq, Eq)]
pub enum Ending {
    /// It was restored, and its session ended so.
    Spoke(End),
    /// It was not restored.
    Stopped(Stop),
}

/// What the life of a kept repository leaves.
#[derive(Drop)]
pub struct Life<K, S, D> {
    /// The entries of pass 1, which restored it, and then those of pass 2, which spoke.
    pub journal: Entries,
    pub store: K,
    pub source: S,
    pub sink: D,
    pub ending: Ending,
}

/// What is left where there was no memory for a repository.
pub(crate) fn not_begun<K: Disk, S: Source, D: Sink>(
    alloc: Global,
    limits: Limits,
    store: K,
    source: S,
    sink: D,
) -> Life<K, S, D>
    ensures { HasLived
        (record { tells = K.tells; seen = K.seen; may_leave = K.may_leave; moment = K.moment; left_since = K.left_since; faults = K.faults })
        (record { sources = S.meaning; sinks = D.meaning }) limits store source sink result }
{
    let _limits = limits;
    Life {
        journal: Entries::of(Vec::new(alloc)),
        store,
        source,
        sink,
        ending: Ending::Stopped(Stop::Memory),
    }
}

/// Why a store was not restored, and its disk.
fn stop_of<K>(refusal: StoreRefusal<K>) -> (Stop, K)
    ensures stop { result.0 ≡ stop_left refusal }
    ensures store { result.1 ≡ store_left refusal }
{
    match refusal {
        StoreRefusal::Foreign(store) => (Stop::Foreign, store),
        StoreRefusal::Store(store) => (Stop::Store, store),
        StoreRefusal::Memory(store) => (Stop::Memory, store),
    }
}

/// Pass 1 restores the repository from the disk, and where it was restored pass 2 speaks.
pub(crate) fn keep_in<
    N: Keeps<LockedState> + Send + Sync,
    K: Disk,
    S: Source,
    D: Sink,
    R: Threads + Wait + Sync,
>(
    rt: &R,
    alloc: Global,
    started: (Repo<N>, Pass<LockedState, N>),
    limits: Limits,
    disk: K,
    mut source: S,
    mut sink: D,
) -> Life<K, S, D>
    requires repo { started.0 ≡ record { made = 1; limits = limits } }
    requires zero { started.1 ≡ record { number = 0; calls = 0; seen = [] } }
    ensures { HasLived
        (record { tells = K.tells; seen = K.seen; may_leave = K.may_leave; moment = K.moment; left_since = K.left_since; faults = K.faults })
        (record { sources = S.meaning; sinks = D.meaning }) limits disk source sink result }
{
    let Ok(passes) = Vec::with_capacity(alloc, 3) else {
        return not_begun(alloc, limits, disk, source, sink);
    };
    let (mut repo, mut zero) = started;
    let mut first = repo.pass(rt, &mut zero);
    let stored = match open_store(rt, alloc, &repo, &mut first, disk) {
        Ok(stored) => stored,
        Err(refusal) => {
            let (stop, store) = stop_of(refusal);
            return Life {
                journal: journal_of_one(repo, passes, zero, first),
                store,
                source,
                sink,
                ending: Ending::Stopped(stop),
            };
        }
    };
    let mut second = repo.pass(rt, &mut first);
    let (end, store) = keep_session(
        rt,
        alloc,
        stored,
        &repo,
        limits,
        &mut second,
        &mut source,
        &mut sink,
    );
    Life {
        journal: journal_of_two(repo, passes, zero, first, second),
        store,
        source,
        sink,
        ending: Ending::Spoke(end),
    }
}
