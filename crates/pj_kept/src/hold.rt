//! A kept repository under a name that carries its limits.
ghost use Rattle.std.specs.Prelude.{◌≡◌, ◌↔◌};
ghost use Rattle.pj_kept.specs.Life.{HasLived};

use crate::life::{Life, keep_in, not_begun};
use pj_book::{Blank, Keeps};
use pj_disk::Disk;
use pj_io::{Sink, Source};
use pj_machine::Limits;
use pj_repo::{LockedState, Repo};
use std::alloc::Global;
use std::marker::Brand;
use std::sync::Wait;
use std::thread::Threads;

// The whole life, under a name that carries the limits. What has the name in its type stays within.
fn hold<N: Keeps<LockedState> + Send + Sync, K: Disk, S: Source, D: Sink, R: Threads + Wait + Sync>(
    rt: &R,
    alloc: Global,
    blank: Blank<LockedState>,
    limits: Limits,
    disk: K,
    source: S,
    sink: D,
) -> Life<K, S, D>
    requires table { blank ≡ N.table }
    requires keeps { (s : LockedState) → N.keeps s ↔ (s.limits ≡ limits) }
    ensures { HasLived
        (record { tells = K.tells; seen = K.seen; may_leave = K.may_leave; moment = K.moment; left_since = K.left_since; faults = K.faults })
        (record { sources = S.meaning; sinks = D.meaning }) limits disk source sink result }
{
    let Ok(started) = Repo::<N>::start(blank, alloc, limits) else {
        return not_begun(alloc, limits, disk, source, sink);
    };
    keep_in(rt, alloc, started, limits, disk, source, sink)
}

/// The life of a repository of its own that is kept on a disk: it is restored from there, and then speaks over the source and
/// the sink. It may wait.
pub fn keep_repository<K: Disk, S: Source, D: Sink, R: Threads + Wait + Sync>(
    rt: &R,
    alloc: Global,
    limits: Limits,
    disk: K,
    source: S,
    sink: D,
) -> Life<K, S, D>
    ensures { HasLived
        (record { tells = K.tells; seen = K.seen; may_leave = K.may_leave; moment = K.moment; left_since = K.left_since; faults = K.faults })
        (record { sources = S.meaning; sinks = D.meaning }) limits disk source sink result }
{
    let Ok(blank) = Blank::new(alloc) else {
        return not_begun(alloc, limits, disk, source, sink);
    };
    hold::<Brand, K, S, D, R>(rt, alloc, blank, limits, disk, source, sink)
}
