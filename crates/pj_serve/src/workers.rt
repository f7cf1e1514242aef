//! Workers, each in a thread of its own.
ghost use Rattle.std.specs.Prelude.{◌≡◌, ℕ, ◌<◌, length, slice_index_or, All};
ghost use Rattle.pj_serve.specs.Workers.{IsReady, HasWorked};

use crate::working::{Worker, work};
use pj_io::Door;
use pj_machine::{Limits, Replier};
use std::alloc::Global;
use std::sync::Wait;
use std::thread::{Threads, for_each_mut};

/// Lets all workers work, in as many threads.
fn work_all<P: Replier + Sync, V: Door + Send, R: Threads + Wait + Sync>(
    rt: &R,
    alloc: Global,
    replier: &P,
    limits: Limits,
    workers: &mut [Worker<P::Pass, V::Src, V::Dst, V>],
)
where
    P::Pass: Send,
    V::Src: Send,
    V::Dst: Send,
    requires ready { All (IsReady P.view V.meaning) workers.old }
    requires limits { P.limits replier.now ≡ limits }
    ensures { (i : ℕ) (d : _) → i < length workers.old → HasWorked P.view V.meaning (record { sources = V.Src.meaning; sinks = V.Dst.meaning }) limits (slice_index_or workers.old i d) (slice_index_or workers.new i d) }
{
    let threads = workers.len().max(1);
    for_each_mut(
        rt,
        workers,
        threads,
        &|_: usize, worker: &mut Worker<P::Pass, V::Src, V::Dst, V>|
            requires { IsReady P.view V.meaning worker.old × (P.limits replier.now ≡ limits) }
            ensures { HasWorked P.view V.meaning (record { sources = V.Src.meaning; sinks = V.Dst.meaning }) limits worker.old worker.new }
        { work(rt, alloc, replier, limits, worker) },
    );
}

/// The same over a list.
pub(crate) fn worked<P: Replier + Sync, V: Door + Send, R: Threads + Wait + Sync>(
    rt: &R,
    alloc: Global,
    replier: &P,
    limits: Limits,
    mut workers: Vec<Worker<P::Pass, V::Src, V::Dst, V>>,
) -> Vec<Worker<P::Pass, V::Src, V::Dst, V>>
where
    P::Pass: Send,
    V::Src: Send,
    V::Dst: Send,
    requires ready { All (IsReady P.view V.meaning) workers.items }
    requires limits { P.limits replier.now ≡ limits }
    ensures count { length result.items ≡ length workers.items }
    ensures each { (i : ℕ) (d : _) → i < length workers.items → HasWorked P.view V.meaning (record { sources = V.Src.meaning; sinks = V.Dst.meaning }) limits (slice_index_or workers.items i d) (slice_index_or result.items i d) }
{
    work_all(rt, alloc, replier, limits, workers.as_mut_slice());
    workers
}
