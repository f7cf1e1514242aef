//! A session over a store.
ghost use Rattle.std.specs.Prelude.{◌≡◌};
ghost use mathlib.Core.List.{IsPrefix};
ghost use Rattle.pj_machine.specs.Call.{IsFresh};
ghost use Rattle.pj_stored.specs.Recorded.{IsReady};
ghost use Rattle.pj_keep.specs.Session.{KeptSession};

use pj_disk::Disk;
use pj_io::{Sink, Source};
use pj_machine::{Limits, Replier};
use pj_session::End;
use pj_stored::{Stored, kept_session};
use std::alloc::Global;
use std::sync::Wait;
use std::thread::Threads;

/// A session over a store that was opened: each request that is accepted is in each image of the disk before its reply is
/// given. It answers how the session ended, and the disk. It may wait.
pub fn keep_session<K: Disk, P: Replier, S: Source, D: Sink, R: Threads + Wait + Sync>(
    rt: &R,
    alloc: Global,
    stored: Stored<K>,
    replier: &P,
    limits: Limits,
    pass: &mut P::Pass,
    source: &mut S,
    sink: &mut D,
) -> (End, K)
    requires ready { IsReady K.tells K.seen K.may_leave stored }
    requires fresh { IsFresh (P.view pass.old) }
    requires limits { P.limits replier.now ≡ limits }
    ensures number { (P.view pass.new).number ≡ (P.view pass.old).number }
    ensures journal { IsPrefix (P.view pass.old).journal (P.view pass.new).journal }
    ensures kept { KeptSession
        (record { tells = K.tells; seen = K.seen; may_leave = K.may_leave; moment = K.moment; left_since = K.left_since; faults = K.faults })
        (record { sources = S.meaning; sinks = D.meaning }) limits
        (P.view pass.new).journal (P.view pass.new).number stored.disk result.1
        source.old source.new sink.old sink.new result.0 }
{
    let mut stored = stored;
    let end = kept_session(
        rt,
        alloc,
        &mut stored,
        replier,
        pass,
        source,
        sink,
        limits.session,
    );
    (end, stored.close())
}
