//! One worker at its door: a session over each pair that the door gives, each with a pass of its own.
ghost use Rattle.std.specs.Prelude.{◌≡◌, ◌≤◌, ◌+◌, [], length, vec_capacity};
ghost use Rattle.pj_machine.specs.Call.{IsFresh};
ghost use Rattle.pj_serve.specs.Served.{Spoken};
ghost use Rattle.pj_serve.specs.Workers.{IsReady, HasWorked, IsOwnEnd, HasGiven, Working, AreNew};

use crate::finish::Kept;
use pj_io::{Door, DoorRefusal, Sink, Source};
use pj_machine::{Limits, Replier};
use pj_session::{End, Ended, session};
use std::alloc::Global;
use std::sync::Wait;
use std::thread::Threads;

/// The pass of a session that may come.
#[derive(Drop)]
pub struct Turn<T> {
    /// The number of the pass.
    pub number: u32,
    pub pass: T,
}

/// A worker: its door, and what its sessions need and leave.
#[derive(Drop)]
pub struct Worker<T, S, D, V> {
    pub door: V,
    /// The passes, in the order in which sessions get them.
    pub turns: Vec<Turn<T>>,
    /// What its sessions used, in the order in which they came.
    pub kept: Vec<Kept<S, D>>,
    /// How its sessions ended, in the same order.
    pub ends: Vec<Ended>,
    /// How it ended itself, where it stopped before its door had no session left.
    pub own: Option<End>,
}

/// Runs a session over a pair.
fn attend<P: Replier, S: Source, D: Sink, R: Threads + Wait + Sync>(
    rt: &R,
    alloc: Global,
    replier: &P,
    limits: Limits,
    turn: &mut Turn<P::Pass>,
    mut source: S,
    mut sink: D,
) -> (Kept<S, D>, Ended)
    requires fresh { IsFresh (P.view turn.old.pass) }
    requires limits { P.limits replier.now ≡ limits }
    ensures number { turn.new.number ≡ turn.old.number }
    ensures kept_pass { result.0.pass ≡ turn.old.number }
    ensures ended_pass { result.1.pass ≡ turn.old.number }
    ensures spoken { Spoken (record { sources = S.meaning; sinks = D.meaning }) limits (P.view turn.old.pass) (P.view turn.new.pass) source result.0.source sink result.0.sink result.1.end }
{
    let end = session(
        rt,
        alloc,
        replier,
        &mut turn.pass,
        &mut source,
        &mut sink,
        limits.session,
    );
    let pass = turn.number;
    (Kept { pass, source, sink }, Ended { pass, end })
}

/// Runs a session over each pair of the door, with the next pass. It takes no memory of its own.
fn serve_all<P: Replier, V: Door, R: Threads + Wait + Sync>(
    rt: &R,
    alloc: Global,
    replier: &P,
    limits: Limits,
    turns: &mut [Turn<P::Pass>],
    door: &mut V,
    kept: &mut Vec<Kept<V::Src, V::Dst>>,
    ends: &mut Vec<Ended>,
) -> Option<End>
    requires turns { AreNew P.view turns.old }
    requires limits { P.limits replier.now ≡ limits }
    requires count { length turns.old ≡ V.meaning.left door.old }
    requires kept { (kept.old.items ≡ []) × (length turns.old ≤ vec_capacity kept.old) }
    requires ends { (ends.old.items ≡ []) × (length turns.old ≤ vec_capacity ends.old) }
    ensures own { IsOwnEnd V.meaning door.old door.new result }
    ensures door { HasGiven V.meaning door.old door.new (length kept.new.items) }
    ensures working { Working P.view V.meaning (record { sources = V.Src.meaning; sinks = V.Dst.meaning }) limits door.old door.new turns.old turns.new kept.new.items ends.new.items }
{
    for turn in turns.iter_mut() {
        let (source, sink) = match door.accept() {
            Ok(Some((source, sink))) => (source, sink),
            Ok(None) => return None,
            Err(DoorRefusal::Failed) => return Some(End::ReadFault),
            Err(DoorRefusal::Memory) => return Some(End::Memory),
        };
        let (used, ended) = attend(rt, alloc, replier, limits, turn, source, sink);
        kept.push_reserved(used);
        ends.push_reserved(ended);
    }
    None
}

/// The whole work of a worker: a session over each pair that its door gives, in their order, the k-th with the k-th pass. It stops
/// where the door has no session left or refuses, and may wait. Its lists have room, so it takes no memory but that of the sessions.
pub fn work<P: Replier, V: Door, R: Threads + Wait + Sync>(
    rt: &R,
    alloc: Global,
    replier: &P,
    limits: Limits,
    worker: &mut Worker<P::Pass, V::Src, V::Dst, V>,
)
    requires ready { IsReady P.view V.meaning worker.old }
    requires limits { P.limits replier.now ≡ limits }
    ensures { HasWorked P.view V.meaning (record { sources = V.Src.meaning; sinks = V.Dst.meaning }) limits worker.old worker.new }
{
    worker.own = serve_all(
        rt,
        alloc,
        replier,
        limits,
        worker.turns.as_mut_slice(),
        &mut worker.door,
        &mut worker.kept,
        &mut worker.ends,
    );
}
