//! Sessions, each in a thread of its own.
ghost use Rattle.std.specs.Prelude.{◌≡◌, ℕ, ◌<◌, length, slice_index_or, All};
ghost use Rattle.pj_machine.specs.Call.{IsFresh};
ghost use Rattle.pj_serve.specs.Served.{Spoken};

use pj_io::{Sink, Source};
use pj_machine::{Limits, Replier};
use pj_session::{End, session};
use std::alloc::Global;
use std::sync::Wait;
use std::thread::{Threads, for_each_mut};

/// A session: its pass, what was opened for it, and how it ended.
#[derive(Drop)]
pub(crate) struct Seat<T, S, D> {
    pub(crate) pass: T,
    pub(crate) source: S,
    pub(crate) sink: D,
    pub(crate) end: End,
}

/// Runs one session to its end.
fn speak<P: Replier, S: Source, D: Sink, R: Threads + Wait + Sync>(
    rt: &R,
    alloc: Global,
    replier: &P,
    limits: Limits,
    seat: &mut Seat<P::Pass, S, D>,
)
    requires fresh { IsFresh (P.view seat.old.pass) }
    requires limits { P.limits replier.now ≡ limits }
    ensures { Spoken (record { sources = S.meaning; sinks = D.meaning }) limits (P.view seat.old.pass) (P.view seat.new.pass) seat.old.source seat.new.source seat.old.sink seat.new.sink seat.new.end }
{
    seat.end = session(
        rt,
        alloc,
        replier,
        &mut seat.pass,
        &mut seat.source,
        &mut seat.sink,
        limits.session,
    );
}

/// Runs all sessions to their ends, in as many threads.
fn speak_all<P: Replier + Sync, S: Source + Send, D: Sink + Send, R: Threads + Wait + Sync>(
    rt: &R,
    alloc: Global,
    replier: &P,
    limits: Limits,
    seats: &mut [Seat<P::Pass, S, D>],
)
where
    P::Pass: Send,
    requires fresh { All (λ seat. IsFresh (P.view seat.pass)) seats.old }
    requires limits { P.limits replier.now ≡ limits }
    ensures { (i : ℕ) (d : _) → i < length seats.old → Spoken (record { sources = S.meaning; sinks = D.meaning }) limits (P.view (slice_index_or seats.old i d).pass) (P.view (slice_index_or seats.new i d).pass)
        (slice_index_or seats.old i d).source (slice_index_or seats.new i d).source
        (slice_index_or seats.old i d).sink (slice_index_or seats.new i d).sink (slice_index_or seats.new i d).end }
{
    let threads = seats.len().max(1);
    for_each_mut(
        rt,
        seats,
        threads,
        &|_: usize, seat: &mut Seat<P::Pass, S, D>|
            requires { IsFresh (P.view seat.old.pass) × (P.limits replier.now ≡ limits) }
            ensures { Spoken (record { sources = S.meaning; sinks = D.meaning }) limits (P.view seat.old.pass) (P.view seat.new.pass) seat.old.source seat.new.source seat.old.sink seat.new.sink seat.new.end }
        { speak(rt, alloc, replier, limits, seat) },
    );
}

/// The same over a list.
pub(crate) fn spoken<P: Replier + Sync, S: Source + Send, D: Sink + Send, R: Threads + Wait + Sync>(
    rt: &R,
    alloc: Global,
    replier: &P,
    limits: Limits,
    mut seats: Vec<Seat<P::Pass, S, D>>,
) -> Vec<Seat<P::Pass, S, D>>
where
    P::Pass: Send,
    requires fresh { All (λ seat. IsFresh (P.view seat.pass)) seats.items }
    requires limits { P.limits replier.now ≡ limits }
    ensures count { length result.items ≡ length seats.items }
    ensures each { (i : ℕ) (d : _) → i < length seats.items → Spoken (record { sources = S.meaning; sinks = D.meaning }) limits (P.view (slice_index_or seats.items i d).pass) (P.view (slice_index_or result.items i d).pass)
        (slice_index_or seats.items i d).source (slice_index_or result.items i d).source
        (slice_index_or seats.items i d).sink (slice_index_or result.items i d).sink (slice_index_or result.items i d).end }
{
    speak_all(rt, alloc, replier, limits, seats.as_mut_slice());
    seats
}
