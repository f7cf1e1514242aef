//! The sessions that run in threads.
ghost use Rattle.std.specs.Prelude.{◌≡◌, ℕ, ◌<◌, length, slice_index_or, All};
ghost use Rattle.pj_machine.specs.Call.{IsFresh};
ghost use Rattle.pj_load.specs.Seats.{HasSpoken};

use crate::seeing::Entering;
use crate::speaking::speak;
use pj_change::Bytes;
use pj_machine::{Limits, Replier};
use pj_session::End;
use std::alloc::Global;
use std::sync::Wait;
use std::thread::{Threads, for_each_mut};

/// A session: its pass, its script, what was seen of its replies, and how it ended.
#[derive(Drop)]
pub(crate) struct Seat<T> {
    pub(crate) pass: T,
    pub(crate) script: Bytes,
    pub(crate) seen: Entering,
    pub(crate) end: End,
}

/// Runs one session to its end.
fn run_seat<P: Replier, R: Threads + Wait + Sync>(
    rt: &R,
    alloc: Global,
    replier: &P,
    limits: Limits,
    seat: &mut Seat<P::Pass>,
)
    requires fresh { IsFresh (P.view seat.old.pass) }
    requires limits { P.limits replier.now ≡ limits }
    ensures { HasSpoken P.view limits seat.old seat.new }
{
    seat.end = speak(
        rt,
        alloc,
        &mut seat.seen,
        replier,
        &mut seat.pass,
        seat.script.items(),
    );
}

/// Runs all sessions to their ends, in as many threads.
fn run_seats<P: Replier + Sync, R: Threads + Wait + Sync>(
    rt: &R,
    alloc: Global,
    replier: &P,
    limits: Limits,
    seats: &mut [Seat<P::Pass>],
)
where
    P::Pass: Send,
    requires fresh { All (λ seat. IsFresh (P.view seat.pass)) seats.old }
    requires limits { P.limits replier.now ≡ limits }
    ensures count { length seats.new ≡ length seats.old }
    ensures each { (i : ℕ) (d : _) → i < length seats.old →
        HasSpoken P.view limits (slice_index_or seats.old i d) (slice_index_or seats.new i d) }
{
    let threads = seats.len().max(1);
    for_each_mut(
        rt,
        seats,
        threads,
        &|_: usize, seat: &mut Seat<P::Pass>|
            requires { IsFresh (P.view seat.old.pass) × (P.limits replier.now ≡ limits) }
            ensures { HasSpoken P.view limits seat.old seat.new }
        { run_seat(rt, alloc, replier, limits, seat) },
    );
}

/// The same over a list.
pub(crate) fn spoken<P: Replier + Sync, R: Threads + Wait + Sync>(
    rt: &R,
    alloc: Global,
    replier: &P,
    limits: Limits,
    mut seats: Vec<Seat<P::Pass>>,
) -> Vec<Seat<P::Pass>>
where
    P::Pass: Send,
    requires fresh { All (λ seat. IsFresh (P.view seat.pass)) seats.items }
    requires limits { P.limits replier.now ≡ limits }
    ensures count { length result.items ≡ length seats.items }
    ensures each { (i : ℕ) (d : _) → i < length seats.items →
        HasSpoken P.view limits (slice_index_or seats.items i d) (slice_index_or result.items i d) }
{
    run_seats(rt, alloc, replier, limits, seats.as_mut_slice());
    seats
}
