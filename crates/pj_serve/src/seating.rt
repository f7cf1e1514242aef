//! Sessions over one repository: each has a pass, and in the end the passes close it.
ghost use Rattle.std.specs.Prelude.{◌≡◌, ℕ, ◌+◌, ◌<◌, ◌≤◌, [], ◌∷◌, length, map, All, IfSome, vec_capacity};
ghost use Rattle.pj_machine.specs.Call.{own};
ghost use Rattle.pj_repo.specs.Views.{pass_view};
ghost use Rattle.pj_serve.specs.Seats.{Seated};
ghost use Rattle.pj_serve.specs.Served.{AreSessions};

use crate::finish::Kept;
use crate::opening::Opened;
use crate::sessions::{Seat, spoken};
use pj_book::{Keeps, Pass};
use pj_io::{Sink, Source};
use pj_load::journal_of;
use pj_machine::{Entries, Limits};
use pj_repo::{LockedState, Repo};
use pj_session::{End, Ended, Ends};
use std::alloc::Global;
use std::collections::VecDeque;
use std::sync::Wait;
use std::thread::Threads;

/// The most sessions.
pub(crate) const MOST_SESSIONS: usize = 65_536;

/// What all sessions leave.
#[derive(Drop)]
pub(crate) struct SessionsLeft<S, D> {
    pub(crate) journal: Entries,
    pub(crate) ends: Ends,
    pub(crate) kept: Vec<Kept<S, D>>,
}

// Room for as many sessions, and for the first pass. All memory is taken here.
#[derive(Drop)]
struct Room<N: Keeps<LockedState>, S, D> {
    seats: Vec<Seat<Pass<LockedState, N>, S, D>>,
    passes: Vec<Pass<LockedState, N>>,
    kept: Vec<Kept<S, D>>,
    ends: Vec<Ended>,
}

fn room_for<N: Keeps<LockedState>, S: Drop, D: Drop>(
    alloc: Global,
    count: usize,
) -> Option<Room<N, S, D>>
    requires { count ≤ MOST_SESSIONS }
    ensures seats { IfSome result (λ room. (room.seats.items ≡ []) × (count ≤ vec_capacity room.seats)) }
    ensures passes { IfSome result (λ room. (room.passes.items ≡ []) × (count + 1 ≤ vec_capacity room.passes)) }
    ensures kept { IfSome result (λ room. (room.kept.items ≡ []) × (count ≤ vec_capacity room.kept)) }
    ensures ends { IfSome result (λ room. (room.ends.items ≡ []) × (count ≤ vec_capacity room.ends)) }
{
    let seats = Vec::with_capacity(alloc, count).ok()?;
    let passes = Vec::with_capacity(alloc, count + 1).ok()?;
    let kept = Vec::with_capacity(alloc, count).ok()?;
    let ends = Vec::with_capacity(alloc, count).ok()?;
    Some(Room {
        seats,
        passes,
        kept,
        ends,
    })
}

// A new pass for each session, in their order. It takes no memory.
fn seated<N: Keeps<LockedState>, S: Drop, D: Drop, R: Wait>(
    rt: &R,
    repo: &mut Repo<N>,
    zero: &mut Pass<LockedState, N>,
    opened: Vec<Opened<S, D>>,
    mut seats: Vec<Seat<Pass<LockedState, N>, S, D>>,
) -> Vec<Seat<Pass<LockedState, N>, S, D>>
    requires first { repo.old.made ≡ 1 }
    requires few { length opened.items ≤ MOST_SESSIONS }
    requires room { (seats.items ≡ []) × (length opened.items ≤ vec_capacity seats) }
    ensures seated { Seated pass_view opened.items result.items [] }
    ensures made { repo.new.made ≡ 1 + length opened.items }
    ensures limits { repo.new.limits ≡ repo.old.limits }
    ensures number { zero.new.number ≡ zero.old.number }
    ensures own { own (pass_view zero.new) ≡ own (pass_view zero.old) }
{
    let mut opened = VecDeque::from_vec(opened);
    while let Some(Opened { source, sink }) = opened.pop_front() {
        let pass = repo.pass(rt, zero);
        seats.push_reserved(Seat {
            pass,
            source,
            sink,
            end: End::Spent,
        });
    }
    seats
}

// The seats are taken apart: the passes, with the first one before them, and what each session leaves. It takes no memory.
fn parted<N: Keeps<LockedState>, S: Drop, D: Drop>(
    zero: Pass<LockedState, N>,
    seats: Vec<Seat<Pass<LockedState, N>, S, D>>,
    mut passes: Vec<Pass<LockedState, N>>,
    mut kept: Vec<Kept<S, D>>,
    mut ends: Vec<Ended>,
) -> (Vec<Pass<LockedState, N>>, Vec<Kept<S, D>>, Vec<Ended>)
    requires passes { (passes.items ≡ []) × (length seats.items + 1 ≤ vec_capacity passes) }
    requires kept { (kept.items ≡ []) × (length seats.items ≤ vec_capacity kept) }
    requires ends { (ends.items ≡ []) × (length seats.items ≤ vec_capacity ends) }
    ensures passes { result.0.items ≡ zero ∷ map (λ s. s.pass) seats.items }
    ensures kept { result.1.items ≡ map (λ s. record { pass = s.pass.number; source = s.source; sink = s.sink }) seats.items }
    ensures ends { result.2.items ≡ map (λ s. record { pass = s.pass.number; end = s.end }) seats.items }
{
    passes.push_reserved(zero);
    let mut seats = VecDeque::from_vec(seats);
    while let Some(
        Seat {
            pass,
            source,
            sink,
            end,
        },
    ) = seats.pop_front()
    {
        let number = pass.number();
        passes.push_reserved(pass);
        kept.push_reserved(Kept {
            pass: number,
            source,
            sink,
        });
        ends.push_reserved(Ended { pass: number, end });
    }
    (passes, kept, ends)
}

/// All sessions, over a new repository and its first pass. `None` where memory was wanted before the first session.
pub(crate) fn speak_in<
    N: Keeps<LockedState> + Send + Sync,
    S: Source + Send + Drop,
    D: Sink + Send + Drop,
    R: Threads + Wait + Sync,
>(
    rt: &R,
    alloc: Global,
    mut repo: Repo<N>,
    mut zero: Pass<LockedState, N>,
    limits: Limits,
    opened: Vec<Opened<S, D>>,
) -> Option<SessionsLeft<S, D>>
    requires few { length opened.items ≤ MOST_SESSIONS }
    requires repo { repo ≡ record { made = 1; limits = limits } }
    requires zero { zero ≡ record { number = 0; calls = 0; seen = [] } }
    ensures { IfSome result (λ held. AreSessions (record { sources = S.meaning; sinks = D.meaning }) limits held.journal opened.items held.kept.items held.ends) }
{
    let Room {
        seats,
        passes,
        kept,
        ends,
    } = room_for(alloc, opened.len())?;
    let seats = seated(rt, &mut repo, &mut zero, opened, seats);
    let seats = spoken(rt, alloc, &repo, limits, seats);
    let (passes, kept, ends) = parted(zero, seats, passes, kept, ends);
    let journal = journal_of(repo, passes);
    Some(SessionsLeft {
        journal,
        ends: Ends::of(ends),
        kept,
    })
}
