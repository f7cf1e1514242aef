//! Workers over one repository: each has a door, and passes for the sessions that may come.
ghost use Rattle.std.specs.Prelude.{◌≡◌, ◌+◌, ◌<◌, ◌≤◌, ◌↔◌, ◌^◌, [], ◌∷◌, length, map, IfSome, vec_capacity};
ghost use Rattle.pj_machine.specs.Call.{own};
ghost use Rattle.pj_repo.specs.Views.{pass_view};
ghost use Rattle.pj_serve.specs.Shares.{total};
ghost use Rattle.pj_serve.specs.Shifts.{AreServed};
ghost use Rattle.pj_serve.specs.Workers.{AreTurns, AreWorkers, IsWorkerAt};

use crate::finish::Kept;
use crate::leaving::{Left, parted, with_passes};
use crate::workers::worked;
use crate::working::{Turn, Worker};
use pj_book::{Blank, Keeps, Pass};
use pj_io::Door;
use pj_load::journal_of;
use pj_machine::{Entries, Limits};
use pj_repo::{LockedState, Repo};
use pj_session::Ends;
use pj_words::Request;
use std::alloc::Global;
use std::collections::VecDeque;
use std::marker::Brand;
use std::sync::Wait;
use std::thread::Threads;

/// What all workers leave, and the journal.
#[derive(Drop)]
pub(crate) struct WorkersLeft<S, D, V> {
    pub(crate) journal: Entries,
    pub(crate) ends: Ends,
    pub(crate) kept: Vec<Kept<S, D>>,
    pub(crate) doors: Vec<V>,
}

// New passes, as many as asked for. It takes no memory.
fn turns_for<N: Keeps<LockedState>, R: Wait>(
    rt: &R,
    repo: &mut Repo<N>,
    zero: &mut Pass<LockedState, N>,
    mut turns: Vec<Turn<Pass<LockedState, N>>>,
    count: u32,
) -> Vec<Turn<Pass<LockedState, N>>>
    requires room { (turns.items ≡ []) × (count ≤ vec_capacity turns) }
    requires few { repo.old.made + count ≤ 2 ^ 32 }
    ensures turns { AreTurns pass_view repo.old.made result.items }
    ensures count { length result.items ≡ count }
    ensures made { repo.new.made ≡ repo.old.made + count }
    ensures limits { repo.new.limits ≡ repo.old.limits }
    ensures number { zero.new.number ≡ zero.old.number }
    ensures own { own (pass_view zero.new) ≡ own (pass_view zero.old) }
{
    for _turn in 0..count {
        let pass = repo.pass(rt, zero);
        let number = pass.number();
        turns.push_reserved(Turn { number, pass });
    }
    turns
}

// A worker at this door. `None` where memory was wanted.
fn worker_at<N: Keeps<LockedState>, V: Door + Drop, R: Wait>(
    rt: &R,
    alloc: Global,
    repo: &mut Repo<N>,
    zero: &mut Pass<LockedState, N>,
    door: V,
) -> Option<Worker<Pass<LockedState, N>, V::Src, V::Dst, V>>
    requires few { repo.old.made + V.meaning.left door ≤ 2 ^ 32 }
    ensures worker { IfSome result (IsWorkerAt pass_view V.meaning repo.old.made door) }
    ensures made { IfSome result (λ _. repo.new.made ≡ repo.old.made + V.meaning.left door) }
    ensures limits { repo.new.limits ≡ repo.old.limits }
    ensures number { zero.new.number ≡ zero.old.number }
    ensures own { own (pass_view zero.new) ≡ own (pass_view zero.old) }
{
    let count = door.left();
    let turns = Vec::with_capacity(alloc, count as usize).ok()?;
    let kept = Vec::with_capacity(alloc, count as usize).ok()?;
    let ends = Vec::with_capacity(alloc, count as usize).ok()?;
    let turns = turns_for(rt, repo, zero, turns, count);
    Some(Worker {
        door,
        turns,
        kept,
        ends,
        own: None,
    })
}

// A worker at each door, in their order. `None` where memory was wanted.
fn workers_at<N: Keeps<LockedState>, V: Door + Drop, R: Wait>(
    rt: &R,
    alloc: Global,
    repo: &mut Repo<N>,
    zero: &mut Pass<LockedState, N>,
    doors: Vec<V>,
) -> Option<Vec<Worker<Pass<LockedState, N>, V::Src, V::Dst, V>>>
    requires few { repo.old.made + total (map V.meaning.left doors.items) ≤ 2 ^ 32 }
    ensures workers { IfSome result (λ workers. AreWorkers pass_view V.meaning repo.old.made doors.items workers.items) }
    ensures made { IfSome result (λ _. repo.new.made ≡ repo.old.made + total (map V.meaning.left doors.items)) }
    ensures limits { repo.new.limits ≡ repo.old.limits }
    ensures number { zero.new.number ≡ zero.old.number }
    ensures own { own (pass_view zero.new) ≡ own (pass_view zero.old) }
{
    let Ok(mut workers) = Vec::with_capacity(alloc, doors.len()) else {
        return None;
    };
    let mut doors = VecDeque::from_vec(doors);
    while let Some(door) = doors.pop_front() {
        let worker = worker_at(rt, alloc, repo, zero, door)?;
        workers.push_reserved(worker);
    }
    Some(workers)
}

// Room for what so many workers and sessions leave, and for the first pass. `None` where memory was wanted.
fn room_for<T: Drop, S: Drop, D: Drop, V: Drop>(
    alloc: Global,
    sessions: usize,
    workers: usize,
) -> Option<Left<T, S, D, V>>
    requires sessions { sessions ≤ 65536 }
    requires workers { workers ≤ 64 }
    ensures passes { IfSome result (λ room. (room.passes.items ≡ []) × (1 + workers + sessions ≤ vec_capacity room.passes)) }
    ensures kept { IfSome result (λ room. (room.kept.items ≡ []) × (sessions ≤ vec_capacity room.kept)) }
    ensures ends { IfSome result (λ room. (room.ends.items ≡ []) × (workers + sessions ≤ vec_capacity room.ends)) }
    ensures doors { IfSome result (λ room. (room.doors.items ≡ []) × (workers ≤ vec_capacity room.doors)) }
{
    let passes = Vec::with_capacity(alloc, 1 + workers + sessions).ok()?;
    let kept = Vec::with_capacity(alloc, sessions).ok()?;
    let ends = Vec::with_capacity(alloc, workers + sessions).ok()?;
    let doors = Vec::with_capacity(alloc, workers).ok()?;
    Some(Left {
        passes,
        kept,
        ends,
        doors,
    })
}

// The first pass and those of the workers themselves, in lists that are empty and have room for them.
fn with_first<T: Drop, S: Drop, D: Drop, V: Drop>(
    zero: T,
    own: Vec<Turn<T>>,
    room: Left<T, S, D, V>,
) -> Left<T, S, D, V>
    requires { (room.passes.items ≡ []) × (1 + length own.items ≤ vec_capacity room.passes) }
    ensures passes { result.passes.items ≡ zero ∷ map (λ t. t.pass) own.items }
    ensures capacity { vec_capacity room.passes ≤ vec_capacity result.passes }
    ensures others { (result.kept ≡ room.kept) × (result.ends ≡ room.ends) × (result.doors ≡ room.doors) }
{
    let Left {
        mut passes,
        kept,
        ends,
        doors,
    } = room;
    passes.push_reserved(zero);
    let passes = with_passes(passes, own);
    Left {
        passes,
        kept,
        ends,
        doors,
    }
}

// All workers, over a new repository and its first pass. All memory for passes and lists is taken before the first session can come;
// `None` where it was wanted.
fn serve_in<N: Keeps<LockedState> + Send + Sync, V: Door + Send + Drop, R: Threads + Wait + Sync>(
    rt: &R,
    alloc: Global,
    mut repo: Repo<N>,
    mut zero: Pass<LockedState, N>,
    limits: Limits,
    doors: Vec<V>,
    request: Request<'_>,
) -> Option<WorkersLeft<V::Src, V::Dst, V>>
where
    V::Src: Send,
    V::Dst: Send,
    requires few_workers { request.workers ≤ 64 }
    requires few_sessions { request.sessions ≤ 65536 }
    requires workers { length doors.items ≡ request.workers }
    requires sessions { total (map V.meaning.left doors.items) ≡ request.sessions }
    requires repo { repo ≡ record { made = 1; limits = limits } }
    requires zero { zero ≡ record { number = 0; calls = 0; seen = [] } }
    ensures { IfSome result (λ done. AreServed V.meaning (record { sources = V.Src.meaning; sinks = V.Dst.meaning }) limits done.journal doors.items done.doors.items done.kept.items done.ends) }
{
    let Request {
        sessions,
        workers,
        ..
    } = request;
    let room = room_for(alloc, sessions as usize, workers as usize)?;
    let own = Vec::with_capacity(alloc, workers as usize).ok()?;
    let own = turns_for(rt, &mut repo, &mut zero, own, workers);
    let workers = workers_at(rt, alloc, &mut repo, &mut zero, doors)?;
    let workers = worked(rt, alloc, &repo, limits, workers);
    let first = with_first(zero, own, room);
    let left = parted(workers, first);
    let journal = journal_of(repo, left.passes);
    Some(WorkersLeft {
        journal,
        ends: Ends::of(left.ends),
        kept: left.kept,
        doors: left.doors,
    })
}

// The whole life, under a name that carries the limits. What has the name in its type stays within.
fn hold<N: Keeps<LockedState> + Send + Sync, V: Door + Send + Drop, R: Threads + Wait + Sync>(
    rt: &R,
    alloc: Global,
    blank: Blank<LockedState>,
    limits: Limits,
    doors: Vec<V>,
    request: Request<'_>,
) -> Option<WorkersLeft<V::Src, V::Dst, V>>
where
    V::Src: Send,
    V::Dst: Send,
    requires table { blank ≡ N.table }
    requires keeps { (s : LockedState) → N.keeps s ↔ (s.limits ≡ limits) }
    requires few_workers { request.workers ≤ 64 }
    requires few_sessions { request.sessions ≤ 65536 }
    requires workers { length doors.items ≡ request.workers }
    requires sessions { total (map V.meaning.left doors.items) ≡ request.sessions }
    ensures { IfSome result (λ done. AreServed V.meaning (record { sources = V.Src.meaning; sinks = V.Dst.meaning }) limits done.journal doors.items done.doors.items done.kept.items done.ends) }
{
    let Ok((repo, zero)) = Repo::<N>::start(blank, alloc, limits) else {
        return None;
    };
    serve_in(rt, alloc, repo, zero, limits, doors, request)
}

/// A worker at each door, all on one new repository. `None` where memory was wanted before a session came.
pub(crate) fn run_workers<V: Door + Send + Drop, R: Threads + Wait + Sync>(
    rt: &R,
    alloc: Global,
    limits: Limits,
    doors: Vec<V>,
    request: Request<'_>,
) -> Option<WorkersLeft<V::Src, V::Dst, V>>
where
    V::Src: Send,
    V::Dst: Send,
    requires few_workers { request.workers ≤ 64 }
    requires few_sessions { request.sessions ≤ 65536 }
    requires workers { length doors.items ≡ request.workers }
    requires sessions { total (map V.meaning.left doors.items) ≡ request.sessions }
    ensures { IfSome result (λ done. AreServed V.meaning (record { sources = V.Src.meaning; sinks = V.Dst.meaning }) limits done.journal doors.items done.doors.items done.kept.items done.ends) }
{
    let blank = Blank::new(alloc).ok()?;
    hold::<Brand, V, R>(rt, alloc, blank, limits, doors, request)
}
