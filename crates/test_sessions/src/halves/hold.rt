//! The life of the repository of a case.
ghost use Rattle.std.specs.Prelude.{◌≡◌, ◌↔◌};

use crate::halves::case::Case;
use crate::halves::seat::{Seat, ask, speak};
use crate::halves::shown::put_closed;
use crate::signals::Signals;
use crate::written::put_number;
use pj_book::{Blank, Keeps, Pass};
use pj_change::Memory;
use pj_machine::Limits;
use pj_repo::{LockedState, OpenGate, Repo};
use std::alloc::Global;
use std::marker::Brand;
use std::sync::Wait;
use std::thread::{Threads, for_each_mut};

/// More passes than any case has.
const MOST_PASSES: u64 = 1_000;

/// A new pass.
fn next_pass<N: Keeps<LockedState>, R: Wait>(
    rt: &R,
    repo: &mut Repo<N>,
    zero: &mut Pass<LockedState, N>,
) -> Result<Pass<LockedState, N>, Memory> {
    if repo.made() >= MOST_PASSES {
        return Err(Memory);
    }
    Ok(repo.pass(rt, zero))
}

/// Runs both sessions, each in a thread.
fn speak_both<N: Keeps<LockedState> + Send + Sync, R: Threads + Wait + Sync>(
    rt: &R,
    alloc: Global,
    repo: &Repo<N>,
    signals: &Signals,
    seats: &mut [Seat<N>],
) {
    for_each_mut(
        rt,
        seats,
        2,
        &|_: usize, seat: &mut Seat<N>| { speak(rt, alloc, repo, signals, seat) },
    );
}

/// Writes what the sessions were replied, and gives their passes behind the first one.
fn parted<N: Keeps<LockedState>>(
    alloc: Global,
    out: &mut Vec<u8>,
    zero: Pass<LockedState, N>,
    seats: Vec<Seat<N>>,
) -> Result<Vec<Pass<LockedState, N>>, Memory> {
    let mut passes = Vec::new(alloc);
    passes.push(zero)?;
    for seat in seats {
        let Seat {
            pass,
            requests: _,
            replies,
            is_first: _,
            is_short,
        } = seat;
        if is_short {
            return Err(Memory);
        }
        put_number(out, b"session ", u64::from(pass.number()), b"\n")?;
        out.extend_from_slice(&replies)?;
        passes.push(pass)?;
    }
    Ok(passes)
}

/// Plays a case on a repository and its first pass.
fn play_on<N: Keeps<LockedState> + Send + Sync, R: Threads + Wait + Sync>(
    rt: &R,
    alloc: Global,
    mut repo: Repo<N>,
    mut zero: Pass<LockedState, N>,
    case: Case,
    out: &mut Vec<u8>,
) -> Result<(), Memory> {
    let mut one = next_pass(rt, &mut repo, &mut zero)?;
    let two = next_pass(rt, &mut repo, &mut zero)?;
    let mut replies = Vec::new(alloc);
    ask(
        rt,
        alloc,
        &repo,
        &mut one,
        case.before,
        &mut replies,
        &OpenGate,
    )?;
    let mut seats = Vec::new(alloc);
    seats.push(Seat {
        pass: one,
        requests: case.first,
        replies,
        is_first: true,
        is_short: false,
    })?;
    seats.push(Seat {
        pass: two,
        requests: case.second,
        replies: Vec::new(alloc),
        is_first: false,
        is_short: false,
    })?;
    let signals = Signals::new();
    speak_both(rt, alloc, &repo, &signals, seats.as_mut_slice());
    out.extend_from_slice(case.title)?;
    put_number(out, b": ", u64::from(signals.times()), b" held\n")?;
    if signals.is_late() {
        out.extend_from_slice(b"the turns ran out\n")?;
    }
    let passes = parted(alloc, out, zero, seats)?;
    match repo.finish(passes) {
        Ok(closed) => put_closed(out, &closed)?,
        Err(_) => out.extend_from_slice(b"not all passes came back\n")?,
    }
    out.push(b'\n')?;
    Ok(())
}

/// The same under a name that carries the limits.
fn hold<N: Keeps<LockedState> + Send + Sync, R: Threads + Wait + Sync>(
    rt: &R,
    alloc: Global,
    blank: Blank<LockedState>,
    limits: Limits,
    case: Case,
    out: &mut Vec<u8>,
) -> Result<(), Memory>
    requires table { blank ≡ N.table }
    requires keeps { (s : LockedState) → N.keeps s ↔ (s.limits ≡ limits) }
{
    let (repo, zero) = Repo::<N>::start(blank, alloc, limits)?;
    play_on(rt, alloc, repo, zero, case, out)
}

/// Plays a case, and writes what came of it.
pub fn play<R: Threads + Wait + Sync>(
    rt: &R,
    alloc: Global,
    case: Case,
    out: &mut Vec<u8>,
) -> Result<(), Memory> {
    let blank = Blank::new(alloc)?;
    hold::<Brand, R>(rt, alloc, blank, case.limits, case, out)
}
