//! The three stages of a large run over one repository: the prelude, the sessions and the closing.
ghost use Rattle.std.specs.Prelude.{◌≡◌, ◌+◌, ◌-◌, ◌<◌, ◌≤◌, ◌++◌, [], ◌∷◌, ℕ, length, map, All, IsTrue, true, IfSome, vec_capacity};
ghost use mathlib.Core.List.{IsPrefix};
ghost use Rattle.pj_machine.specs.Call.{own};
ghost use Rattle.pj_repo.specs.Views.{pass_view};
ghost use Rattle.pj_gen.specs.Requests.{AreScripts};
ghost use Rattle.pj_load.specs.Seats.{AreSeats};
ghost use Rattle.pj_load.specs.Stages.{HasPlayed};

use crate::journal::journal_of;
use crate::seats::{Seat, spoken};
use crate::seeing::{Entering, Printed, Printing};
use crate::speaking::speak;
use pj_book::{Keeps, Pass};
use pj_change::Bytes;
use pj_gen::{MOST_CHANGES, Scripts};
use pj_machine::{Entries, Limits};
use pj_repo::{LockedState, Repo};
use pj_session::{End, Ended, Ends};
use std::alloc::Global;
use std::collections::VecDeque;
use std::sync::Wait;
use std::thread::Threads;

/// Room for as many sessions between the prelude and the closing, and for the first pass.
#[derive(Drop)]
pub(crate) struct Room<N: Keeps<LockedState>> {
    seats: Vec<Seat<Pass<LockedState, N>>>,
    passes: Vec<Pass<LockedState, N>>,
    ends: Vec<Ended>,
}

pub(crate) fn room_for<N: Keeps<LockedState>>(alloc: Global, count: usize) -> Option<Room<N>>
    requires { count ≤ 8 }
    ensures seats { IfSome result (λ room. (room.seats.items ≡ []) × (count ≤ vec_capacity room.seats)) }
    ensures passes { IfSome result (λ room. (room.passes.items ≡ []) × (count + 3 ≤ vec_capacity room.passes)) }
    ensures ends { IfSome result (λ room. (room.ends.items ≡ []) × (count + 2 ≤ vec_capacity room.ends)) }
{
    let seats = Vec::with_capacity(alloc, count).ok()?;
    let passes = Vec::with_capacity(alloc, count + 3).ok()?;
    let ends = Vec::with_capacity(alloc, count + 2).ok()?;
    Some(Room {
        seats,
        passes,
        ends,
    })
}

// A new pass for each script, in their order, from one that has seen the prelude. It takes no memory.
fn seated<N: Keeps<LockedState>, R: Wait>(
    rt: &R,
    repo: &mut Repo<N>,
    first: &mut Pass<LockedState, N>,
    scripts: Vec<Bytes>,
    mut seats: Vec<Seat<Pass<LockedState, N>>>,
) -> Vec<Seat<Pass<LockedState, N>>>
    requires made { repo.old.made ≡ 2 }
    requires few { length scripts.items ≤ 8 }
    requires room { (seats.items ≡ []) × (length scripts.items ≤ vec_capacity seats) }
    ensures seated { AreSeats pass_view (pass_view first.old).journal scripts.items result.items }
    ensures made { repo.new.made ≡ 2 + length scripts.items }
    ensures limits { repo.new.limits ≡ repo.old.limits }
    ensures number { first.new.number ≡ first.old.number }
    ensures own { own (pass_view first.new) ≡ own (pass_view first.old) }
    ensures sees { IsPrefix (pass_view first.old).journal (pass_view first.new).journal }
{
    let mut scripts = VecDeque::from_vec(scripts);
    while let Some(script) = scripts.pop_front() {
        let pass = repo.pass(rt, first);
        seats.push_reserved(Seat {
            pass,
            script,
            seen: Entering { all: true },
            end: End::Spent,
        });
    }
    seats
}

// The seats are taken apart: the passes in the order of their numbers, and the ends of all sessions. It takes no memory.
fn parted<N: Keeps<LockedState>>(
    zero: Pass<LockedState, N>,
    prelude: (Pass<LockedState, N>, End),
    seats: Vec<Seat<Pass<LockedState, N>>>,
    closing: (Pass<LockedState, N>, End),
    mut passes: Vec<Pass<LockedState, N>>,
    mut ends: Vec<Ended>,
) -> (Vec<Pass<LockedState, N>>, Vec<Ended>)
    requires passes { (passes.items ≡ []) × (length seats.items + 3 ≤ vec_capacity passes) }
    requires ends { (ends.items ≡ []) × (length seats.items + 2 ≤ vec_capacity ends) }
    ensures passes { result.0.items ≡ (zero ∷ prelude.0 ∷ map (λ s. s.pass) seats.items) ++ closing.0 ∷ [] }
    ensures ends { result.1.items ≡ (record { pass = prelude.0.number; end = prelude.1 } ∷ map (λ s. record { pass = s.pass.number; end = s.end }) seats.items)
        ++ record { pass = closing.0.number; end = closing.1 } ∷ [] }
{
    ends.push_reserved(Ended {
        pass: prelude.0.number(),
        end: prelude.1,
    });
    passes.push_reserved(zero);
    passes.push_reserved(prelude.0);
    let mut seats = VecDeque::from_vec(seats);
    while let Some(
        Seat {
            pass,
            script: _,
            seen: _,
            end,
        },
    ) = seats.pop_front()
    {
        ends.push_reserved(Ended {
            pass: pass.number(),
            end,
        });
        passes.push_reserved(pass);
    }
    ends.push_reserved(Ended {
        pass: closing.0.number(),
        end: closing.1,
    });
    passes.push_reserved(closing.0);
    (passes, ends)
}

// Whether each request of all sessions was entered.
fn all_entered<T>(seats: &[Seat<T>]) -> bool
    ensures { IsTrue result → All (λ s. s.seen.all ≡ true) seats.now }
{
    seats.iter().all(|seat| seat.seen.all)
}

/// What the stages leave.
#[derive(Drop)]
pub(crate) struct Played {
    pub(crate) journal: Entries,
    pub(crate) ends: Ends,
    pub(crate) entered: bool,
    pub(crate) prints: Vec<Printed>,
}

/// Plays the three stages on a new repository: the prelude, the sessions in threads, and the closing.
pub(crate) fn play<N: Keeps<LockedState> + Send + Sync, R: Threads + Wait + Sync>(
    rt: &R,
    alloc: Global,
    limits: Limits,
    mut repo: Repo<N>,
    mut zero: Pass<LockedState, N>,
    scripts: &Scripts,
    copies: Vec<Bytes>,
    room: Room<N>,
) -> Played
    requires repo { repo ≡ record { made = 1; limits = limits } }
    requires zero { zero ≡ record { number = 0; calls = 0; seen = [] } }
    requires copies { copies.items ≡ scripts.now.sessions }
    requires few { length copies.items ≤ 8 }
    requires seats { (room.seats.items ≡ []) × (length copies.items ≤ vec_capacity room.seats) }
    requires passes { (room.passes.items ≡ []) × (length copies.items + 3 ≤ vec_capacity room.passes) }
    requires ends { (room.ends.items ≡ []) × (length copies.items + 2 ≤ vec_capacity room.ends) }
    ensures { (number changes sessions : ℕ) → changes ≤ MOST_CHANGES → AreScripts number changes sessions scripts.now
        → HasPlayed limits number sessions (changes - 1) result }
{
    let Room {
        seats,
        passes,
        ends,
    } = room;
    let mut first = repo.pass(rt, &mut zero);
    let mut entering = Entering { all: true };
    let prelude = speak(
        rt,
        alloc,
        &mut entering,
        &repo,
        &mut first,
        scripts.prelude.items(),
    );
    let seats = seated(rt, &mut repo, &mut first, copies, seats);
    let seats = spoken(rt, alloc, &repo, limits, seats);
    let entered = entering.all && all_entered(&seats);
    let mut last = repo.pass(rt, &mut first);
    let mut printing = Printing {
        prints: Vec::new(alloc),
    };
    let closing = speak(
        rt,
        alloc,
        &mut printing,
        &repo,
        &mut last,
        scripts.closing.items(),
    );
    let (passes, ends) = parted(zero, (first, prelude), seats, (last, closing), passes, ends);
    let journal = journal_of(repo, passes);
    let Printing { prints } = printing;
    Played {
        journal,
        ends: Ends::of(ends),
        entered,
        prints,
    }
}
