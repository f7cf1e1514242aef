//! Workers are taken apart once all have stopped. Nothing here takes memory.
ghost use Rattle.std.specs.Prelude.{◌≡◌, ◌≤◌, ◌<◌, ◌+◌, ◌^◌, ◌++◌, ◌∷◌, [], length, map, flat_map, vec_capacity};
ghost use Rattle.pj_serve.specs.Shifts.{own_ends, shift_of};

use crate::finish::Kept;
use crate::working::{Turn, Worker};
use pj_session::Ended;
use std::collections::VecDeque;

/// What workers leave, each list for all of them.
#[derive(Drop)]
pub(crate) struct Left<T, S, D, V> {
    pub(crate) passes: Vec<T>,
    pub(crate) kept: Vec<Kept<S, D>>,
    pub(crate) ends: Vec<Ended>,
    pub(crate) doors: Vec<V>,
}

/// The elements of `more` behind those of `list`, which has room for them.
fn joined<T: Drop>(mut list: Vec<T>, mut more: Vec<T>) -> Vec<T>
    requires { length list.items + length more.items ≤ vec_capacity list }
    ensures items { result.items ≡ list.items ++ more.items }
    ensures capacity { vec_capacity list ≤ vec_capacity result }
{
    match list.append(&mut more) {
        Ok(()) => list,
        Err(_) => unreachable!(),
    }
}

/// The passes behind those of the list, which has room for them.
pub(crate) fn with_passes<T: Drop>(mut passes: Vec<T>, turns: Vec<Turn<T>>) -> Vec<T>
    requires { length passes.items + length turns.items ≤ vec_capacity passes }
    ensures items { result.items ≡ passes.items ++ map (λ t. t.pass) turns.items }
    ensures capacity { vec_capacity passes ≤ vec_capacity result }
{
    let mut turns = VecDeque::from_vec(turns);
    while let Some(Turn { number: _, pass }) = turns.pop_front() {
        passes.push_reserved(pass);
    }
    passes
}

/// The ends of the workers themselves, whose passes have the numbers from 1 on.
fn with_own_ends<T, S, D, V>(workers: &[Worker<T, S, D, V>], mut ends: Vec<Ended>) -> Vec<Ended>
    requires few { length workers.now < 2 ^ 32 }
    requires room { (ends.items ≡ []) × (length workers.now ≤ vec_capacity ends) }
    ensures items { result.items ≡ own_ends 1 (map shift_of workers.now) }
    ensures capacity { vec_capacity ends ≤ vec_capacity result }
{
    for (index, worker) in workers.iter().enumerate() {
        if let Some(end) = worker.own {
            let pass = index as u32 + 1;
            ends.push_reserved(Ended { pass, end });
        }
    }
    ends
}

/// What all workers leave, one behind the other, in lists that have room for it: their passes behind those of `left`, and how they
/// ended themselves before how their sessions ended.
pub(crate) fn parted<T: Drop, S: Drop, D: Drop, V: Drop>(
    workers: Vec<Worker<T, S, D, V>>,
    left: Left<T, S, D, V>,
) -> Left<T, S, D, V>
    requires few { length workers.items < 2 ^ 32 }
    requires passes { length left.passes.items + length (flat_map (λ w. w.turns.items) workers.items) ≤ vec_capacity left.passes }
    requires kept { (left.kept.items ≡ []) × (length (flat_map (λ w. w.kept.items) workers.items) ≤ vec_capacity left.kept) }
    requires ends { (left.ends.items ≡ []) × (length workers.items + length (flat_map (λ w. w.ends.items) workers.items) ≤ vec_capacity left.ends) }
    requires doors { (left.doors.items ≡ []) × (length workers.items ≤ vec_capacity left.doors) }
    ensures passes { result.passes.items ≡ left.passes.items ++ map (λ t. t.pass) (flat_map (λ w. w.turns.items) workers.items) }
    ensures kept { result.kept.items ≡ flat_map (λ w. w.kept.items) workers.items }
    ensures ends { result.ends.items ≡ own_ends 1 (map shift_of workers.items) ++ flat_map (λ w. w.ends.items) workers.items }
    ensures doors { result.doors.items ≡ map (λ w. w.door) workers.items }
{
    let Left {
        mut passes,
        mut kept,
        ends,
        mut doors,
    } = left;
    let mut ends = with_own_ends(workers.as_slice(), ends);
    let mut workers = VecDeque::from_vec(workers);
    while let Some(
        Worker {
            door,
            turns,
            kept: used,
            ends: ended,
            own: _,
        },
    ) = workers.pop_front()
    {
        passes = with_passes(passes, turns);
        kept = joined(kept, used);
        ends = joined(ends, ended);
        doors.push_reserved(door);
    }
    Left {
        passes,
        kept,
        ends,
        doors,
    }
}
