//! One call for each item of a list, side by side: each thread takes the first item that none has taken yet, one after another,
//! until all are taken. So a slow thread, or one that begins late, takes fewer of them.
//!
//! One thread begins all others, one after another, and then takes items itself: a thread that had to wait for another to
//! begin it would begin late. They take the numbers of items from a counter, and give each result with the number of its
//! item. No contract says what such a counter gives: what nobody gave would be worked out in the end.

ghost use Rattle.std.specs.Prelude.{◌≡◌, ◌≤◌, Contains, IfOk, length};
ghost use Rattle.std.specs.List.{AllZip};
ghost use Rattle.pj_output.specs.Gives.{Gives, AreGivenFor, IsGivenIfSome};
ghost use denote.Ref.{Bor};
ghost use denote.Param.Send.{IsSend, IsSync};

use pj_change::Memory;
use rayon::{current_num_threads, join};
use std::alloc::Global;
use std::sync::atomic::{AtomicUsize, Ordering};
use std::thread::Threads;

/// What `f` gives for each of the items, in their order, one after another.
pub fn map_each<T, U: Drop, F: Fn(&T) -> Result<U, Memory>>(
    alloc: Global,
    items: &[T],
    f: &F,
) -> Result<Vec<U>, Memory>
    requires { (x : Bor T) → Contains items.now x.now → F.pre f.now x }
    ensures { IfOk result (λ all. AllZip (Gives F.Fn f.now) items.now all.items) }
{
    let mut all = Vec::with_capacity(alloc, items.len())?;
    for item in items {
        all.push(f(item)?)?;
    }
    Ok(all)
}

/// What one thread gives: for each item that it takes, the item's number and what `f` gives for it.
fn take_turns<T, U: Drop, F: Fn(&T) -> Result<U, Memory>>(
    alloc: Global,
    items: &[T],
    next: &AtomicUsize,
    f: &F,
) -> Result<Vec<(usize, U)>, Memory>
    requires { (x : Bor T) → Contains items.now x.now → F.pre f.now x }
    ensures { IfOk result (λ given. AreGivenFor (Gives F.Fn f.now) items.now given.items) }
{
    let mut given = Vec::new(alloc);
    for _ in items {
        let number = next.fetch_add(1, Ordering::SeqCst);
        let Some(item) = items.get(number) else {
            return Ok(given);
        };
        given.push((number, f(item)?))?;
    }
    Ok(given)
}

/// What so many threads give, of which this one begins all others.
fn give_in_threads<
    R: Threads + Sync,
    T: Sync,
    U: Send + Drop,
    F: Fn(&T) -> Result<U, Memory> + Sync,
>(
    rt: &R,
    alloc: Global,
    threads: usize,
    items: &[T],
    next: &AtomicUsize,
    f: &F,
) -> Result<Vec<(usize, U)>, Memory>
    requires { (x : Bor T) → Contains items.now x.now → F.pre f.now x }
    ensures { IfOk result (λ given. AreGivenFor (Gives F.Fn f.now) items.now given.items) }
{
    if threads < 2 {
        return take_turns(alloc, items, next, f);
    }
    let others = threads - 1;
    let (of_one, of_others) = join(
        rt,
        || -> Result<Vec<(usize, U)>, Memory>
            requires { IsSync F.row × IsSync T.row × IsSend U.row × ((x : Bor T) → Contains items.now x.now → F.pre f.now x) }
            ensures { IfOk result (λ given. AreGivenFor (Gives F.Fn f.entry.now) items.entry.now given.items) }
        { take_turns(alloc, items, next, f) },
        || -> Result<Vec<(usize, U)>, Memory>
            requires { IsSync R.row × IsSync F.row × IsSync T.row × IsSend U.row × ((x : Bor T) → Contains items.now x.now → F.pre f.now x) }
            ensures { IfOk result (λ given. AreGivenFor (Gives F.Fn f.entry.now) items.entry.now given.items) }
        { give_in_threads(rt, alloc, others, items, next, f) },
    );
    let mut given = of_one?;
    let mut more = of_others?;
    given.append(&mut more)?;
    Ok(given)
}

/// What was given, each at the number of its item. Nothing is asked of `f`, which the contract names.
fn placed<T, U: Drop, F: Fn(&T) -> Result<U, Memory>>(
    alloc: Global,
    items: &[T],
    given: Vec<(usize, U)>,
    f: &F,
) -> Result<Vec<Option<U>>, Memory>
    requires { AreGivenFor (Gives F.Fn f.now) items.now given.items }
    ensures { IfOk result (λ places. AllZip (IsGivenIfSome (Gives F.Fn f.now)) items.now places.items) }
{
    let _f = f;
    let mut places = Vec::with_capacity(alloc, items.len())?;
    for _ in items {
        places.push(None)?;
    }
    let mut left = given;
    while let Some((number, result)) = left.pop() {
        places[number] = Some(result);
    }
    Ok(places)
}

/// What `f` gives for each of the items, in their order, where some of it was given before.
fn map_left<T, U: Drop, F: Fn(&T) -> Result<U, Memory>>(
    alloc: Global,
    items: &[T],
    given: Vec<Option<U>>,
    f: &F,
) -> Result<Vec<U>, Memory>
    requires takes { (x : Bor T) → Contains items.now x.now → F.pre f.now x }
    requires given { AllZip (IsGivenIfSome (Gives F.Fn f.now)) items.now given.items }
    ensures { IfOk result (λ all. AllZip (Gives F.Fn f.now) items.now all.items) }
{
    let mut places = given;
    let mut all = Vec::with_capacity(alloc, items.len())?;
    for (number, item) in items.iter().enumerate() {
        let result = match places[number].take() {
            Some(result) => result,
            None => f(item)?,
        };
        all.push(result)?;
    }
    Ok(all)
}

/// What `f` gives for each of the items, in their order, worked out by so many threads.
pub fn map_in_threads<
    R: Threads + Sync,
    T: Sync,
    U: Send + Drop,
    F: Fn(&T) -> Result<U, Memory> + Sync,
>(rt: &R, alloc: Global, items: &[T], threads: usize, f: &F) -> Result<Vec<U>, Memory>
    requires { (x : Bor T) → Contains items.now x.now → F.pre f.now x }
    ensures { IfOk result (λ all. AllZip (Gives F.Fn f.now) items.now all.items) }
{
    if threads < 2 {
        return map_each(alloc, items, f);
    }
    let next = AtomicUsize::new(0);
    let given = give_in_threads(rt, alloc, threads, items, &next, f)?;
    let places = placed(alloc, items, given, f)?;
    map_left(alloc, items, places, f)
}

/// How many threads are worth their beginning: one for each processor, but no more than one for each `least` of the weight.
pub fn threads_worth<R: Threads>(rt: &R, weight: usize, least: usize) -> usize {
    current_num_threads(rt).min(weight / least.max(1))
}
