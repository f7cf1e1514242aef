//! Threads that raise one counter.
ghost use Rattle.std.specs.Prelude.{◌≡◌, ◌≢◌, ℕ, ◌+◌, ◌<◌, ◌^◌, ◌≤◌, ◌⊎◌, ◌++◌, [], ◌∷◌, length, map, Some, IsTrue, IfSome, All};
ghost use Rattle.pj_book.specs.EntriesOf.{entries_of};
ghost use Rattle.pj_book.specs.Token.{own};
ghost use Rattle.pj_book.specs.IsAll.{IsAll};
ghost use Rattle.pj_book.specs.IsOf.{IsOf};
ghost use Rattle.bench.specs.LabelsOf.{labels_of, HasLabels};

use crate::book::counter::{Counter, Raise};
use pj_book::{Blank, Book, Keeps, Pass};
use std::alloc::Global;
use std::sync::Wait;
use std::thread::{Threads, join, map_vec};

/// Raises the counter once for each label, in their order. Stops where memory runs out, and says so.
pub fn commit_all<N: Keeps<Counter>, R: Wait>(
    rt: &R,
    book: &Book<Counter, N>,
    pass: &mut Pass<Counter, N>,
    labels: &[u32],
) -> bool
    requires calls { pass.old.calls + length labels.now < 2 ^ 63 }
    requires free { (s : Counter) → N.keeps s }
    ensures number { pass.new.number ≡ pass.old.number }
    ensures labels { IsTrue result → labels_of (own pass.new) ≡ labels_of (own pass.old) ++ labels.now }
{
    for label in labels {
        if !book.commit(rt, pass, Raise { label }) {
            return false;
        }
    }
    true
}

// The same for a thread, which is given its pass and gives it back.
fn worked<N: Keeps<Counter>, R: Wait>(
    rt: &R,
    book: &Book<Counter, N>,
    mut pass: Pass<Counter, N>,
    labels: &[u32],
) -> Option<Pass<Counter, N>>
    requires calls { pass.calls + length labels.now < 2 ^ 63 }
    requires none { own pass ≡ [] }
    requires free { (s : Counter) → N.keeps s }
    ensures number { IfSome result (λ p. p.number ≡ pass.number) }
    ensures labels { IfSome result (λ p. labels_of (own p) ≡ labels.now) }
{
    if commit_all(rt, book, &mut pass, labels) {
        Some(pass)
    } else {
        None
    }
}

fn list_of<N: Keeps<Counter>>(
    alloc: Global,
    zero: Pass<Counter, N>,
    one: Pass<Counter, N>,
    two: Pass<Counter, N>,
) -> Option<Vec<Pass<Counter, N>>>
    ensures { IfSome result (λ passes. passes.items ≡ zero ∷ one ∷ two ∷ []) }
{
    vec![in alloc; zero, one, two].ok()
}

fn closed<N: Keeps<Counter>>(
    book: Book<Counter, N>,
    passes: Vec<Pass<Counter, N>>,
) -> Option<Counter>
    ensures { IfSome result (λ counter. IsAll book passes.items × IsOf counter passes.items) }
{
    book.close(passes).ok()
}

// The book of three passes, of which the first has entered nothing.
fn closed_with_three<N: Keeps<Counter>>(
    alloc: Global,
    book: Book<Counter, N>,
    zero: Pass<Counter, N>,
    one: Pass<Counter, N>,
    two: Pass<Counter, N>,
) -> Option<Counter>
    requires numbers { (zero.number ≡ 0) × (one.number ≡ 1) × (two.number ≡ 2) }
    requires none { own zero ≡ [] }
    ensures one { IfSome result (λ c. entries_of 1 c ≡ own one) }
    ensures two { IfSome result (λ c. entries_of 2 c ≡ own two) }
    ensures others { IfSome result (λ c. (n : ℕ) → n ≢ 1 → n ≢ 2 → entries_of n c ≡ []) }
{
    let passes = list_of(alloc, zero, one, two)?;
    closed(book, passes)
}

/// Two threads raise one counter. Whatever their order was, the journal has of each its labels, each once and in order,
/// and no entry of anyone else. `None` where memory ran out.
pub fn count_in_two<N: Keeps<Counter> + Send + Sync, R: Threads + Wait + Sync>(
    rt: &R,
    alloc: Global,
    blank: Blank<Counter>,
    first: &[u32],
    second: &[u32],
) -> Option<Counter>
    requires table { blank ≡ N.table }
    requires free { (s : Counter) → N.keeps s }
    requires first { length first.now < 2 ^ 62 }
    requires second { length second.now < 2 ^ 62 }
    ensures first { IfSome result (λ c. labels_of (entries_of 1 c) ≡ first.now) }
    ensures second { IfSome result (λ c. labels_of (entries_of 2 c) ≡ second.now) }
    ensures others { IfSome result (λ c. (n : ℕ) → n ≢ 1 → n ≢ 2 → entries_of n c ≡ []) }
{
    let (mut book, mut zero) = Book::<Counter, N>::start(blank, Counter::new(alloc));
    let one = book.pass(rt, &mut zero);
    let two = book.pass(rt, &mut zero);
    let (one, two) = join(
        rt,
        || -> Option<Pass<Counter, N>>
            requires { (one.number ≡ 1) × (one.calls ≡ 0) × (own one ≡ []) × (length first.now < 2 ^ 62)
                × ((s : Counter) → N.keeps s) }
            ensures number { IfSome result (λ p. p.number ≡ 1) }
            ensures labels { IfSome result (λ p. labels_of (own p) ≡ first.entry.now) }
        { worked(rt, &book, one, first) },
        || -> Option<Pass<Counter, N>>
            requires { (two.number ≡ 2) × (two.calls ≡ 0) × (own two ≡ []) × (length second.now < 2 ^ 62)
                × ((s : Counter) → N.keeps s) }
            ensures number { IfSome result (λ p. p.number ≡ 2) }
            ensures labels { IfSome result (λ p. labels_of (own p) ≡ second.entry.now) }
        { worked(rt, &book, two, second) },
    );
    closed_with_three(alloc, book, zero, one?, two?)
}

// The passes of as many threads, with the numbers after those made so far.
fn passes_for<N: Keeps<Counter>, R: Wait>(
    rt: &R,
    alloc: Global,
    book: &mut Book<Counter, N>,
    zero: &mut Pass<Counter, N>,
    threads: u32,
) -> Option<Vec<Pass<Counter, N>>>
    requires first { 0 < book.old }
    requires room { book.old + threads < 2 ^ 32 }
    ensures made { IfSome result (λ _. book.new ≡ book.old + threads) }
    ensures fresh { IfSome result (λ passes. All (λ p. (0 < p.number) × (p.calls ≡ 0) × (own p ≡ [])) passes.items) }
    ensures number { zero.new.number ≡ zero.old.number }
    ensures own { own zero.new ≡ own zero.old }
{
    let mut passes = Vec::new(alloc);
    for _ in 0..threads {
        passes.push(book.pass(rt, zero)).ok()?;
    }
    Some(passes)
}

// What each pass's thread gives back.
fn worked_in_threads<N: Keeps<Counter> + Send + Sync, R: Threads + Wait + Sync>(
    rt: &R,
    book: &Book<Counter, N>,
    passes: Vec<Pass<Counter, N>>,
    labels: &[u32],
) -> Option<Vec<Option<Pass<Counter, N>>>>
    requires labels { length labels.now < 2 ^ 62 }
    requires free { (s : Counter) → N.keeps s }
    requires fresh { All (λ p. (0 < p.number) × (p.calls ≡ 0) × (own p ≡ [])) passes.items }
    ensures { IfSome result (λ workers. All (λ w. IfSome w (HasLabels labels.now)) workers.items) }
{
    map_vec(
        rt,
        passes,
        &|pass: Pass<Counter, N>| -> Option<Pass<Counter, N>>
            requires { (0 < pass.number) × (pass.calls ≡ 0) × (own pass ≡ []) × (length labels.now < 2 ^ 62)
                × ((s : Counter) → N.keeps s) }
            ensures { IfSome result (HasLabels labels.entry.now) }
        { worked(rt, book, pass, labels) },
    )
    .ok()
}

// The first pass, and those that the threads gave back.
fn gathered<N: Keeps<Counter>>(
    alloc: Global,
    zero: Pass<Counter, N>,
    workers: Vec<Option<Pass<Counter, N>>>,
) -> Option<Vec<Pass<Counter, N>>>
    ensures { IfSome result (λ passes. map Some passes.items ≡ Some zero ∷ workers.items) }
{
    let mut passes = Vec::new(alloc);
    passes.push(zero).ok()?;
    for worker in workers {
        passes.push(worker?).ok()?;
    }
    Some(passes)
}

/// As many threads raise one counter, each as often as there are labels. Whatever their order was, the journal has of
/// each the labels, each once and in order, and no entry of anyone else. `None` where memory ran out.
pub fn count_in_many<N: Keeps<Counter> + Send + Sync, R: Threads + Wait + Sync>(
    rt: &R,
    alloc: Global,
    blank: Blank<Counter>,
    threads: u32,
    labels: &[u32],
) -> Option<Counter>
    requires table { blank ≡ N.table }
    requires free { (s : Counter) → N.keeps s }
    requires threads { threads < 2 ^ 31 }
    requires labels { length labels.now < 2 ^ 62 }
    ensures each { IfSome result (λ c. (n : ℕ) → 0 < n → n ≤ threads → labels_of (entries_of n c) ≡ labels.now) }
    ensures others { IfSome result (λ c. (n : ℕ) → (n ≡ 0) ⊎ (threads < n) → entries_of n c ≡ []) }
{
    let (mut book, mut zero) = Book::<Counter, N>::start(blank, Counter::new(alloc));
    let passes = passes_for(rt, alloc, &mut book, &mut zero, threads)?;
    let workers = worked_in_threads(rt, &book, passes, labels)?;
    let passes = gathered(alloc, zero, workers)?;
    closed(book, passes)
}
