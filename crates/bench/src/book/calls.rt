//! Each call of a book, made once and where there is memory, and what it shows.

ghost use Rattle.std.specs.Prelude.{◌≡◌};

use crate::book::counter::{Count, CountSince, Counter, Raise};
use crate::book::threads::count_in_two;
use anyhow::{Context, Result};
use pj_book::{Blank, Book, Keeps, NotAll};
use std::alloc::Global;
use std::marker::Brand;
use std::sync::Wait;
use std::thread::Threads;

fn numbers(alloc: Global, from: u32, to: u32) -> Option<Vec<u32>> {
    (from..to).collect(alloc).ok()
}

/// The labels that a pass entered, in their order.
fn labels_of_pass(alloc: Global, counter: &Counter, pass: u32) -> Option<Vec<u32>> {
    counter
        .entries()
        .iter()
        .filter(|entry| entry.pass == pass)
        .map(|entry| entry.content)
        .collect(alloc)
        .ok()
}

/// Two threads raise one counter: how many entries there are, and whether each thread's labels are there once and in order.
fn in_two<N: Keeps<Counter> + Send + Sync, R: Threads + Wait + Sync>(
    rt: &R,
    alloc: Global,
    blank: Blank<Counter>,
) -> Option<String>
    requires table { blank ≡ N.table }
    requires free { (s : Counter) → N.keeps s }
{
    let first = numbers(alloc, 0, 5_000)?;
    let second = numbers(alloc, 7_000, 9_000)?;
    let counter = count_in_two::<N, R>(rt, alloc, blank, &first, &second)?;
    let one = labels_of_pass(alloc, &counter, 1)? == first;
    let two = labels_of_pass(alloc, &counter, 2)? == second;
    let count = counter.entries().len();
    format!(in alloc; "{count} entries, those of each thread in order: {one}, {two}").ok()
}

/// A pass looks, and raises the counter in the second half of that call: the counts that it saw, its calls, and its entries.
fn look_then_again<N: Keeps<Counter>, R: Wait>(
    rt: &R,
    alloc: Global,
    blank: Blank<Counter>,
) -> Option<String>
    requires table { blank ≡ N.table }
    requires free { (s : Counter) → N.keeps s }
{
    let (book, mut pass) = Book::<Counter, N>::start(blank, Counter::new(alloc));
    let none = book.look(rt, &mut pass, Count);
    let mut raised = book.again(rt, &mut pass, Raise { label: &40 });
    let one_call = pass.calls();
    raised &= book.commit(rt, &mut pass, Raise { label: &41 });
    let two = book.look(rt, &mut pass, Count);
    raised &= book.again(rt, &mut pass, Raise { label: &42 });
    let three_calls = pass.calls();
    let passes = vec![in alloc; pass].ok()?;
    let counter = book.close(passes).ok()?;
    let calls: Vec<u64> = counter
        .entries()
        .iter()
        .map(|entry| entry.call)
        .collect(alloc)
        .ok()?;
    let labels = labels_of_pass(alloc, &counter, 0)?;
    format!(in alloc;
        "raised: {raised}; counts {none} and {two}; calls {one_call} and {three_calls}; entries of the calls {calls:?} under {labels:?}"
    ).ok()
}

/// How often the counter was raised since a pass had seen it.
fn count_since<N: Keeps<Counter>, R: Wait>(
    rt: &R,
    alloc: Global,
    blank: Blank<Counter>,
) -> Option<u64>
    requires table { blank ≡ N.table }
    requires free { (s : Counter) → N.keeps s }
{
    let (mut book, mut zero) = Book::<Counter, N>::start(blank, Counter::new(alloc));
    let mut one = book.pass(rt, &mut zero);
    let seen = book.look(rt, &mut zero, Count);
    if !book.commit(rt, &mut one, Raise { label: &7 }) {
        return None;
    }
    Some(book.look(rt, &mut zero, CountSince { seen }))
}

/// A book is not closed without its first pass, and is closed with it. A pass cannot be given twice: nothing makes a second one with
/// its number.
fn closed_with_all<N: Keeps<Counter>, R: Wait>(
    rt: &R,
    alloc: Global,
    blank: Blank<Counter>,
) -> Option<String>
    requires table { blank ≡ N.table }
    requires free { (s : Counter) → N.keeps s }
{
    let (mut book, mut zero) = Book::<Counter, N>::start(blank, Counter::new(alloc));
    let one = book.pass(rt, &mut zero);
    let passes = vec![in alloc; one].ok()?;
    let Err(
        NotAll {
            book,
            mut passes,
            made,
        },
    ) = book.close(passes)
    else {
        return None;
    };
    let (known, given) = (book.made(), passes.len());
    passes.push(zero).ok()?;
    let counter = book.close(passes).ok()?;
    let entries = counter.entries().len();
    format!(in alloc;
        "{made} passes made, by the book {known}, and {given} given; with all of them {entries} entries"
    ).ok()
}

fn told_in_two<R: Threads + Wait + Sync>(rt: &R, alloc: Global) -> Option<String> {
    let blank = Blank::new(alloc).ok()?;
    in_two::<Brand, R>(rt, alloc, blank)
}

fn told_look_then_again<R: Wait>(rt: &R, alloc: Global) -> Option<String> {
    let blank = Blank::new(alloc).ok()?;
    look_then_again::<Brand, R>(rt, alloc, blank)
}

fn told_count_since<R: Wait>(rt: &R, alloc: Global) -> Option<u64> {
    let blank = Blank::new(alloc).ok()?;
    count_since::<Brand, R>(rt, alloc, blank)
}

fn told_closed_with_all<R: Wait>(rt: &R, alloc: Global) -> Option<String> {
    let blank = Blank::new(alloc).ok()?;
    closed_with_all::<Brand, R>(rt, alloc, blank)
}

/// Makes the calls, and prints what they show.
pub fn run<R: Threads + Wait + Sync>(host: &HostRuntime, rt: &R) -> Result<()> {
    let alloc = host.alloc();
    let in_two = told_in_two(rt, alloc).context("no counter of two threads")?;
    let again = told_look_then_again(rt, alloc).context("no second half of a look")?;
    let since = told_count_since(rt, alloc).context("no count since a look")?;
    let closed = told_closed_with_all(rt, alloc).context("no closed book")?;
    println!(host; "{in_two}")?;
    println!(host; "{again}")?;
    println!(host; "raised once since it was seen: {since}")?;
    println!(host; "{closed}")?;
    Ok(())
}
