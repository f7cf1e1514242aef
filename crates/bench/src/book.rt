//! A counter with a journal, behind a `Book`: the example of its use.
//!
//! `count_in_two` and `count_in_many` raise the counter from threads. By their contracts the journal has the labels of each thread,
//! each once and in order. A raise takes one call of the book, and memory for one entry.
//!
//! As a benchmark it raises one counter from threads. The words are how many threads there are, and how often each of them commits. It
//! prints how many entries the journal has.

ghost use Rattle.std.specs.Prelude.{◌≡◌, ◌<◌, ◌^◌};

pub mod calls;
mod counter;
mod threads;

use crate::words::Words;
use anyhow::{Context, Result};
use counter::Counter;
use pj_book::{Blank, Keeps};
use std::alloc::Global;
use std::marker::Brand;
use std::sync::Wait;
use std::thread::Threads;
use threads::count_in_many;

/// How many entries so many threads make.
fn count<N: Keeps<Counter> + Send + Sync, R: Threads + Wait + Sync>(
    rt: &R,
    alloc: Global,
    blank: Blank<Counter>,
    threads: u16,
    times: u32,
) -> Option<usize>
    requires table { blank ≡ N.table }
    requires free { (s : Counter) → N.keeps s }
{
    let labels: Vec<u32> = (0..times).collect(alloc).ok()?;
    let threads = u32::from(threads);
    let counter = count_in_many::<N, R>(rt, alloc, blank, threads, &labels)?;
    Some(counter.entries().len())
}

/// Runs the benchmark of these words.
pub fn run<R: Threads + Wait + Sync>(host: &HostRuntime, rt: &R, words: &mut Words) -> Result<()> {
    let alloc = host.alloc();
    let threads = words.number("how many threads?")?;
    let times = words.number("how many commits?")?;
    let threads = u16::try_from(threads).ok().context("too many threads")?;
    let blank = Blank::new(alloc).ok().context("no memory")?;
    let entries = count::<Brand, R>(rt, alloc, blank, threads, times).context("no memory")?;
    println!(host; "{entries}")?;
    Ok(())
}
