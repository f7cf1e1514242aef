//! What the scripts of `bench/` time, of single crates. The words are benchmarks, one after the other, each with words of its own:
//!
//! | Words | What is timed |
//! |---|---|
//! | `closure GRAPH TIMES` | the closure of a graph on 16,384 numbers (`pj_reach`) |
//! | `map MAPS PAIRS MORE` | persistent maps (`pj_pmap`) |
//! | `layout ORDER CLASSES TIMES` | the layout of a strict order (`pj_layout`) |
//! | `tables TABLE TABLES ROWS MORE` | single tables of a channel (`pj_cuts`, `pj_edges`, `pj_deps`, `pj_states`) |
//! | `dead SHAPE SIZE OTHER TIMES` | the rows across dead text (`pj_dead`) |
//! | `wire KIND SIZE STREAMS TIMES` | the decoding of requests (`pj_wire`) |
//! | `book THREADS TIMES` | commits behind the journaled lock (`pj_book`), by the counter that is the example of its use |
//! | `calls` | nothing: it makes each call of that lock once |
//!
//! Contract: none but its safety, and in `book` that of the counter: those that count are the contracts of what is timed.
//! Cost: that of the calls, and memory for what they are made on.
//! Used by: the scripts of `bench/`.
#![tactic(auto)]

mod book;
mod closure;
mod dead;
mod layout;
mod map;
mod tables;
mod wire;
mod words;

use anyhow::{Result, bail};
use std::sync::Wait;
use std::thread::Threads;
use words::Words;

/// Runs the benchmark of this word.
fn run<R: Threads + Wait + Sync>(
    host: &HostRuntime,
    rt: &R,
    benchmark: &str,
    words: &mut Words,
) -> Result<()> {
    match benchmark {
        "closure" => closure::run(host, words),
        "map" => map::run(host, words),
        "layout" => layout::run(host, words),
        "tables" => tables::run(host, words),
        "dead" => dead::run(host, words),
        "wire" => wire::run(host, words),
        "book" => book::run(host, rt, words),
        "calls" => book::calls::run(host, rt),
        _ => bail!("there is no such benchmark"),
    }
}

fn main(rt: HostRuntime) -> Result<()> {
    let mut words = Words::of_command_line(&rt)?;
    for _ in 0..words.count() {
        let Some(benchmark) = words.next() else {
            break;
        };
        run(&rt, &rt, benchmark.as_str(), &mut words)?;
    }
    Ok(())
}
