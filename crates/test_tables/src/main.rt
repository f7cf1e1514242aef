//! Plays cases on the tables of a channel. The words are pairs of a kind of cases and the file that has them:
//!
//! | Kind | What it plays | The independent program |
//! |---|---|---|
//! | `operations` | operations on single tables (`pj_cuts`, `pj_edges`, `pj_deps`, `pj_states`) | `tests/tables.py` |
//! | `lists` | histories of changes on all tables of a channel, beside a plain channel (`pj_channel` and what is below it) | `tests/table_rows.py` |
//! | `dead` | the rows across dead text of graphs (`pj_dead`) | `tests/pseudo_rows.py` |
//! | `contests` | histories of changes on the table of contests (`pj_contest`) | `tests/contests.py` |
//!
//! `data` has the cases, and `stdout` what the independent programs answer to them, by the definitions alone.
//!
//! Contract: none but its safety: those that count are the contracts of the calls that it makes.
//! Cost: that of the calls.
//! Used by: `tests/run.sh`, which has it play a large run, and `bench/contests.sh`. Its run is the test of the tables.
#![tactic(auto)]

mod contests;
mod dead;
mod lists;
mod operations;

use anyhow::{Result, bail};
use std::{env, fs};

/// Writes the answers to the cases of a file.
fn play(rt: &HostRuntime, kind: &str, path: &str) -> Result<()> {
    let input = fs::read(rt, path)?;
    match kind {
        "operations" => operations::play(rt, &input),
        "lists" => lists::play(rt, &input),
        "dead" => dead::play(rt, &input),
        "contests" => contests::play(rt, &input),
        _ => bail!("there is no such kind of cases"),
    }
}

fn main(rt: HostRuntime) -> Result<()> {
    let mut words = env::args(&rt)?.skip(1);
    for _ in 0..words.len() {
        let (Some(kind), Some(path)) = (words.next(), words.next()) else {
            break;
        };
        play(&rt, kind.as_str(), path.as_str())?;
    }
    Ok(())
}
