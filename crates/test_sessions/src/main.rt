//! Plays sessions over sources, sinks and doors in memory, and sessions that are held while another is answered. The words are:
//!
//! | Words | What is played |
//! |---|---|
//! | `office FILE` | cases of the top call over an office in memory (`run_with` of `pj_serve`) |
//! | `sinks` | two sessions of that call, of which one is held at its sink |
//! | `halves FILE` | cases of two sessions on one repository, of which the first is held between the halves of a call (`pj_repo`) |
//! | `alone` | sessions over who answers without entering anything (`pj_session`) |
//!
//! `data` has the cases, and `stdout` what the worked examples and the definitions say of them.
//!
//! Contract: none but its safety: those that count are the contracts of the calls that it makes.
//! Cost: that of the calls, and of the waiting.
//! Used by: nothing. Its run is the test of the libraries from `pj_session` to `pj_serve`.
#![tactic(auto)]

mod alone;
mod halves;
mod office;
mod signals;
mod sinks;
mod written;

use anyhow::{Context, Result, anyhow, bail};
use pj_change::Memory;
use std::alloc::Global;
use std::io::Write;
use std::sync::Wait;
use std::thread::Threads;
use std::{env, fs};

/// What is played.
#[derive(Clone, Copy)]
enum Kind {
    Office,
    Sinks,
    Halves,
    Alone,
}

impl Kind {
    /// The kind that a word names.
    fn named(word: &str) -> Result<Kind> {
        match word {
            "office" => Ok(Kind::Office),
            "sinks" => Ok(Kind::Sinks),
            "halves" => Ok(Kind::Halves),
            "alone" => Ok(Kind::Alone),
            _ => bail!("there is nothing of this name"),
        }
    }

    /// Whether its cases stand in a file.
    fn has_file(self) -> bool {
        match self {
            Kind::Office | Kind::Halves => true,
            Kind::Sinks | Kind::Alone => false,
        }
    }
}

/// What is written of these cases.
fn output<R: Threads + Wait + Sync>(
    rt: &R,
    alloc: Global,
    kind: Kind,
    cases: &[u8],
) -> Result<Vec<u8>, Memory> {
    match kind {
        Kind::Office => office::play_all(rt, alloc, cases),
        Kind::Sinks => sinks::play_all(rt, alloc),
        Kind::Halves => halves::play_all(rt, alloc, cases),
        Kind::Alone => alone::play_all(rt, alloc),
    }
}

/// Plays these cases, and writes what comes of them.
fn play<R: Threads + Wait + Sync>(
    host: &HostRuntime,
    rt: &R,
    kind: Kind,
    cases: &[u8],
) -> Result<()> {
    let Ok(out) = output(rt, host.alloc(), kind, cases) else {
        return Err(anyhow!("out of memory"));
    };
    host.stdout().write_all(&out)?;
    Ok(())
}

fn main(rt: HostRuntime) -> Result<()> {
    let mut words = env::args(&rt)?.skip(1);
    for _ in 0..words.len() {
        let Some(word) = words.next() else {
            break;
        };
        let kind = Kind::named(word.as_str())?;
        let mut cases = Vec::new(rt.alloc());
        if kind.has_file() {
            let path = words.next().context("which cases?")?;
            cases = fs::read(&rt, path.as_str())?;
        }
        play(&rt, &rt, kind, &cases)?;
    }
    Ok(())
}
