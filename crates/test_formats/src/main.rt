//! Plays cases of what stands in files, comes over the wire and is made for large runs. The words are pairs of a kind of cases and the
//! file that has them:
//!
//! | Kind | What it plays | The independent program |
//! |---|---|---|
//! | `disk` | logs over disks that stop and tear (`pj_journal` over `pj_disk`) | `tests/disk.py` |
//! | `requests` | requests out of bytes, in pieces of several sizes (`pj_wire`) | `tests/requests.py` |
//! | `replies` | replies out of bytes, in pieces of several sizes (`pj_replies`) | `tests/replies.py` |
//! | `scripts` | the scripts of large runs, by their digests (`pj_gen`) | `tests/large_run.py` |
//!
//! `data` has the cases, and `stdout` what the independent programs answer to them.
//!
//! Contract: none but its safety: those that count are the contracts of the calls that it makes.
//! Cost: that of the calls.
//! Used by: `tests/requests_differential.py`. Its run is the test of these libraries.
#![tactic(auto)]

mod disk;
mod replies;
mod requests;
mod scripts;

use anyhow::{Result, anyhow, bail};
use pj_change::Memory;
use std::alloc::Global;
use std::io::Write;
use std::{env, fs};

/// Which cases a file has.
#[derive(Clone, Copy)]
enum Kind {
    Disk,
    Requests,
    Replies,
    Scripts,
}

impl Kind {
    /// The kind that a word names.
    fn named(word: &str) -> Result<Kind> {
        match word {
            "disk" => Ok(Kind::Disk),
            "requests" => Ok(Kind::Requests),
            "replies" => Ok(Kind::Replies),
            "scripts" => Ok(Kind::Scripts),
            _ => bail!("there is no such kind of cases"),
        }
    }
}

/// The answers to the cases of a file.
fn answers(alloc: Global, kind: Kind, input: &[u8]) -> Result<Vec<u8>, Memory> {
    match kind {
        Kind::Disk => Ok(disk::answers(alloc, input)?),
        Kind::Requests => requests::answers(alloc, input),
        Kind::Replies => replies::answers(alloc, input),
        Kind::Scripts => scripts::answers(alloc, input),
    }
}

/// Writes the answers to the cases of a file.
fn play(rt: &HostRuntime, kind: &str, path: &str) -> Result<()> {
    let kind = Kind::named(kind)?;
    let input = fs::read(rt, path)?;
    let Ok(out) = answers(rt.alloc(), kind, &input) else {
        return Err(anyhow!("out of memory"));
    };
    rt.stdout().write_all(&out)?;
    Ok(())
}

fn main(rt: HostRuntime) -> Result<()> {
    let mut words = env::args(&rt)?.skip(1);
    for _ in 0..words.len() {
        let (Some(kind), Some(path)) = (words.next(), words.next()) else {
            break;
        };
        play(&rt, kind.as_str(), path.as_str())?;
    }
    Ok(())
}
