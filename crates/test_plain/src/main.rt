//! Plays worked rows of requests on plain channels, and makes the public calls that no row reaches. The words are the `rows` of a file,
//! as often as wanted, and `calls`.
//!
//! `data/rows` has the worked examples of channels, and `data/inverses` those of changes that undo others. `stdout` has what an
//! independent program, or a person, answered to them, and what the calls must give. `tests/plain_rows.py` plays the same rows on a
//! repository.
//!
//! Contract: none but its safety: those that count are the contracts of the calls that it makes.
//! Cost: that of the calls.
//! Used by: nothing. Its run is the test of the libraries from `pj_name` to `pj_plain`, and of `pj_inverse`.
#![tactic(auto)]

mod calls;
mod rows;

use anyhow::{Context, Result, anyhow, bail};
use std::io::Write;
use std::{env, fs};

/// Writes the replies to the rows of a file.
fn play(rt: &HostRuntime, path: &str) -> Result<()> {
    let input = fs::read(rt, path)?;
    let Ok(replies) = rows::replies(rt.alloc(), &input) else {
        return Err(anyhow!("out of memory"));
    };
    rt.stdout().write_all(&replies)?;
    Ok(())
}

fn main(rt: HostRuntime) -> Result<()> {
    let mut words = env::args(&rt)?.skip(1);
    for _ in 0..words.len() {
        let Some(word) = words.next() else {
            break;
        };
        match word.as_str() {
            "rows" => {
                let path = words.next().context("which rows?")?;
                play(&rt, path.as_str())?;
            }
            "calls" => calls::run(&rt)?,
            _ => bail!("there is nothing of this name"),
        }
    }
    Ok(())
}
