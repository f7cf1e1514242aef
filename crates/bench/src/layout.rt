//! Lays out a strict order of classes as often as asked, and says what the layout is.
//! The words are the order, `chain`, `antichain`, `nested` or `random`, how many classes there are,
//! at most 16,384, and how often.

ghost use Rattle.pj_reach.specs.Closure.{HasStrictOrder};

mod orders;

use crate::words::Words;
use anyhow::{Context, Result, anyhow, ensure};
use orders::{MOST, order_of, pairs_of};
use pj_layout::{Layout, Memory, lay};
use pj_reach::{Reached, close};
use std::alloc::Global;

/// Lays out the classes as often as asked, and once at least.
fn lay_often(alloc: Global, reached: &Reached, times: u32) -> Result<Layout, Memory>
    requires { HasStrictOrder reached.now }
{
    for _ in 1..times {
        lay(alloc, reached.before())?;
    }
    lay(alloc, reached.before())
}

/// Runs the benchmark of these words.
pub fn run(rt: &HostRuntime, words: &mut Words) -> Result<()> {
    let word = words.word("which order?")?;
    let size = words.number("how many classes?")?;
    let times = words.number("how often?")?;
    let order = order_of(word.as_str()).context("there is no such order")?;
    ensure!(size <= MOST, "there are more than {MOST} classes");
    let pairs = pairs_of(rt.alloc(), order, size)?;
    let Ok(reached) = close(rt.alloc(), size, pairs.as_slice()) else {
        return Err(anyhow!("out of memory"));
    };
    let Ok(layout) = lay_often(rt.alloc(), &reached, times) else {
        return Err(anyhow!("out of memory"));
    };
    println!(rt; "{layout:?}")?;
    Ok(())
}
