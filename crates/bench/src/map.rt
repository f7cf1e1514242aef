//! Puts pairs into persistent maps, looks them up and takes them out. The words are how many maps there are, how many pairs
//! each of them has, and how many more are put in, looked up and taken out. It prints a line after each part.

ghost use Rattle.std.specs.Prelude.{◌≡◌, ◌<◌};

mod key;
mod work;

use crate::words::Words;
use anyhow::{Result, anyhow};
use pj_pmap::Steps;
use std::marker::Brand;
use std::sync::ledger::{Blank, Ledger};
use work::{build, look_up, put, take_out};

/// The parts, with a line after each.
fn work_through<L: Ledger>(
    rt: &HostRuntime,
    blank: Blank,
    count: u32,
    pairs: u64,
    more: u64,
) -> Result<()>
    requires name { blank.name ≡ L.name }
    requires parts { blank.parts ≡ L.parts }
    requires some { 0 < blank.parts }
{
    let alloc = rt.alloc();
    let mut steps = Steps::<L>::new(blank);
    let Ok(mut maps) = build(alloc, count, pairs, &mut steps) else {
        return Err(anyhow!("out of memory"));
    };
    println!(rt; "built")?;
    let end = pairs.saturating_add(more);
    let Ok(()) = put(alloc, maps.as_mut_slice(), pairs, end, &mut steps) else {
        return Err(anyhow!("out of memory"));
    };
    println!(rt; "put")?;
    let found = look_up(maps.as_slice(), pairs, end);
    println!(rt; "found {found}")?;
    let Ok(()) = take_out(alloc, maps.as_mut_slice(), pairs, end, &mut steps) else {
        return Err(anyhow!("out of memory"));
    };
    println!(rt; "taken out")?;
    let left = look_up(maps.as_slice(), pairs, end);
    println!(rt; "found {left}")?;
    Ok(())
}

/// Runs the benchmark of these words.
pub fn run(rt: &HostRuntime, words: &mut Words) -> Result<()> {
    let count = words.number("how many maps?")?;
    let pairs = words.number("how many pairs?")?;
    let more = words.number("how many more?")?;
    work_through::<Brand>(rt, Blank::new(1), count, u64::from(pairs), u64::from(more))
}
