//! The public calls that no row reaches, each made once and where there is memory, and what they give.

mod channels;
mod closures;
mod maps;
mod matrices;
mod sharing;
mod trees;

use anyhow::{Result, anyhow};

/// Makes the calls, and prints what they give.
pub fn run(rt: &HostRuntime) -> Result<()> {
    sharing::cross_threads();
    let Ok(matrices) = matrices::told(rt.alloc()) else {
        return Err(anyhow!("out of memory"));
    };
    println!(rt; "{matrices}")?;
    let Some(closures) = closures::told(rt.alloc()) else {
        return Err(anyhow!("no closure"));
    };
    println!(rt; "{closures}")?;
    let Ok(maps) = maps::told(rt.alloc()) else {
        return Err(anyhow!("out of memory"));
    };
    println!(rt; "{maps}")?;
    let Ok(()) = trees::made(rt.alloc()) else {
        return Err(anyhow!("out of memory"));
    };
    println!(rt; "a tree")?;
    let Some(log) = channels::told(rt.alloc()) else {
        return Err(anyhow!("no channel"));
    };
    println!(rt; "{log}")?;
    Ok(())
}
