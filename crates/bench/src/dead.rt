//! Makes the rows of a graph of numbers, and refreshes them as often as asked after one point in its first dead set was
//! touched. The words are the shape, `chain`, `comb` or `grid`, how many dead vertices there are, how many more behind a live
//! one, and how often. It prints a line after each part.

ghost use Rattle.std.specs.Prelude.{◌≤◌, IfOk};

mod board;
mod shape;
mod work;

use crate::words::Words;
use anyhow::{Context, Result, anyhow};
use board::{Board, LARGEST};
use shape::Shape;
use work::{build, refresh};

/// The parts, with a line after each.
fn work_through(rt: &HostRuntime, board: &Board, times: u32) -> Result<()> {
    let alloc = rt.alloc();
    let Ok(rows) = build(alloc, board) else {
        return Err(anyhow!("out of memory"));
    };
    println!(rt; "{} rows", rows.rows().len())?;
    let Ok(rows) = refresh(alloc, board, rows, times) else {
        return Err(anyhow!("out of memory"));
    };
    println!(rt; "{} rows", rows.rows().len())?;
    Ok(())
}

/// The number of vertices, if there may be so many.
fn size_of(size: u32) -> Result<u32>
    ensures { IfOk result (λ size. size ≤ 1000000) }
{
    if size > LARGEST {
        return Err(anyhow!("a size is above {LARGEST}"));
    }
    Ok(size)
}

/// Runs the benchmark of these words.
pub fn run(rt: &HostRuntime, words: &mut Words) -> Result<()> {
    let shape = words.word("which shape?")?;
    let size = size_of(words.number("how many dead vertices?")?)?;
    let other = size_of(words.number("how many more?")?)?;
    let times = words.number("how often?")?;
    let shape = Shape::named(shape.as_str()).context("there is no such shape")?;
    work_through(rt, &Board::of(shape, size, other), times)
}
