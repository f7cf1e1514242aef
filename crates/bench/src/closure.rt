//! Closes a graph on 16,384 numbers as often as asked, and says what it found.
//! The words are the graph, `chain`, `cycle`, `random` or `none`, and how often.

mod graphs;

use crate::words::Words;
use anyhow::{Context, Result, anyhow};
use graphs::{SIZE, edges_of, graph_of};
use pj_reach::close;

/// Runs the benchmark of these words.
pub fn run(rt: &HostRuntime, words: &mut Words) -> Result<()> {
    let word = words.word("which graph?")?;
    let times = words.number("how often?")?;
    let word = word.as_str();
    let graph = graph_of(word).context("there is no such graph")?;
    let edges = edges_of(rt.alloc(), graph)?;
    let mut classes = 0;
    let mut joined = 0;
    let mut ordered = 0;
    for _ in 0..times {
        let Ok(reached) = close(rt.alloc(), SIZE, edges.as_slice()) else {
            return Err(anyhow!("out of memory"));
        };
        classes = reached.classes();
        let first = reached.class_of(0);
        let last = reached.class_of(SIZE - 1);
        joined = u32::from(reached.cyclic(first));
        ordered = u32::from(reached.before().get(first, last));
    }
    let count = edges.len();
    println!(rt; "{word}: {count} edges, {classes} classes")?;
    println!(rt; "0 on a cycle: {joined}; 0 before {}: {ordered}", SIZE - 1)?;
    Ok(())
}
