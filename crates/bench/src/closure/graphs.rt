//! The graphs that can be closed, and their edges.

ghost use Rattle.std.specs.Prelude.{◌<◌, IfOk};
ghost use Rattle.pj_reach.specs.Reach.{AreEdgesBelow};

use std::alloc::{AllocError, Global};

/// How many numbers each graph has.
pub const SIZE: u32 = 16_384;

/// A graph to close.
#[derive(Clone, Copy)]
pub enum Graph {
    /// Each number leads to the next, by four edges.
    Chain,
    /// Each number leads to the next, and the last one to the first.
    Cycle,
    /// 65,536 edges drawn from a strict order.
    Random,
    /// There is no edge.
    Empty,
}

/// The graph that a word names.
pub fn graph_of(word: &str) -> Option<Graph> {
    match word {
        "chain" => Some(Graph::Chain),
        "cycle" => Some(Graph::Cycle),
        "random" => Some(Graph::Random),
        "none" => Some(Graph::Empty),
        _ => None,
    }
}

/// The edges of a graph.
pub fn edges_of(alloc: Global, graph: Graph) -> Result<Vec<(u32, u32)>, AllocError>
    ensures { IfOk result (λ edges. AreEdgesBelow SIZE edges.items) }
{
    match graph {
        Graph::Chain => chain(alloc),
        Graph::Cycle => cycle(alloc),
        Graph::Random => random(alloc),
        Graph::Empty => Ok(Vec::new(alloc)),
    }
}

fn chain(alloc: Global) -> Result<Vec<(u32, u32)>, AllocError>
    ensures { IfOk result (λ edges. AreEdgesBelow SIZE edges.items) }
{
    let mut edges = Vec::new(alloc);
    for _ in 0..4 {
        for at in 0..SIZE - 1 {
            edges.push((at, at + 1))?;
        }
    }
    Ok(edges)
}

fn cycle(alloc: Global) -> Result<Vec<(u32, u32)>, AllocError>
    ensures { IfOk result (λ edges. AreEdgesBelow SIZE edges.items) }
{
    let mut edges = Vec::new(alloc);
    for at in 0..SIZE {
        edges.push((at, (at + 1) % SIZE))?;
    }
    Ok(edges)
}

/// The next of a row of numbers that look random.
fn next(seed: u32) -> u32 {
    seed.wrapping_mul(1_664_525).wrapping_add(1_013_904_223)
}

/// The number that has a place in the order. The places of all numbers differ, as the factor is odd.
fn number_at(place: u32) -> u32
    requires { place < SIZE }
    ensures { result < SIZE }
{
    (place * 6_061 + 1) % SIZE
}

fn random(alloc: Global) -> Result<Vec<(u32, u32)>, AllocError>
    ensures { IfOk result (λ edges. AreEdgesBelow SIZE edges.items) }
{
    let mut edges = Vec::new(alloc);
    let mut seed = 1;
    for _ in 0..65_536 {
        seed = next(seed);
        let one = (seed >> 16) % SIZE;
        seed = next(seed);
        let other = (one + 1 + (seed >> 16) % (SIZE - 1)) % SIZE;
        edges.push((number_at(one.min(other)), number_at(one.max(other))))?;
    }
    Ok(edges)
}
