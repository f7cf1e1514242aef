//! Classes and orders of small graphs, and what they join across inner numbers.

use pj_reach::{Reached, across, close};
use std::alloc::{AllocError, Global};

/// The class of each number, the classes that are cyclic, and the pairs of the order.
fn classes(alloc: Global, reached: &Reached) -> Result<String, AllocError> {
    let mut told = format!(in alloc; "{} classes:", reached.classes())?;
    for at in 0..reached.size() {
        told.push_str(format!(in alloc; " {}", reached.class_of(at))?.as_str())?;
    }
    told.push_str("; cyclic:")?;
    for class in 0..reached.classes() {
        if reached.cyclic(class) {
            told.push_str(format!(in alloc; " {class}")?.as_str())?;
        }
    }
    told.push_str("; before:")?;
    let before = reached.before();
    for x in 0..before.size() {
        for y in 0..before.size() {
            if before.get(x, y) {
                told.push_str(format!(in alloc; " {x}-{y}")?.as_str())?;
            }
        }
    }
    Ok(told)
}

/// What the closure of a graph on the numbers below `size` shows.
fn closed(alloc: Global, size: u32, edges: &[(u32, u32)]) -> Option<String> {
    if !edges.iter().all(|edge| edge.0 < size && edge.1 < size) {
        return None;
    }
    classes(alloc, &close(alloc, size, edges).ok()?).ok()
}

/// How many classes a path through 16,384 numbers has.
fn path(alloc: Global) -> Option<u32> {
    let mut edges = Vec::new(alloc);
    for at in 0..16_383u32 {
        edges.push((at + 1, at)).ok()?;
    }
    if !edges.iter().all(|edge| edge.0 < 16_384 && edge.1 < 16_384) {
        return None;
    }
    Some(close(alloc, 16_384, &edges).ok()?.classes())
}

/// The pairs that a graph joins across inner numbers, in their order.
fn joined(alloc: Global, edges: &[(u32, u32)], inner: &[bool]) -> Option<Vec<(u32, u32)>> {
    if inner.len() > 100 {
        return None;
    }
    let size = inner.len() as u32;
    if !edges.iter().all(|edge| edge.0 < size && edge.1 < size) {
        return None;
    }
    let mut pairs = across(alloc, size, edges, inner).ok()?;
    pairs.sort().ok()?;
    Some(pairs)
}

/// A line for each closure.
fn closed_lines(alloc: Global) -> Option<String> {
    let cycle = closed(alloc, 3, &[(0, 1), (1, 0), (1, 2)])?;
    let twice = closed(alloc, 5, &[(4, 3), (0, 0), (3, 2), (2, 0), (2, 4), (4, 3)])?;
    let none = closed(alloc, 0, &[])?;
    let looped = closed(alloc, 1, &[(0, 0)])?;
    format!(in alloc; "{cycle}\n{twice}\n{none}\n{looped}\n").ok()
}

/// A line of the pairs that are joined.
fn joined_line(alloc: Global) -> Option<String> {
    let inner = [false, true, true, false];
    let row = joined(alloc, &[(0, 1), (1, 2), (2, 3)], &inner)?;
    let ring = joined(alloc, &[(0, 1), (1, 2), (2, 1), (2, 3), (3, 3)], &inner)?;
    let shared = joined(
        alloc,
        &[(0, 1), (3, 1), (1, 2)],
        &[false, true, false, false],
    )?;
    let back = joined(alloc, &[(0, 1), (1, 0)], &[true, false])?;
    format!(in alloc; "{row:?} {ring:?} {shared:?} {back:?}").ok()
}

/// What each of them shows, a line for each.
pub fn told(alloc: Global) -> Option<String> {
    let closed = closed_lines(alloc)?;
    let path = path(alloc)?;
    let joined = joined_line(alloc)?;
    format!(in alloc; "{closed}{path} classes\n{joined}").ok()
}
