//! The strong classes of a graph, as the trees of a traversal.

ghost use Rattle.std.specs.Prelude.{◌≡◌, map, length, slice_index, EachIndex, IfOk};
ghost use Rattle.pj_reach.specs.Reach.{AreEdgesBelow};
ghost use Rattle.pj_reach.specs.Links.{IsLinked};
ghost use Rattle.pj_reach.specs.Classes.{IsCondensed, turned_edge};

use crate::links::{Links, link};
use crate::traversal::{Forest, search};
use std::alloc::{AllocError, Global};

/// The numbers below `size`.
fn vertices(alloc: Global, size: u32) -> Result<Vec<u32>, AllocError>
    ensures len { IfOk result (λ all. length all.items ≡ size) }
    ensures each { IfOk result (λ all. EachIndex all.items (λ k. slice_index all.items k ≡ k)) }
{
    let mut all = Vec::with_capacity(alloc, size as usize)?;
    for vertex in 0..size {
        all.push(vertex)?;
    }
    Ok(all)
}

/// The edges, each turned round.
fn turned(alloc: Global, edges: &[(u32, u32)]) -> Result<Vec<(u32, u32)>, AllocError>
    ensures { IfOk result (λ turned. turned.items ≡ map turned_edge edges.now) }
{
    edges.iter().map(|edge| (edge.1, edge.0)).collect(alloc)
}

/// The strong classes as trees: a traversal against the edges whose roots are the vertices
/// in the order opposite to that in which a traversal along the edges finished them.
pub fn condense(
    alloc: Global,
    size: u32,
    edges: &[(u32, u32)],
    links: &Links,
) -> Result<Forest, AllocError>
    requires graph { AreEdgesBelow size edges.now }
    requires linked { IsLinked size edges.now links.now.last.items links.now.earlier.items }
    ensures { IfOk result (λ forest. IsCondensed size edges.now forest.tree_of.items forest.finished.items) }
{
    let all = vertices(alloc, size)?;
    let mut roots = search(alloc, size, edges, links, all.as_slice())?.finished;
    roots.reverse();
    let turned = turned(alloc, edges)?;
    let against = turned.as_slice();
    let links = link(alloc, size, against)?;
    let trees = search(alloc, size, against, &links, roots.as_slice())?;
    Ok(trees)
}
