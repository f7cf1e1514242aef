//! The edges of a graph, found by the vertex that they leave.

ghost use Rattle.std.specs.Prelude.{IfOk};
ghost use Rattle.pj_reach.specs.Reach.{AreEdgesBelow};
ghost use Rattle.pj_reach.specs.Links.{IsLinked};

use std::alloc::{AllocError, Global};

/// The edges of a graph in chains, one for each vertex that they leave.
#[derive(Drop)]
pub struct Links {
    /// For each vertex the last edge that leaves it.
    pub last: Vec<Option<usize>>,
    /// For each edge the one before it that leaves the same vertex.
    pub earlier: Vec<Option<usize>>,
}

/// The chains of a graph with `size` vertices.
pub fn link(alloc: Global, size: u32, edges: &[(u32, u32)]) -> Result<Links, AllocError>
    requires { AreEdgesBelow size edges.now }
    ensures { IfOk result (λ links. IsLinked size edges.now links.last.items links.earlier.items) }
{
    let mut last = vec![in alloc; None; size as usize]?;
    let mut earlier = Vec::with_capacity(alloc, edges.len())?;
    for (index, edge) in edges.iter().enumerate() {
        let source = edge.0 as usize;
        earlier.push(last[source])?;
        last[source] = Some(index);
    }
    Ok(Links { last, earlier })
}
