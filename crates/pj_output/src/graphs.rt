//! The graph of a list of changes.

ghost use Rattle.std.specs.Prelude.{IfOk};
ghost use Rattle.pj_change.specs.Graph.{IsGraph};

use crate::edges::edges_of;
use crate::vertices::vertices_of;
use pj_change::{Edges, Graph, Memory, Vertices};
use pj_tables::Tables;
use std::alloc::Global;

/// The graph of the list: its vertices and its real edges, each in order.
pub fn graph(alloc: Global, tables: &Tables) -> Result<Graph, Memory>
    ensures { IfOk result (IsGraph tables.now) }
{
    let vertices = vertices_of(alloc, tables)?;
    let edges = edges_of(alloc, tables)?;
    Ok(Graph {
        vertices: Vertices::of(vertices),
        edges: Edges::of(edges),
    })
}
