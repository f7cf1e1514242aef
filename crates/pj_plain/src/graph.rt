//! The graph of a lawful list of changes.

ghost use Rattle.std.specs.Prelude.{IfOk};
ghost use Rattle.pj_change.specs.Graph.{IsGraph};
ghost use Rattle.pj_change.specs.Lawful.{IsLawful};
ghost use Rattle.pj_change.specs.Shared.{records};

use crate::edges::edges_of;
use crate::vertices::vertices_of;
use pj_change::{Edges, Graph, Memory, Record, Vertices};
use std::alloc::Global;
use std::sync::Arc;

/// The graph of the set of these changes.
pub fn graph_of(alloc: Global, changes: &[Arc<Record>]) -> Result<Graph, Memory>
    requires { IsLawful (records changes.now) }
    ensures { IfOk result (IsGraph (records changes.now)) }
{
    let vertices = vertices_of(alloc, changes)?;
    let edges = edges_of(alloc, changes)?;
    Ok(Graph {
        vertices: Vertices::of(vertices),
        edges: Edges::of(edges),
    })
}
