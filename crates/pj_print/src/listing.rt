//! Vertices in the order of a graph.

ghost use Rattle.std.specs.Prelude.{◌≡◌, Contains};
ghost use Rattle.std.specs.declared.cmp.Ordering.TheVariants.{Equal};
ghost use Rattle.pj_change.specs.declared.graph.Vertex.{Vertex as AVertex};
ghost use Rattle.pj_change.specs.Graph.{vertex_cmp, Lists};

use pj_change::Vertex;
use std::cmp::Ordering;

/// The order of vertices: by their first points.
fn by_first_point(v: &Vertex, w: &Vertex) -> Ordering
    ensures { result ≡ vertex_cmp v.now w.now }
{
    v.change.cmp(&w.change).then(v.start.cmp(&w.start))
}

/// Puts the vertices in order, each once.
pub fn list_vertices(vertices: &mut Vec<Vertex>)
    requires { (v w : AVertex) → Contains vertices.old.items v → Contains vertices.old.items w → vertex_cmp v w ≡ Equal → v ≡ w }
    ensures { Lists vertex_cmp (Contains vertices.old.items) vertices.new.items }
{
    vertices.sort_unstable_by(|v, w| by_first_point(v, w));
    vertices.dedup_by(|v, w| by_first_point(v, w).is_eq());
}
