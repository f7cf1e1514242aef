//! The edges of a graph as pairs of numbers of its vertices.

ghost use Rattle.std.specs.Prelude.{◌≡◌, ◌≢◌, ◌<◌, ◌^◌, ◌↔◌, IsTrue, length, IfOk, OnOk};
ghost use Rattle.pj_change.specs.declared.graph.Label.TheVariants as label;
ghost use Rattle.pj_change.specs.declared.point.Place.TheVariants as placed;
ghost use Rattle.pj_change.specs.Positions.{same_point, same_place};
ghost use Rattle.pj_change.specs.Vertices as vertex;
ghost use Rattle.pj_change.specs.Gathers.{Gathers, IsOfNumber};
ghost use Rattle.pj_plain.specs.Links.{AreLinks, IsTargetAt, IsLinkOf};

use pj_change::{Edge, Label, Place, Point, Vertex};
use std::alloc::{AllocError, Global};

/// The first position of a vertex.
pub fn first_point(v: &Vertex) -> Point
    ensures { result ≡ vertex.first_point v.now }
{
    Point {
        change: v.change,
        offset: v.start,
    }
}

/// The last position of a vertex.
pub fn last_point(v: &Vertex) -> Point
    ensures { result ≡ vertex.last_point v.now }
{
    Point {
        change: v.change,
        offset: v.end.saturating_sub(1),
    }
}

/// Whether the position is the first one of the vertex.
fn begins_at(v: &Vertex, p: Point) -> bool
    ensures { result ≡ same_point (vertex.first_point v.now) p }
{
    first_point(v) == p
}

/// Whether the edge leaves the vertex at its last position.
fn leaves(edge: &Edge, u: &Vertex) -> bool
    ensures { result ≡ same_place edge.now.source (placed.At (vertex.last_point u.now)) }
{
    match edge.source {
        Place::Root => false,
        Place::At(source) => source == last_point(u),
    }
}

/// Whether the edge is of a block or an order.
fn is_of_text(edge: &Edge) -> bool
    ensures { IsTrue result ↔ (edge.now.label ≢ label.Folder) }
{
    match edge.label {
        Label::Folder => false,
        Label::Block | Label::Order => true,
    }
}

/// Adds a pair for each vertex to which an edge leads from the vertex with the number `from`.
fn add_targets(
    links: &mut Vec<(u32, u32)>,
    vertices: &[Vertex],
    from: u32,
    target: Point,
) -> Result<(), AllocError>
    requires { length vertices.now < 2 ^ 32 }
    ensures { OnOk result (Gathers (IsOfNumber (IsTargetAt vertices.now from target) (length vertices.now)) links.old.items links.new.items) }
{
    for (to, v) in vertices.iter().enumerate() {
        if begins_at(v, target) {
            links.push((from, to as u32))?;
        }
    }
    Ok(())
}

/// Adds a pair for each two vertices that the edge joins.
fn add_links(
    links: &mut Vec<(u32, u32)>,
    vertices: &[Vertex],
    edge: &Edge,
) -> Result<(), AllocError>
    requires { length vertices.now < 2 ^ 32 }
    ensures { OnOk result (Gathers (IsLinkOf vertices.now edge.now) links.old.items links.new.items) }
{
    if !is_of_text(edge) {
        return Ok(());
    }
    for (from, u) in vertices.iter().enumerate() {
        if leaves(edge, u) {
            add_targets(links, vertices, from as u32, edge.target)?;
        }
    }
    Ok(())
}

/// The pairs of numbers of vertices such that a block or order edge leads from the one to the other.
pub fn links_of(
    alloc: Global,
    vertices: &[Vertex],
    edges: &[Edge],
) -> Result<Vec<(u32, u32)>, AllocError>
    requires { length vertices.now < 2 ^ 32 }
    ensures { IfOk result (λ links. AreLinks vertices.now edges.now links.items) }
{
    let mut links = Vec::new(alloc);
    for edge in edges {
        add_links(&mut links, vertices, edge)?;
    }
    Ok(links)
}
