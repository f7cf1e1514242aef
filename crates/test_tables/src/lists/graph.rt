//! Whether the look-ups of the tables show a graph.

use pj_change::{Edge, EdgeRow, Graph, Place, Point, Vertex, VertexKind};
use pj_tables::{Memory, Tables};
use std::alloc::Global;

/// How many edges of a point are looked up at most.
const MOST: u32 = 1_000_000;

fn first(vertex: &Vertex) -> Point {
    Point {
        change: vertex.change,
        offset: vertex.start,
    }
}

fn last(vertex: &Vertex) -> Point {
    Point {
        change: vertex.change,
        offset: vertex.end.saturating_sub(1),
    }
}

fn row_of(edge: &Edge) -> EdgeRow {
    EdgeRow {
        source: edge.source,
        target: edge.target,
        label: edge.label,
        introducer: edge.introducer,
    }
}

/// The vertex, if it is one of text.
fn text_of(vertex: &Vertex) -> Option<Vertex> {
    match vertex.kind {
        VertexKind::Text => Some(*vertex),
        _ => None,
    }
}

/// Whether the tables show the vertex at its first point and at its last one.
fn has_vertex(tables: &Tables, vertex: &Vertex) -> bool {
    let (first, last) = (first(vertex), last(vertex));
    let ends = tables.vertex_of(first) == Some(*vertex) && tables.vertex_of(last) == Some(*vertex);
    ends && tables.text_at(first) == text_of(vertex) && tables.status(first) == vertex.status
}

/// The vertices behind those of the change of the first one, or `None` where the tables show others of that change.
fn behind<'a>(
    alloc: Global,
    tables: &Tables,
    vertices: &'a [Vertex],
) -> Result<Option<&'a [Vertex]>, Memory> {
    let Some(vertex) = vertices.first() else {
        return Ok(None);
    };
    let shown = tables.vertices(alloc, vertex.change)?;
    Ok(vertices.strip_prefix(shown.items()))
}

/// Whether the tables show these vertices, change by change.
fn has_vertices(alloc: Global, tables: &Tables, vertices: &[Vertex]) -> Result<bool, Memory> {
    let mut left = vertices;
    for _ in 0..vertices.len() {
        if left.is_empty() {
            break;
        }
        let Some(rest) = behind(alloc, tables, left)? else {
            return Ok(false);
        };
        left = rest;
    }
    Ok(left.is_empty())
}

/// Appends the edges out of the place, one after the other.
fn put_out(tables: &Tables, source: Place, edges: &mut Vec<Edge>) -> Result<(), Memory> {
    let mut next = tables.next_out(source, None);
    for _ in 0..MOST {
        let Some(edge) = next else {
            break;
        };
        edges.push(edge)?;
        next = tables.next_out(edge.source, Some(edge));
    }
    Ok(())
}

/// Appends the edges into the point, one after the other.
fn put_into(tables: &Tables, target: Point, edges: &mut Vec<Edge>) -> Result<(), Memory> {
    let mut next = tables.next_into(target, None);
    for _ in 0..MOST {
        let Some(edge) = next else {
            break;
        };
        edges.push(edge)?;
        next = tables.next_into(edge.target, Some(edge));
    }
    Ok(())
}

/// The edges out of the root and out of the vertices, in order.
fn edges_out(alloc: Global, tables: &Tables, vertices: &[Vertex]) -> Result<Vec<Edge>, Memory> {
    let mut edges = Vec::new(alloc);
    put_out(tables, Place::Root, &mut edges)?;
    for vertex in vertices {
        put_out(tables, Place::At(last(vertex)), &mut edges)?;
    }
    Ok(edges)
}

/// The edges into the vertices.
fn edges_into(alloc: Global, tables: &Tables, vertices: &[Vertex]) -> Result<Vec<Edge>, Memory> {
    let mut edges = Vec::new(alloc);
    for vertex in vertices {
        put_into(tables, first(vertex), &mut edges)?;
    }
    Ok(edges)
}

/// Whether the tables have each of these edges, with its status.
fn has_edges(tables: &Tables, edges: &[Edge]) -> bool {
    edges
        .iter()
        .all(|edge| tables.edge(row_of(edge)) == Some(*edge))
}

/// Whether the graph is the one that the look-ups of the tables show.
pub fn is_shown(alloc: Global, tables: &Tables, graph: &Graph) -> Result<bool, Memory> {
    let vertices = graph.vertices.items();
    let edges = graph.edges.items();
    if !vertices.iter().all(|vertex| has_vertex(tables, vertex)) || !has_edges(tables, edges) {
        return Ok(false);
    }
    let whole = has_vertices(alloc, tables, vertices)?;
    let out = edges_out(alloc, tables, vertices)?;
    let into = edges_into(alloc, tables, vertices)?;
    let counted = into.len() == edges.len() && has_edges(tables, &into);
    Ok(whole && counted && out.as_slice() == edges)
}
