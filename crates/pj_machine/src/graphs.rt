//! The body of `graph`.
ghost use Rattle.std.specs.Prelude.{◌≡◌, [], ◌∷◌, ◌++◌, decimal, IfOk, OnOk};
ghost use Rattle.std.specs.List.{flat_map};
ghost use Rattle.pj_name.specs.Name.{hex};
ghost use Rattle.pj_change.specs.Children.{point_text};
ghost use Rattle.pj_machine.specs.GraphText.{kind_text, status_text, label_text, place_text, positions_text, vertex_line, edge_line, graph_text};

use itoa::Buffer;
use pj_change::{Bytes, Edge, Graph, Label, Memory, Place, Point, Status, Vertex, VertexKind};
use pj_name::Name;
use std::alloc::{AllocError, Global};

/// A kind of vertices as it is written.
fn kind_word(kind: VertexKind) -> &'static [u8]
    ensures { result.now ≡ kind_text kind }
{
    match kind {
        VertexKind::Name => b"name",
        VertexKind::ExecName => b"xname",
        VertexKind::File => b"file",
        VertexKind::Dir => b"dir",
        VertexKind::Text => b"text",
    }
}

/// A status as it is written.
fn status_word(status: Status) -> &'static [u8]
    ensures { result.now ≡ status_text status }
{
    match status {
        Status::Alive => b"alive",
        Status::Dead => b"dead",
        Status::Zombie => b"zombie",
    }
}

/// A label as it is written.
fn label_word(label: Label) -> &'static [u8]
    ensures { result.now ≡ label_text label }
{
    match label {
        Label::Block => b"block",
        Label::Folder => b"folder",
        Label::Order => b"order",
    }
}

/// Appends a decimal number.
fn put_number(out: &mut Vec<u8>, number: u32) -> Result<(), AllocError>
    ensures { OnOk result (out.new.items ≡ out.old.items ++ decimal number) }
{
    let mut buffer = Buffer::new();
    out.extend_from_slice(buffer.format(number).as_bytes())
}

/// Appends a point.
fn put_point(out: &mut Vec<u8>, point: Point) -> Result<(), AllocError>
    ensures { OnOk result (out.new.items ≡ out.old.items ++ point_text point) }
{
    out.extend_from_slice(&point.change.hex())?;
    out.push(b'.')?;
    put_number(out, point.offset)
}

/// Appends the root or a point.
fn put_place(out: &mut Vec<u8>, place: Place) -> Result<(), AllocError>
    ensures { OnOk result (out.new.items ≡ out.old.items ++ place_text place) }
{
    match place {
        Place::Root => out.extend_from_slice(b"root"),
        Place::At(point) => put_point(out, point),
    }
}

/// Appends the positions of a vertex.
fn put_positions(out: &mut Vec<u8>, vertex: Vertex) -> Result<(), AllocError>
    ensures { OnOk result (out.new.items ≡ out.old.items ++ positions_text vertex) }
{
    out.extend_from_slice(&vertex.change.hex())?;
    out.push(b'.')?;
    put_number(out, vertex.start)?;
    out.push(b'-')?;
    put_number(out, vertex.end)
}

/// Appends two words, each behind a space.
fn put_words(out: &mut Vec<u8>, first: &[u8], second: &[u8]) -> Result<(), AllocError>
    ensures { OnOk result (out.new.items ≡ out.old.items ++ (32 ∷ first.now ++ 32 ∷ second.now)) }
{
    out.push(b' ')?;
    out.extend_from_slice(first)?;
    out.push(b' ')?;
    out.extend_from_slice(second)
}

/// Appends the line of a vertex.
fn put_vertex(out: &mut Vec<u8>, vertex: Vertex) -> Result<(), AllocError>
    ensures { OnOk result (out.new.items ≡ out.old.items ++ vertex_line vertex) }
{
    out.extend_from_slice(b"vertex ")?;
    put_positions(out, vertex)?;
    put_words(out, kind_word(vertex.kind), status_word(vertex.status))?;
    out.extend_from_slice(b"\n")
}

/// Appends the two ends of an edge.
fn put_ends(out: &mut Vec<u8>, edge: Edge) -> Result<(), AllocError>
    ensures { OnOk result (out.new.items ≡ out.old.items ++ (place_text edge.source ++ 32 ∷ point_text edge.target)) }
{
    put_place(out, edge.source)?;
    out.push(b' ')?;
    put_point(out, edge.target)
}

/// Appends the name of a change behind a space, as the last word of a line.
fn put_last(out: &mut Vec<u8>, change: Name) -> Result<(), AllocError>
    ensures { OnOk result (out.new.items ≡ out.old.items ++ (32 ∷ hex change.bytes ++ 10 ∷ [])) }
{
    out.push(b' ')?;
    out.extend_from_slice(&change.hex())?;
    out.extend_from_slice(b"\n")
}

/// Appends the line of an edge.
fn put_edge(out: &mut Vec<u8>, edge: Edge) -> Result<(), AllocError>
    ensures { OnOk result (out.new.items ≡ out.old.items ++ edge_line edge) }
{
    out.extend_from_slice(b"edge ")?;
    put_ends(out, edge)?;
    put_words(out, label_word(edge.label), status_word(edge.status))?;
    put_last(out, edge.introducer)
}

/// Appends the lines of vertices.
fn put_vertices(out: &mut Vec<u8>, vertices: &[Vertex]) -> Result<(), AllocError>
    ensures { OnOk result (out.new.items ≡ out.old.items ++ flat_map vertex_line vertices.now) }
{
    for vertex in vertices {
        put_vertex(out, *vertex)?;
    }
    Ok(())
}

/// Appends the lines of edges.
fn put_edges(out: &mut Vec<u8>, edges: &[Edge]) -> Result<(), AllocError>
    ensures { OnOk result (out.new.items ≡ out.old.items ++ flat_map edge_line edges.now) }
{
    for edge in edges {
        put_edge(out, *edge)?;
    }
    Ok(())
}

/// The body of `graph`: a line for each vertex, and then a line for each edge, in the order in which the graph lists them.
///
/// # Errors
/// `Memory` where there was no memory for it.
pub fn graph_body(alloc: Global, graph: &Graph) -> Result<Bytes, Memory>
    ensures { IfOk result (λ body. body ≡ graph_text graph.now) }
{
    let mut text = Vec::new(alloc);
    put_vertices(&mut text, graph.vertices.items())?;
    put_edges(&mut text, graph.edges.items())?;
    Ok(Bytes::of(text))
}
