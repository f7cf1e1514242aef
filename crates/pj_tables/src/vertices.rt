//! The vertices of the list, with their kinds and statuses.

ghost use Rattle.std.specs.Prelude.{◌≡◌, ◌+◌, ◌<◌, ◌^◌, IfOk, MatchOption, Some};
ghost use Rattle.pj_change.specs.declared.graph.Vertex.{Vertex as VertexValue};
ghost use Rattle.pj_change.specs.Graph.{vertex_cmp, Lists};
ghost use Rattle.pj_change.specs.Vertices as vertex;
ghost use Rattle.pj_tables.specs.VerticesIn.{IsVertexIn, IsVertexOfPoint};

use crate::tables::Tables;
use pj_change::{Hunk, Kind, Memory, Point, Status, Vertex, VertexKind, Vertices, made_at};
use pj_name::Name;
use std::alloc::Global;

/// The kind of the name that a hunk makes.
fn name_kind(hunk: &Hunk) -> VertexKind
    ensures { result ≡ vertex.name_kind (Some hunk.now) }
{
    match hunk {
        Hunk::File { exec: true, .. } | Hunk::NameOf { exec: true, .. } => VertexKind::ExecName,
        _ => VertexKind::Name,
    }
}

/// The vertex of one position.
fn single(at: Point, kind: VertexKind, status: Status) -> Vertex
    requires { at.offset + 1 < 2 ^ 32 }
    ensures { result ≡ record { change = at.change; start = at.offset; end = at.offset + 1; kind = kind; status = status } }
{
    Vertex {
        change: at.change,
        start: at.offset,
        end: at.offset + 1,
        kind,
        status,
    }
}

impl Tables {
    /// The vertex of the list that has the point, or `None` where no change of the list has the point. It takes no memory, and goes
    /// once over the hunks of the change.
    pub fn vertex_of(&self, at: Point) -> Option<Vertex>
        ensures { MatchOption result ((v : VertexValue) → IsVertexOfPoint self.now at v → ⊥) (IsVertexOfPoint self.now at) }
    {
        let list = self.list();
        let owner = list.get(at.change)?;
        let (kind, hunk) = made_at(&owner.change, at.offset)?;
        match kind {
            Kind::NameAt { .. } => Some(single(at, name_kind(hunk), self.status(at))),
            Kind::FileInode { .. } => Some(single(at, VertexKind::File, Status::Alive)),
            Kind::DirInode { .. } => Some(single(at, VertexKind::Dir, Status::Alive)),
            Kind::Text { .. } => self.text_at(at),
        }
    }

    /// The vertices of the change in the list, in order of their starts; none where the list has no such change. For each of them it
    /// goes once over the hunks of the change.
    pub fn vertices(&self, alloc: Global, change: Name) -> Result<Vertices, Memory>
        ensures { IfOk result (Lists vertex_cmp (IsVertexIn self.now change)) }
    {
        let _list = self.list();
        let mut vertices = Vec::new(alloc);
        let mut offset = 0;
        while let Some(vertex) = self.vertex_of(Point { change, offset }) {
            offset = vertex.end;
            vertices.push(vertex)?;
        }
        Ok(Vertices::of(vertices))
    }
}
