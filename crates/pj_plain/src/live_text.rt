//! What is live in a set of changes.

ghost use Rattle.std.specs.Prelude.{◌≡◌};
ghost use Rattle.pj_change.specs.declared.point.Place.TheVariants as placed;
ghost use Rattle.pj_change.specs.Context.{file_at, is_some_place};
ghost use Rattle.pj_change.specs.Positions.{file_of};
ghost use Rattle.pj_change.specs.Shared.{records};
ghost use Rattle.pj_plain.specs.Links as link;
ghost use Rattle.pj_plain.specs.LiveText as live_text;

use crate::status::status_of;
use pj_change::{Hunk, Kind, Place, Point, Record, Status, Vertex, VertexKind, made_at};
use pj_context::is_at;
use pj_tree::Lives;
use std::sync::Arc;

/// Whether the hunk of the change inserts into the file with this inode.
fn is_into(owner: &Record, hunk: &Hunk, inode: Point) -> bool
    ensures { result ≡ is_some_place (placed.At inode) (file_of owner.now hunk.now) }
{
    match hunk {
        Hunk::Insert { file, .. } => is_at(owner, *file, Place::At(inode)),
        _ => false,
    }
}

/// Whether a byte of the file with this inode is at the position of the change.
fn is_in_file(owner: &Record, offset: u32, inode: Point) -> bool
    ensures { result ≡ is_some_place (placed.At inode) (file_at owner.now offset) }
{
    match made_at(&owner.change, offset) {
        Some((Kind::Text { .. }, hunk)) => is_into(owner, hunk, inode),
        _ => false,
    }
}

/// Whether the byte of the set at the point is of the file with this inode.
fn is_of_file(changes: &[Arc<Record>], inode: Point, p: Point) -> bool
    ensures { result ≡ live_text.is_of_file (records changes.now) inode p }
{
    changes.iter().any(|owner| owner.name == p.change && is_in_file(owner, p.offset, inode))
}

/// Whether a vertex of this kind and status is live text.
fn is_live(kind: VertexKind, status: Status) -> bool
    ensures { result ≡ live_text.is_live kind status }
{
    matches!(
        (kind, status),
        (VertexKind::Text, Status::Alive | Status::Zombie)
    )
}

/// Whether the vertex is dead text.
pub fn is_dead_text(vertex: &Vertex) -> bool
    ensures { result ≡ link.is_dead_text vertex.now.kind vertex.now.status }
{
    matches!(
        (vertex.kind, vertex.status),
        (VertexKind::Text, Status::Dead)
    )
}

/// Whether the vertex is live text of the file with this inode.
pub fn is_live_in(changes: &[Arc<Record>], inode: Point, vertex: &Vertex) -> bool
    ensures { result ≡ live_text.is_live_in (records changes.now) inode vertex.now }
{
    let first = Point {
        change: vertex.change,
        offset: vertex.start,
    };
    is_live(vertex.kind, vertex.status) && is_of_file(changes, inode, first)
}

/// A set of changes, and its vertices.
#[derive(Drop)]
pub struct SetWithVertices<'a> {
    pub changes: &'a [Arc<Record>],
    pub vertices: &'a [Vertex],
}

impl<'a> Lives for SetWithVertices<'a> {
    ghost use Rattle.std.specs.List.{list_any};
    ghost use Rattle.pj_change.specs.Status as state;
    ghost use Rattle.pj_change.specs.Shared.{records};
    ghost use Rattle.pj_plain.specs.LiveText.{is_live_in};

    ghost status = { λ s p. state.status_of (records s.changes.now) p };

    ghost live = { λ s inode. list_any (is_live_in (records s.changes.now) inode) s.vertices.now };

    fn name(&self, at: Point) -> Status {
        status_of(self.changes, at)
    }

    fn content(&self, inode: Point) -> bool {
        self.vertices
            .iter()
            .any(|vertex| is_live_in(self.changes, inode, vertex))
    }
}
