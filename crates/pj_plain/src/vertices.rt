//! The vertices of a set of changes.

ghost use Rattle.std.specs.Prelude.{◌≡◌, ◌≢◌, ℕ, ◌+◌, ◌^◌, ◌<◌, ◌≤◌, ◌⊎◌, IsTrue, false, MatchOption, IfOk, OnOk, Some};
ghost use Rattle.pj_change.specs.declared.graph.Vertex.{Vertex as AVertex};
ghost use Rattle.pj_change.specs.Graph.{vertex_cmp, Lists};
ghost use Rattle.pj_change.specs.Lawful.{IsLawful};
ghost use Rattle.pj_change.specs.Positions as position;
ghost use Rattle.pj_change.specs.Vertices.{IsVertex, IsSingle};
ghost use Rattle.pj_change.specs.Vertices as vertex;
ghost use Rattle.pj_change.specs.Gathers.{Gathers};
ghost use Rattle.pj_change.specs.GraphParts.{IsVertexOf, IsRunAt};
ghost use Rattle.pj_change.specs.Shared.{records};

use crate::cuts::is_cut;
use crate::status::status_of;
use pj_change::{Hunk, Kind, Point, Record, Status, Vertex, VertexKind, made_at, place};
use pj_context::own_point;
use pj_print::list_vertices;
use std::alloc::{AllocError, Global};
use std::sync::Arc;

/// The kind of the name that a hunk makes.
fn name_kind(hunk: &Hunk) -> VertexKind
    ensures { result ≡ vertex.name_kind (Some hunk.now) }
{
    match hunk {
        Hunk::File { exec: true, .. } | Hunk::NameOf { exec: true, .. } => VertexKind::ExecName,
        _ => VertexKind::Name,
    }
}

/// The end of the run of text of the change that begins at `start`: the next cut, or the end of
/// the block.
fn run_end(changes: &[Arc<Record>], owner: &Record, start: u32, past: u32) -> u32
    requires { start < past }
    ensures after { start < result }
    ensures inside { result ≤ past }
    ensures end { (result ≡ past) ⊎ IsTrue (vertex.is_cut (records changes.now) (position.own_point owner.now result)) }
    ensures uncut { (k : ℕ) → start < k → k < result → vertex.is_cut (records changes.now) (position.own_point owner.now k) ≡ false }
{
    for offset in start + 1..past {
        if is_cut(changes, own_point(owner, offset)) {
            return offset;
        }
    }
    past
}

/// The vertex of one position of the change.
fn single(owner: &Record, start: u32, kind: VertexKind, status: Status) -> Vertex
    requires { start + 1 < 2 ^ 32 }
    ensures name { owner.now.name ≡ result.change }
    ensures start { result.start ≡ start }
    ensures single { IsSingle result kind status }
{
    Vertex {
        change: owner.name,
        start,
        end: start + 1,
        kind,
        status,
    }
}

/// The vertex that begins at a position of the block from `first` up to and without `past`, if one
/// does.
fn run_at(
    changes: &[Arc<Record>],
    owner: &Record,
    start: u32,
    first: u32,
    past: u32,
) -> Option<Vertex>
    requires { start < past }
    ensures { MatchOption result
        ((start ≢ first) × (vertex.is_cut (records changes.now) (position.own_point owner.now start) ≡ false))
        (IsRunAt (records changes.now) owner.now start first past) }
{
    let first_point = own_point(owner, start);
    if start != first && !is_cut(changes, first_point) {
        return None;
    }
    Some(Vertex {
        change: owner.name,
        start,
        end: run_end(changes, owner, start, past),
        kind: VertexKind::Text,
        status: status_of(changes, first_point),
    })
}

/// The vertex that begins at a position of the change, if one does.
fn vertex_at(changes: &[Arc<Record>], owner: &Record, start: u32) -> Option<Vertex>
    ensures { MatchOption result
        ((v : AVertex) → v.start ≡ start → IsVertexOf (records changes.now) owner.now v → ⊥)
        (λ v. (v.start ≡ start) × IsVertexOf (records changes.now) owner.now v) }
{
    let (kind, hunk) = made_at(&owner.change, start)?;
    match kind {
        Kind::NameAt { .. } => {
            let status = status_of(changes, own_point(owner, start));
            Some(single(owner, start, name_kind(hunk), status))
        }
        Kind::FileInode { .. } => Some(single(owner, start, VertexKind::File, Status::Alive)),
        Kind::DirInode { .. } => Some(single(owner, start, VertexKind::Dir, Status::Alive)),
        Kind::Text {
            start: first,
            end: past,
            ..
        } => run_at(changes, owner, start, first, past),
    }
}

/// Adds the vertices of the change.
fn add_vertices(
    vertices: &mut Vec<Vertex>,
    changes: &[Arc<Record>],
    owner: &Record,
) -> Result<(), AllocError>
    ensures { OnOk result (Gathers (IsVertexOf (records changes.now) owner.now) vertices.old.items vertices.new.items) }
{
    let position_count = place(&owner.change, owner.change.hunks.items().len() as u32);
    for start in 0..position_count {
        if let Some(vertex) = vertex_at(changes, owner, start) {
            vertices.push(vertex)?;
        }
    }
    Ok(())
}

/// The vertices of the set of these changes.
pub fn vertices_of(alloc: Global, changes: &[Arc<Record>]) -> Result<Vec<Vertex>, AllocError>
    requires { IsLawful (records changes.now) }
    ensures { IfOk result (λ found. Lists vertex_cmp (IsVertex (records changes.now)) found.items) }
{
    let mut vertices = Vec::new(alloc);
    for owner in changes {
        add_vertices(&mut vertices, changes, owner)?;
    }
    list_vertices(&mut vertices);
    Ok(vertices)
}
