//! The real edges of a set of changes.

ghost use Rattle.std.specs.Prelude.{◌≡◌, ℕ, ◌+◌, ◌<◌, ◌^◌, length, Contains, IfOk, OnOk};
ghost use Rattle.pj_change.specs.declared.point.Place.TheVariants as placed;
ghost use Rattle.pj_change.specs.declared.point.Ref.{Ref as ARef};
ghost use Rattle.pj_change.specs.Graph.{edge_cmp, Lists};
ghost use Rattle.pj_change.specs.Lawful.{IsLawful};
ghost use Rattle.pj_change.specs.Positions.{IsNumbered};
ghost use Rattle.pj_change.specs.Positions as position;
ghost use Rattle.pj_change.specs.RealEdges.{IsBlock, IsOrder, IsFolder, IsNameEdge, IsEdgeOf, IsEdge};
ghost use Rattle.pj_change.specs.Rules.{position_count};
ghost use Rattle.pj_change.specs.Gathers.{Gathers, IsOfOne};
ghost use Rattle.pj_change.specs.GraphParts.{IsInner, IsSaid};
ghost use Rattle.pj_change.specs.Shared.{records};

use crate::cuts::is_cut;
use crate::listing::list_edges;
use crate::status::status_of;
use pj_change::{Edge, Hunk, Label, Place, Point, Record, Ref, Status, resolve};
use pj_context::own_point;
use std::alloc::{AllocError, Global};
use std::sync::Arc;

/// The edge that the change of `r` says.
fn edge(r: &Record, source: Place, target: Point, label: Label, status: Status) -> Edge
    ensures { result ≡ record { source = source; target = target; label = label; status = status; introducer = r.now.name } }
{
    Edge {
        source,
        target,
        label,
        status,
        introducer: r.name,
    }
}

/// Adds the edge from the source to the text at a position of `r`.
fn add_block(
    edges: &mut Vec<Edge>,
    changes: &[Arc<Record>],
    r: &Record,
    source: Place,
    offset: u32,
) -> Result<(), AllocError>
    ensures { OnOk result (Gathers (IsBlock (records changes.now) r.now source offset) edges.old.items edges.new.items) }
{
    let target = own_point(r, offset);
    let status = status_of(changes, target);
    edges.push(edge(r, source, target, Label::Block, status))?;
    Ok(())
}

/// Adds the edge by which `r` says that the source is before the target.
fn add_order(
    edges: &mut Vec<Edge>,
    r: &Record,
    source: Place,
    target: Place,
) -> Result<(), AllocError>
    ensures { OnOk result (Gathers (IsOrder r.now source target) edges.old.items edges.new.items) }
{
    if let Place::At(target) = target {
        edges.push(edge(r, source, target, Label::Order, Status::Alive))?;
    }
    Ok(())
}

/// Adds an edge into or out of the name at a position of `r`.
fn add_folder(
    edges: &mut Vec<Edge>,
    changes: &[Arc<Record>],
    r: &Record,
    name: u32,
    source: Place,
    target: Place,
) -> Result<(), AllocError>
    ensures { OnOk result (Gathers (IsFolder (records changes.now) r.now name source target) edges.old.items edges.new.items) }
{
    if let Place::At(target) = target {
        let status = status_of(changes, own_point(r, name));
        edges.push(edge(r, source, target, Label::Folder, status))?;
    }
    Ok(())
}

/// Adds the edges from the parent to the name at a position of `r`, and from it to its child.
fn add_name(
    edges: &mut Vec<Edge>,
    changes: &[Arc<Record>],
    r: &Record,
    name: u32,
    parent: Place,
    child: Place,
) -> Result<(), AllocError>
    ensures { OnOk result (Gathers (IsNameEdge (records changes.now) r.now name parent child) edges.old.items edges.new.items) }
{
    let at = Place::At(own_point(r, name));
    add_folder(edges, changes, r, name, parent, at)?;
    add_folder(edges, changes, r, name, at, child)
}

/// Adds the edges from the ups to the first vertex of a block.
fn add_ups(
    edges: &mut Vec<Edge>,
    changes: &[Arc<Record>],
    r: &Record,
    first: u32,
    ups: &[Ref],
) -> Result<(), AllocError>
    requires { (up : ARef) → Contains ups.now up → IsNumbered (length r.now.change.needs) up }
    ensures { OnOk result (Gathers (IsOfOne (λ up. IsBlock (records changes.now) r.now (position.resolve r.now up) first) ups.now) edges.old.items edges.new.items) }
{
    for up in ups {
        add_block(edges, changes, r, resolve(r, *up), first)?;
    }
    Ok(())
}

/// Adds the edges to the later vertices of a block.
fn add_inner(
    edges: &mut Vec<Edge>,
    changes: &[Arc<Record>],
    r: &Record,
    first: u32,
    past: u32,
) -> Result<(), AllocError>
    requires { first < past }
    ensures { OnOk result (Gathers (IsInner (records changes.now) r.now first past) edges.old.items edges.new.items) }
{
    for at in first + 1..past {
        if is_cut(changes, own_point(r, at)) {
            add_block(edges, changes, r, Place::At(own_point(r, at - 1)), at)?;
        }
    }
    Ok(())
}

/// Adds the edges from the last point of a block to the downs.
fn add_downs(edges: &mut Vec<Edge>, r: &Record, last: u32, downs: &[Ref]) -> Result<(), AllocError>
    requires { (down : ARef) → Contains downs.now down → IsNumbered (length r.now.change.needs) down }
    ensures { OnOk result (Gathers (IsOfOne (λ down. IsOrder r.now (placed.At (position.own_point r.now last)) (position.resolve r.now down)) downs.now) edges.old.items edges.new.items) }
{
    for down in downs {
        add_order(edges, r, Place::At(own_point(r, last)), resolve(r, *down))?;
    }
    Ok(())
}

/// Adds the edges of the hunk of `r` whose first position is `first`.
fn add_hunk(
    edges: &mut Vec<Edge>,
    changes: &[Arc<Record>],
    r: &Record,
    first: u32,
    hunk: &Hunk,
) -> Result<(), AllocError>
    requires member { Contains r.now.change.hunks hunk.now }
    requires small { first + position_count hunk.now < 2 ^ 32 }
    ensures { OnOk result (Gathers (IsEdgeOf (records changes.now) r.now first hunk.now) edges.old.items edges.new.items) }
{
    match hunk {
        Hunk::File { parent, .. } | Hunk::Dir { parent, .. } => {
            add_name(
                edges,
                changes,
                r,
                first,
                resolve(r, *parent),
                Place::At(own_point(r, first + 1)),
            )
        }
        Hunk::NameOf { parent, child, .. } => {
            add_name(
                edges,
                changes,
                r,
                first,
                resolve(r, *parent),
                resolve(r, *child),
            )
        }
        Hunk::Insert { ups, downs, .. } => {
            let past = first + hunk.position_count() as u32;
            add_ups(edges, changes, r, first, ups.items())?;
            add_inner(edges, changes, r, first, past)?;
            add_downs(edges, r, past - 1, downs.items())
        }
        Hunk::Order { source, target, .. } => add_order(
            edges,
            r,
            resolve(r, *source),
            resolve(r, *target),
        ),
        Hunk::Delete { .. } | Hunk::Revive { .. } => Ok(()),
    }
}

/// Adds the edges that the change says.
fn add_edges(edges: &mut Vec<Edge>, changes: &[Arc<Record>], r: &Record) -> Result<(), AllocError>
    ensures { OnOk result (Gathers (IsSaid (records changes.now) r.now) edges.old.items edges.new.items) }
{
    let mut first = 0;
    for hunk in r.change.hunks.items() {
        add_hunk(edges, changes, r, first, hunk)?;
        first += hunk.position_count() as u32;
    }
    Ok(())
}

/// The real edges of the set of these changes.
pub fn edges_of(alloc: Global, changes: &[Arc<Record>]) -> Result<Vec<Edge>, AllocError>
    requires { IsLawful (records changes.now) }
    ensures { IfOk result (λ found. Lists edge_cmp (IsEdge (records changes.now)) found.items) }
{
    let mut edges = Vec::new(alloc);
    for r in changes {
        add_edges(&mut edges, changes, r)?;
    }
    list_edges(&mut edges);
    Ok(edges)
}
