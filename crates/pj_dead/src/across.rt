//! The rows across one dead set.

ghost use Rattle.std.specs.Prelude.{◌≡◌, ◌↔◌, IfOk, OnOk, Contains};
ghost use Rattle.pj_change.specs.declared.point.Point.{Point as APoint};
ghost use Rattle.pj_change.specs.Gathers.{Gathers, IsOfOne};
ghost use Rattle.pj_dead.specs.declared.row.PseudoRow.{PseudoRow as ARow};
ghost use Rattle.pj_dead.specs.PointGraphs.{IsVertex, IsDead};
ghost use Rattle.pj_dead.specs.Known.{AreKnown};
ghost use Rattle.pj_dead.specs.DeadRows.{AreOfOneSet, IsLeastOf, Enters, Leaves, Arrives, Departs, IsRowOfSet};

use crate::found::{Found, distinct};
use crate::known::{Known, learn};
use crate::near::Way;
use crate::row::PseudoRow;
use crate::search::reached;
use crate::view::View;
use pj_change::{Memory, Point};
use std::alloc::{AllocError, Global};

/// Adds the last points of some vertices.
fn add_lasts<V: View>(view: &V, vertices: &[Point], list: &mut Vec<Point>) -> Result<(), AllocError>
    requires { (v : APoint) → Contains vertices.now v → IsVertex (V.graph view.now) v }
    ensures { OnOk result (Gathers (IsOfOne (λ v p. (V.graph view.now).last v ≡ p) vertices.now) list.old.items list.new.items) }
{
    for vertex in vertices {
        list.push(view.last(*vertex))?;
    }
    Ok(())
}

/// Adds the last points of the live vertices from which an edge leads to this one.
fn add_sources<V: View>(
    alloc: Global,
    view: &V,
    known: &mut Known,
    at: Point,
    list: &mut Vec<Point>,
) -> Result<(), Memory>
    requires vertex { IsVertex (V.graph view.now) at }
    requires known { AreKnown (V.graph view.now) known.old }
    ensures sources { OnOk result (Gathers (Enters (V.graph view.now) at) list.old.items list.new.items) }
    ensures known { OnOk result (AreKnown (V.graph view.now) known.new) }
{
    learn(alloc, view, known, at)?;
    let Some(neighbours) = known.of(at) else {
        return Ok(());
    };
    add_lasts(view, &neighbours.ins.live, list)?;
    Ok(())
}

/// The last points of the live vertices from which an edge leads to this one.
fn sources<V: View>(
    alloc: Global,
    view: &V,
    known: &mut Known,
    at: Point,
) -> Result<Vec<Point>, Memory>
    requires vertex { IsVertex (V.graph view.now) at }
    requires known { AreKnown (V.graph view.now) known.old }
    ensures sources { IfOk result (λ list. (p : APoint) → Contains list.items p ↔ Enters (V.graph view.now) at p) }
    ensures known { OnOk result (AreKnown (V.graph view.now) known.new) }
{
    let mut list = Vec::new(alloc);
    add_sources(alloc, view, known, at, &mut list)?;
    Ok(list)
}

/// The last points of the live vertices from which an edge, and then a path over dead vertices, leads to this one.
fn far_sources<V: View>(
    alloc: Global,
    view: &V,
    known: &mut Known,
    at: Point,
) -> Result<Vec<Point>, Memory>
    requires dead { IsDead (V.graph view.now) at }
    requires known { AreKnown (V.graph view.now) known.old }
    ensures sources { IfOk result (λ list. (p : APoint) → Contains list.items p ↔ Arrives (V.graph view.now) at p) }
    ensures known { OnOk result (AreKnown (V.graph view.now) known.new) }
{
    let mut list = Vec::new(alloc);
    let entries = reached(alloc, view, known, at, Way::Back)?;
    for entry in entries.points() {
        add_sources(alloc, view, known, *entry, &mut list)?;
    }
    Ok(list)
}

/// Adds the live vertices to which an edge leads from this one.
fn add_targets<V: View>(
    alloc: Global,
    view: &V,
    known: &mut Known,
    end: Point,
    list: &mut Vec<Point>,
) -> Result<(), Memory>
    requires vertex { IsVertex (V.graph view.now) end }
    requires known { AreKnown (V.graph view.now) known.old }
    ensures targets { OnOk result (Gathers (Departs (V.graph view.now) end) list.old.items list.new.items) }
    ensures known { OnOk result (AreKnown (V.graph view.now) known.new) }
{
    learn(alloc, view, known, end)?;
    let Some(neighbours) = known.of(end) else {
        return Ok(());
    };
    list.extend_from_slice(&neighbours.outs.live)?;
    Ok(())
}

/// The live vertices to which an edge leads from this one.
fn targets<V: View>(
    alloc: Global,
    view: &V,
    known: &mut Known,
    at: Point,
) -> Result<Vec<Point>, Memory>
    requires vertex { IsVertex (V.graph view.now) at }
    requires known { AreKnown (V.graph view.now) known.old }
    ensures targets { IfOk result (λ list. (q : APoint) → Contains list.items q ↔ Departs (V.graph view.now) at q) }
    ensures known { OnOk result (AreKnown (V.graph view.now) known.new) }
{
    let mut list = Vec::new(alloc);
    add_targets(alloc, view, known, at, &mut list)?;
    Ok(list)
}

/// The live vertices to which a path over dead vertices, and then an edge, leads from this one.
fn far_targets<V: View>(
    alloc: Global,
    view: &V,
    known: &mut Known,
    at: Point,
) -> Result<Vec<Point>, Memory>
    requires dead { IsDead (V.graph view.now) at }
    requires known { AreKnown (V.graph view.now) known.old }
    ensures targets { IfOk result (λ list. (q : APoint) → Contains list.items q ↔ Leaves (V.graph view.now) at q) }
    ensures known { OnOk result (AreKnown (V.graph view.now) known.new) }
{
    let mut list = Vec::new(alloc);
    let ends = reached(alloc, view, known, at, Way::Ahead)?;
    for end in ends.points() {
        add_targets(alloc, view, known, *end, &mut list)?;
    }
    Ok(list)
}

/// Adds the rows from one source to each of the targets.
fn add_rows_from(
    source: Point,
    targets: &[Point],
    least: Point,
    rows: &mut Vec<PseudoRow>,
) -> Result<(), Memory>
    ensures { OnOk result (Gathers (λ row. (row.source ≡ source) × Contains targets.now row.target × (row.least ≡ least)) rows.old.items rows.new.items) }
{
    for target in targets {
        rows.push(PseudoRow {
            source,
            target: *target,
            least,
        })?;
    }
    Ok(())
}

/// Adds the rows from each source to each target.
fn add_rows(
    sources: &[Point],
    targets: &[Point],
    least: Point,
    rows: &mut Vec<PseudoRow>,
) -> Result<(), Memory>
    ensures { OnOk result (Gathers (λ row. Contains sources.now row.source × Contains targets.now row.target × (row.least ≡ least)) rows.old.items rows.new.items) }
{
    for source in sources {
        add_rows_from(*source, targets, least, rows)?;
    }
    Ok(())
}

/// Adds the rows that enter their set at a dead vertex.
fn add_rows_in<V: View>(
    alloc: Global,
    view: &V,
    known: &mut Known,
    at: Point,
    least: Point,
    rows: &mut Vec<PseudoRow>,
) -> Result<(), Memory>
    requires dead { IsDead (V.graph view.now) at }
    requires known { AreKnown (V.graph view.now) known.old }
    ensures rows { OnOk result (Gathers (λ row. Enters (V.graph view.now) at row.source × Leaves (V.graph view.now) at row.target × (row.least ≡ least)) rows.old.items rows.new.items) }
    ensures known { OnOk result (AreKnown (V.graph view.now) known.new) }
{
    let before = sources(alloc, view, known, at)?;
    if before.is_empty() {
        return Ok(());
    }
    let after = far_targets(alloc, view, known, at)?;
    let each = distinct(alloc, &after)?;
    add_rows(&before, each.points(), least, rows)?;
    Ok(())
}

/// Adds the rows that leave their set at a dead vertex.
fn add_rows_out<V: View>(
    alloc: Global,
    view: &V,
    known: &mut Known,
    at: Point,
    least: Point,
    rows: &mut Vec<PseudoRow>,
) -> Result<(), Memory>
    requires dead { IsDead (V.graph view.now) at }
    requires known { AreKnown (V.graph view.now) known.old }
    ensures rows { OnOk result (Gathers (λ row. Arrives (V.graph view.now) at row.source × Departs (V.graph view.now) at row.target × (row.least ≡ least)) rows.old.items rows.new.items) }
    ensures known { OnOk result (AreKnown (V.graph view.now) known.new) }
{
    let after = targets(alloc, view, known, at)?;
    if after.is_empty() {
        return Ok(());
    }
    let before = far_sources(alloc, view, known, at)?;
    let each = distinct(alloc, &before)?;
    add_rows(each.points(), &after, least, rows)?;
    Ok(())
}

/// Adds the rows across a dead set, by the vertices where they enter it.
fn add_rows_by_entries<V: View>(
    alloc: Global,
    view: &V,
    known: &mut Known,
    at: Point,
    set: &[Point],
    least: Point,
    rows: &mut Vec<PseudoRow>,
) -> Result<(), Memory>
    requires set { (v : APoint) → Contains set.now v ↔ AreOfOneSet (V.graph view.now) at v }
    requires least { IsLeastOf (V.graph view.now) at least }
    requires known { AreKnown (V.graph view.now) known.old }
    ensures rows { OnOk result (Gathers (IsRowOfSet (V.graph view.now) at) rows.old.items rows.new.items) }
    ensures known { OnOk result (AreKnown (V.graph view.now) known.new) }
{
    for entry in set {
        add_rows_in(alloc, view, known, *entry, least, rows)?;
    }
    Ok(())
}

/// Adds the rows across a dead set, by the vertices where they leave it.
fn add_rows_by_exits<V: View>(
    alloc: Global,
    view: &V,
    known: &mut Known,
    at: Point,
    set: &[Point],
    least: Point,
    rows: &mut Vec<PseudoRow>,
) -> Result<(), Memory>
    requires set { (v : APoint) → Contains set.now v ↔ AreOfOneSet (V.graph view.now) at v }
    requires least { IsLeastOf (V.graph view.now) at least }
    requires known { AreKnown (V.graph view.now) known.old }
    ensures rows { OnOk result (Gathers (IsRowOfSet (V.graph view.now) at) rows.old.items rows.new.items) }
    ensures known { OnOk result (AreKnown (V.graph view.now) known.new) }
{
    for exit in set {
        add_rows_out(alloc, view, known, *exit, least, rows)?;
    }
    Ok(())
}

/// Whether rows leave a set at fewer vertices than they enter it at. From each of these the set is walked once more.
fn leaves_at_fewer(known: &Known, set: &[Point]) -> bool {
    let mut entries = 0u64;
    let mut exits = 0u64;
    for at in set {
        let Some(neighbours) = known.of(*at) else {
            continue;
        };
        if !neighbours.ins.live.is_empty() {
            entries = entries.saturating_add(1);
        }
        if !neighbours.outs.live.is_empty() {
            exits = exits.saturating_add(1);
        }
    }
    exits < entries
}

/// Adds the rows across a dead set, which has the vertex.
pub fn add_rows_of<V: View>(
    alloc: Global,
    view: &V,
    known: &mut Known,
    at: Point,
    set: &Found,
    rows: &mut Vec<PseudoRow>,
) -> Result<(), Memory>
    requires set { (v : APoint) → Contains set.now v ↔ AreOfOneSet (V.graph view.now) at v }
    requires known { AreKnown (V.graph view.now) known.old }
    ensures rows { OnOk result (Gathers (IsRowOfSet (V.graph view.now) at) rows.old.items rows.new.items) }
    ensures known { OnOk result (AreKnown (V.graph view.now) known.new) }
{
    let Some(least) = set.least() else {
        return Ok(());
    };
    let points = set.points();
    if leaves_at_fewer(known, points) {
        return add_rows_by_exits(alloc, view, known, at, points, least, rows);
    }
    add_rows_by_entries(alloc, view, known, at, points, least, rows)
}
