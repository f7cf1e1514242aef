//! Whether the dead vertices of two graphs differ only where they have a touched point.

ghost use Rattle.std.specs.Prelude.{◌≡◌, false, Some, IfOk, IsTrue, Contains};
ghost use Rattle.pj_change.specs.declared.point.Point.{Point as APoint};
ghost use Rattle.pj_dead.specs.PointGraphs.{IsVertex, IsEdge, IsDead, IsLive};
ghost use Rattle.pj_dead.specs.DeadRows.{Enters};
ghost use Rattle.pj_dead.specs.Touched.{IsTouched, IsKeptAt, IsKept};
ghost use Rattle.test_tables.specs.States.{shown};
ghost use Rattle.test_tables.specs.Neighbours.{GoesAlike, ComesAlike};

use crate::dead::shape::leads;
use crate::dead::table::Table;
use pj_change::Point;
use pj_dead::{Memory, View};
use std::alloc::Global;

/// Whether the point is of the vertex.
fn is_of(table: &Table, point: Point, at: Point) -> bool
    ensures no { result ≡ false → (shown table.now).first point ≡ Some at → ⊥ }
    ensures yes { IsTrue result → (shown table.now).first point ≡ Some at }
{
    match table.first(point) {
        None => false,
        Some(first) => first == at,
    }
}

/// Whether the vertex has one of the points.
fn is_touched(table: &Table, touched: &[Point], at: Point) -> bool
    ensures no { result ≡ false → IsTouched (shown table.now) touched.now at → ⊥ }
    ensures yes { IsTrue result → IsTouched (shown table.now) touched.now at }
{
    for point in touched {
        if is_of(table, *point, at) {
            return true;
        }
    }
    false
}

/// Whether the points are one.
fn are_one(one: Point, other: Point) -> bool
    ensures { IsTrue result → one ≡ other }
{
    one == other
}

/// Whether the vertex ends where it ends in the other graph.
fn ends_alike(before: &Table, after: &Table, at: Point) -> bool
    requires before { IsVertex (shown before.now) at }
    requires after { IsVertex (shown after.now) at }
    ensures { IsTrue result → (shown after.now).last at ≡ (shown before.now).last at }
{
    are_one(after.last(at), before.last(at))
}

/// Whether it is a dead vertex.
fn is_dead(table: &Table, at: Point) -> bool
    ensures { IsTrue result → IsDead (shown table.now) at }
{
    if !is_of(table, at, at) {
        return false;
    }
    table.dead(at)
}

/// Whether it is a live vertex.
fn is_live(table: &Table, at: Point) -> bool
    ensures { IsTrue result → IsLive (shown table.now) at }
{
    if !is_of(table, at, at) {
        return false;
    }
    !table.dead(at)
}

/// Whether an edge leads from the one vertex to the other.
fn has_edge(table: &Table, from: Point, to: Point) -> bool
    requires from { IsVertex (shown table.now) from }
    requires to { IsVertex (shown table.now) to }
    ensures { IsTrue result → IsEdge (shown table.now) from to }
{
    leads(&table.arrows, from, to)
}

/// Whether an edge leads to the vertex from a live one that ends at the point.
fn is_entered(table: &Table, at: Point, last: Point) -> bool
    requires { IsVertex (shown table.now) at }
    ensures { IsTrue result → Enters (shown table.now) at last }
{
    let Some(from) = table.first(last) else {
        return false;
    };
    if !is_live(table, from) {
        return false;
    }
    if !are_one(table.last(from), last) {
        return false;
    }
    has_edge(table, from, at)
}

/// Whether the edge stands in the other graph too, and leads there to a vertex that is as dead as it is here.
fn goes_alike(before: &Table, after: &Table, at: Point, to: Point) -> bool
    requires at { IsVertex (shown after.now) at }
    requires to { IsVertex (shown before.now) to }
    ensures { IsTrue result → GoesAlike (shown before.now) (shown after.now) at to }
{
    let alike = if before.dead(to) {
        is_dead(after, to)
    } else {
        is_live(after, to)
    };
    if !alike {
        return false;
    }
    has_edge(after, at, to)
}

/// Whether the edge from a dead vertex stands in the other graph too, and in place of one from a live vertex there is one from
/// a live vertex with the same last point.
fn comes_alike(before: &Table, after: &Table, from: Point, at: Point) -> bool
    requires from { IsVertex (shown before.now) from }
    requires at { IsVertex (shown after.now) at }
    ensures { IsTrue result → ComesAlike (shown before.now) (shown after.now) from at }
{
    if !before.dead(from) {
        return is_entered(after, at, before.last(from));
    }
    if !is_dead(after, from) {
        return false;
    }
    has_edge(after, from, at)
}

/// Whether each edge from the vertex is alike in the other graph.
fn leads_alike(alloc: Global, before: &Table, after: &Table, at: Point) -> Result<bool, Memory>
    requires before { IsVertex (shown before.now) at }
    requires after { IsVertex (shown after.now) at }
    ensures { IfOk result (λ same. IsTrue same → (w : APoint) → Contains ((shown before.now).outs at) w → GoesAlike (shown before.now) (shown after.now) at w) }
{
    let list = before.outs(alloc, at)?;
    for to in &list {
        if !goes_alike(before, after, at, *to) {
            return Ok(false);
        }
    }
    Ok(true)
}

/// Whether each edge to the vertex is alike in the other graph.
fn is_led_to_alike(alloc: Global, before: &Table, after: &Table, at: Point) -> Result<bool, Memory>
    requires before { IsVertex (shown before.now) at }
    requires after { IsVertex (shown after.now) at }
    ensures { IfOk result (λ same. IsTrue same → (u : APoint) → Contains ((shown before.now).ins at) u → ComesAlike (shown before.now) (shown after.now) u at) }
{
    let list = before.ins(alloc, at)?;
    for from in &list {
        if !comes_alike(before, after, *from, at) {
            return Ok(false);
        }
    }
    Ok(true)
}

/// Whether the dead vertex is one of the other graph too, with the same end, and keeps there what it has here.
fn is_kept_at(alloc: Global, before: &Table, after: &Table, at: Point) -> Result<bool, Memory>
    requires { IsVertex (shown before.now) at }
    ensures { IfOk result (λ kept. IsTrue kept → IsKeptAt (shown before.now) (shown after.now) at) }
{
    if !is_dead(after, at) {
        return Ok(false);
    }
    if !ends_alike(before, after, at) {
        return Ok(false);
    }
    if !leads_alike(alloc, before, after, at)? {
        return Ok(false);
    }
    let kept = is_led_to_alike(alloc, before, after, at)?;
    Ok(kept)
}

/// Whether the vertex is live or touched, or keeps in the other graph what it has.
fn is_fine(
    alloc: Global,
    before: &Table,
    after: &Table,
    touched: &[Point],
    at: Point,
) -> Result<bool, Memory>
    requires { IsVertex (shown before.now) at }
    ensures { IfOk result (λ fine. IsTrue fine → IsDead (shown before.now) at → (IsTouched (shown before.now) touched.now at → ⊥) → IsKeptAt (shown before.now) (shown after.now) at) }
{
    if !before.dead(at) {
        return Ok(true);
    }
    if is_touched(before, touched, at) {
        return Ok(true);
    }
    let kept = is_kept_at(alloc, before, after, at)?;
    Ok(kept)
}

/// Whether each dead vertex of the one graph that has none of the points keeps in the other what it has.
pub fn is_kept(
    alloc: Global,
    before: &Table,
    after: &Table,
    touched: &[Point],
) -> Result<bool, Memory>
    ensures { IfOk result (λ kept. IsTrue kept → IsKept (shown before.now) (shown after.now) touched.now) }
{
    for shape in &before.shapes {
        if !is_fine(alloc, before, after, touched, shape.first)? {
            return Ok(false);
        }
    }
    Ok(true)
}
