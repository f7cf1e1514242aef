//! The rows inside blocks that come and go with the cuts of a change.

ghost use Rattle.std.specs.Prelude.{◌≡◌, ◌≤◌, ◌<◌, IfOk, Contains, length, map, true, false};
ghost use Rattle.pj_change.specs.declared.point.Point.{Point as APoint};
ghost use Rattle.pj_edges.specs.OwnRows.{row_before};
ghost use Rattle.pj_outline.specs.Inner.{IsInside, IsNotInside, AreInside, AreUncut};

use pj_change::Point;
use pj_cuts::Cuts;
use pj_edges::{EdgeRow, inner_row};
use pj_pmap::Memory;
use std::alloc::Global;

/// Whether a block has the point after its first one.
fn is_inside(cuts: &Cuts, at: Point) -> bool
    ensures inside { result ≡ true → IsInside cuts.now at }
    ensures not_inside { result ≡ false → IsNotInside cuts.now at }
{
    match cuts.block_of(at) {
        Some((first, _)) => first < at.offset,
        None => false,
    }
}

/// Those of the points before which no cut stands.
pub fn uncut(alloc: Global, cuts: &Cuts, points: &[Point]) -> Result<Vec<Point>, Memory>
    ensures uncut { IfOk result (λ list. AreUncut cuts.now points.now list.items) }
    ensures few { IfOk result (λ list. length list.items ≤ length points.now) }
{
    let mut list = Vec::new(alloc);
    for point in points {
        if cuts.count(*point) == 0 {
            list.push(*point)?;
        }
    }
    Ok(list)
}

/// Those of the points that a block has after its first one.
pub fn inside(alloc: Global, cuts: &Cuts, points: &[Point]) -> Result<Vec<Point>, Memory>
    ensures inside { IfOk result (λ list. AreInside cuts.now points.now list.items) }
    ensures few { IfOk result (λ list. length list.items ≤ length points.now) }
{
    let mut list = Vec::new(alloc);
    for point in points {
        if is_inside(cuts, *point) {
            list.push(*point)?;
        }
    }
    Ok(list)
}

/// The rows that lead to these points from the ones before them.
pub fn inner_rows(alloc: Global, points: &[Point]) -> Result<Vec<EdgeRow>, Memory>
    requires { (p : APoint) → Contains points.now p → 0 < p.offset }
    ensures { IfOk result (λ rows. rows.items ≡ map row_before points.now) }
{
    let mut rows = Vec::new(alloc);
    for point in points {
        rows.push(inner_row(*point))?;
    }
    Ok(rows)
}
