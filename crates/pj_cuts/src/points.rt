//! Where each hunk of a change cuts the text.

ghost use Rattle.std.specs.Prelude.{◌≡◌, ◌≤◌, IfOk, length, ◌++◌, flat_map, Contains};
ghost use Rattle.pj_change.specs.declared.point.Ref.{Ref};
ghost use Rattle.pj_change.specs.Positions.{IsNumbered};
ghost use Rattle.pj_change.specs.Positions as position;
ghost use Rattle.pj_change.specs.CutCounts.{point_after, point_at};
ghost use Rattle.pj_change.specs.CutCounts as counted;
ghost use Rattle.pj_cuts.specs.CutsOf.{all_cut_points, AllFitAfter, HasPositionAfter, FitsAfter};

use pj_change::{Hunk, Memory, Place, Point, Record, Ref, numbered, resolve};
use std::alloc::Global;

/// Appends the point after the place; none is after the root.
fn push_after(points: &mut Vec<Point>, at: Place) -> Result<(), Memory>
    requires { HasPositionAfter at }
    ensures { IfOk result (λ _. points.new.items ≡ points.old.items ++ point_after at) }
{
    if let Place::At(point) = at {
        points.push(Point {
            change: point.change,
            offset: point.offset + 1,
        })?;
    }
    Ok(())
}

/// Appends the point at the place; none is at the root.
fn push_at(points: &mut Vec<Point>, at: Place) -> Result<(), Memory>
    ensures { IfOk result (λ _. points.new.items ≡ points.old.items ++ point_at at) }
{
    if let Place::At(point) = at {
        points.push(point)?;
    }
    Ok(())
}

/// Appends the points after these references.
fn push_ups(points: &mut Vec<Point>, record: &Record, ups: &[Ref]) -> Result<(), Memory>
    requires numbered { (up : Ref) → Contains ups.now up → IsNumbered (length «record».now.change.needs) up }
    requires after { (up : Ref) → Contains ups.now up → HasPositionAfter (position.resolve «record».now up) }
    ensures { IfOk result (λ _. points.new.items ≡ points.old.items ++ flat_map (λ up. point_after (position.resolve «record».now up)) ups.now) }
{
    for up in ups {
        push_after(points, resolve(record, *up))?;
    }
    Ok(())
}

/// Appends the points of these references.
fn push_downs(points: &mut Vec<Point>, record: &Record, downs: &[Ref]) -> Result<(), Memory>
    requires { (down : Ref) → Contains downs.now down → IsNumbered (length «record».now.change.needs) down }
    ensures { IfOk result (λ _. points.new.items ≡ points.old.items ++ flat_map (λ down. point_at (position.resolve «record».now down)) downs.now) }
{
    for down in downs {
        push_at(points, resolve(record, *down))?;
    }
    Ok(())
}

/// Appends both ends of a range of a numbered need.
fn push_ends(
    points: &mut Vec<Point>,
    record: &Record,
    owner: u32,
    start: u32,
    end: u32,
) -> Result<(), Memory>
    requires { owner ≤ length «record».now.change.needs }
    ensures { IfOk result (λ _. points.new.items ≡ points.old.items ++ counted.range_ends «record».now owner start end) }
{
    let change = numbered(record, owner);
    points.push(Point {
        change,
        offset: start,
    })?;
    points.push(Point {
        change,
        offset: end,
    })?;
    Ok(())
}

/// Appends the points before which a hunk cuts.
fn push_hunk(points: &mut Vec<Point>, record: &Record, hunk: &Hunk) -> Result<(), Memory>
    requires member { Contains «record».now.change.hunks hunk.now }
    requires after { FitsAfter «record».now hunk.now }
    ensures { IfOk result (λ _. points.new.items ≡ points.old.items ++ counted.cut_points «record».now hunk.now) }
{
    match hunk {
        Hunk::Insert { ups, downs, .. } => {
            push_ups(points, record, ups.items())?;
            push_downs(points, record, downs.items())
        }
        Hunk::Order { source, target, .. } => {
            push_after(points, resolve(record, *source))?;
            push_at(points, resolve(record, *target))
        }
        Hunk::Delete {
            owner,
            start,
            end,
            ..
        } => push_ends(points, record, *owner, *start, *end),
        Hunk::Revive {
            owner,
            start,
            end,
            ..
        } => push_ends(points, record, *owner, *start, *end),
        Hunk::File { .. } => Ok(()),
        Hunk::Dir { .. } => Ok(()),
        Hunk::NameOf { .. } => Ok(()),
    }
}

/// The points before which a change cuts, in the order of its hunks, one for each cut.
pub fn cut_points(alloc: Global, record: &Record) -> Result<Vec<Point>, Memory>
    requires { AllFitAfter «record».now }
    ensures { IfOk result (λ points. points.items ≡ all_cut_points «record».now) }
{
    let mut points = Vec::new(alloc);
    for hunk in record.change.hunks.items() {
        push_hunk(&mut points, record, hunk)?;
    }
    Ok(points)
}
