//! What a change gives to each index.

ghost use Rattle.std.specs.Prelude.{◌≡◌, ◌++◌, ◌+◌, ◌<◌, ◌^◌, ◌∷◌, [], Contains, IfOk, flat_map, map, option_to_list};
ghost use Rattle.pj_change.specs.Positions as position;
ghost use Rattle.pj_change.specs.Positions.{resolve};
ghost use Rattle.pj_contest.specs.Marks.{base_row, up_row};
ghost use Rattle.pj_contest.specs.Given as given;

use crate::keys::key_of;
use crate::marks::{BaseMark, ChildMark, UpMark};
use pj_change::{Hunk, Place, Point, Record, Ref};
use pj_context::{base_of, child_of, name_of, own_point, place_of};
use pj_name::Name;
use pj_ranges::{HunkAt, RangeAt};
use pj_rows::Memory;
use std::alloc::Global;

/// The points with those that some references of the change mean.
fn with_points(record: &Record, refs: &[Ref], mut points: Vec<Point>) -> Result<Vec<Point>, Memory>
    ensures { IfOk result (λ v. v.items ≡ points.items ++ flat_map (λ at. given.points_at (resolve «record».now at)) refs.now) }
{
    for at in refs {
        if let Place::At(point) = place_of(record, *at) {
            points.push(point)?;
        }
    }
    Ok(points)
}

/// The ups of the change that are points.
pub fn up_points(alloc: Global, record: &Record) -> Result<Vec<Point>, Memory>
    ensures { IfOk result (λ v. v.items ≡ given.up_points «record».now) }
{
    let mut points = Vec::new(alloc);
    for hunk in record.change.hunks.items() {
        if let Hunk::Insert { ups, .. } = hunk {
            points = with_points(record, ups.items(), points)?;
        }
    }
    Ok(points)
}

/// The files and parents of the change's hunks, as keys.
pub fn bases(alloc: Global, record: &Record) -> Result<Vec<Option<Point>>, Memory>
    ensures { IfOk result (λ v. v.items ≡ given.bases «record».now) }
{
    let mut bases = Vec::new(alloc);
    for hunk in record.change.hunks.items() {
        if let Some(base) = base_of(hunk) {
            bases.push(key_of(place_of(record, base)))?;
        }
    }
    Ok(bases)
}

/// A row for each point, by the same.
fn ups_by(alloc: Global, points: &[Point], by: Name) -> Result<Vec<UpMark>, Memory>
    ensures { IfOk result (λ v. v.items ≡ map (λ at. up_row at by) points.now) }
{
    let mut rows = Vec::new(alloc);
    for at in points {
        rows.push(UpMark {
            at: *at,
            by: Some(by),
        })?;
    }
    Ok(rows)
}

/// A row for each place, by the same.
fn bases_by(alloc: Global, places: &[Option<Point>], by: Name) -> Result<Vec<BaseMark>, Memory>
    ensures { IfOk result (λ v. v.items ≡ map (λ at. base_row at by) places.now) }
{
    let mut rows = Vec::new(alloc);
    for at in places {
        rows.push(BaseMark {
            at: *at,
            past: false,
            by: Some(by),
        })?;
    }
    Ok(rows)
}

/// Each up, and that the change inserts there.
pub fn up_rows(alloc: Global, record: &Record) -> Result<Vec<UpMark>, Memory>
    ensures { IfOk result (λ v. v.items ≡ given.up_rows «record».now) }
{
    let points = up_points(alloc, record)?;
    let rows = ups_by(alloc, &points, record.name)?;
    Ok(rows)
}

/// Each file and parent, and that the change builds there.
pub fn base_rows(alloc: Global, record: &Record) -> Result<Vec<BaseMark>, Memory>
    ensures { IfOk result (λ v. v.items ≡ given.base_rows «record».now) }
{
    let bases = bases(alloc, record)?;
    let rows = bases_by(alloc, &bases, record.name)?;
    Ok(rows)
}

/// The rows with that of the name that a hunk with this first position makes.
fn with_child(
    mut rows: Vec<ChildMark>,
    record: &Record,
    first: u32,
    hunk: &Hunk,
) -> Result<Vec<ChildMark>, Memory>
    requires { first + 1 < 2 ^ 32 }
    ensures { IfOk result (λ v. v.items ≡ rows.items ++ given.child_row «record».now first (position.child_of «record».now first hunk.now)) }
{
    let Some(child) = child_of(record, first, hunk) else {
        return Ok(rows);
    };
    rows.push(ChildMark {
        at: key_of(child),
        past: false,
        by: Some(own_point(record, first)),
    })?;
    Ok(rows)
}

/// Each child of a name that the change makes, and the name.
pub fn child_rows(alloc: Global, record: &Record) -> Result<Vec<ChildMark>, Memory>
    ensures { IfOk result (λ v. v.items ≡ given.child_rows «record».now) }
{
    let mut rows = Vec::new(alloc);
    let mut first = 0;
    for hunk in record.change.hunks.items() {
        rows = with_child(rows, record, first, hunk)?;
        first += hunk.position_count() as u32;
    }
    Ok(rows)
}

/// The ranges with that of a hunk of the change, by its number.
fn with_range(
    mut ranges: Vec<RangeAt>,
    record: &Record,
    number: u32,
    hunk: &Hunk,
) -> Result<Vec<RangeAt>, Memory>
    requires { Contains «record».now.change.hunks hunk.now }
    ensures { IfOk result (λ v. v.items ≡ ranges.items ++ given.range_in «record».now number hunk.now) }
{
    if let Hunk::Delete {
        owner,
        start,
        end,
        ..
    } = hunk
    {
        let by = HunkAt {
            change: record.name,
            hunk: number,
        };
        ranges.push(RangeAt::of(name_of(record, *owner), *start, *end, by))?;
    }
    Ok(ranges)
}

/// The ranges that the change deletes, each by its hunk.
pub fn deleted_ranges(alloc: Global, record: &Record) -> Result<Vec<RangeAt>, Memory>
    ensures { IfOk result (λ v. v.items ≡ given.deleted_ranges «record».now) }
{
    let mut ranges = Vec::new(alloc);
    for (number, hunk) in record.change.hunks.items().iter().enumerate() {
        ranges = with_range(ranges, record, number as u32, hunk)?;
    }
    Ok(ranges)
}
