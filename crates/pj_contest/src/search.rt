//! The deletions that a change contests, found by what it inserts after and builds on.

ghost use Rattle.std.specs.Prelude.{◌≡◌, ◌++◌, ◌∷◌, ◌≤◌, ◌⊎◌, true, false, IsTrue, IfOk, Contains, flat_map, option_to_list};
ghost use Rattle.pj_change.specs.declared.point.Point.{Point as PointValue};
ghost use Rattle.pj_change.specs.Lawful.{is_held};
ghost use Rattle.pj_ranges.specs.declared.range.RangeAt.{RangeAt as RangeValue};
ghost use Rattle.pj_ranges.specs.Over.{has_point, has_range};
ghost use Rattle.pj_rows.specs.Keys.{has};
ghost use Rattle.pj_contest.specs.Marks.{child_cmp, name_row};
ghost use Rattle.pj_contest.specs.Contests.{AreHitsInOrder, IsFree};
ghost use Rattle.pj_contest.specs.Sought.{AreSought, HasOnlyRangesOf, HasRowsOf, KnowNoMore};

use crate::distinct::distinct;
use crate::given::{bases, up_points};
use crate::hits::hits_among;
use crate::indexes::Indexes;
use crate::marks::ChildMark;
use crate::starts::{bound, first_new};
use pj_change::{Peers, Point, Record};
use pj_pmap::PMap;
use pj_ranges::{HunkAt, RangeAt, Ranges, Walk};
use pj_rows::{Here, Memory, keys_between};
use std::alloc::Global;

// ---- the points of which a deletion that is contested has one

/// The points with those of some rows.
fn with_named(rows: &[ChildMark], mut points: Vec<Point>) -> Result<Vec<Point>, Memory>
    ensures { IfOk result (λ v. v.items ≡ points.items ++ flat_map (λ m. option_to_list m.by) rows.now) }
{
    for row in rows {
        if let Some(name) = row.by {
            points.push(name)?;
        }
    }
    Ok(points)
}

/// The points with the names of a child.
fn with_names(
    alloc: Global,
    children: &PMap<ChildMark, Here>,
    child: Option<Point>,
    points: Vec<Point>,
) -> Result<Vec<Point>, Memory>
    ensures kept { IfOk result (λ v. (p : PointValue) → Contains points.items p → Contains v.items p) }
    ensures names { IfOk result (λ v. (q : PointValue) → has child_cmp (name_row child q) children.now ≡ true → Contains v.items q) }
{
    let above = ChildMark {
        at: child,
        past: false,
        by: None,
    };
    let below = ChildMark {
        at: child,
        past: true,
        by: None,
    };
    let rows = keys_between(alloc, children, &above, &below)?;
    let named = with_named(&rows, points)?;
    Ok(named)
}

/// The ups of the change, and the names of what it builds on.
fn sought(
    alloc: Global,
    children: &PMap<ChildMark, Here>,
    change: &Record,
) -> Result<Vec<Point>, Memory>
    ensures { IfOk result (λ v. AreSought change.now children.now v.items) }
{
    let mut points = up_points(alloc, change)?;
    let all = bases(alloc, change)?;
    let each = distinct(alloc, &all)?;
    for child in &each {
        points = with_names(alloc, children, *child, points)?;
    }
    Ok(points)
}

// ---- the deletions that have one of them

/// The ranges with this one, if it begins at `from` or behind it.
fn with_range(range: RangeAt, from: u32, mut found: Vec<RangeAt>) -> Result<Vec<RangeAt>, Memory>
    ensures kept { IfOk result (λ v. (q : RangeValue) → Contains found.items q → Contains v.items q) }
    ensures one { IfOk result (λ v. from ≤ range.start → Contains v.items range) }
    ensures only { IfOk result (λ v. (q : RangeValue) → Contains v.items q → Contains found.items q ⊎ (q ≡ range)) }
{
    if from <= range.start {
        found.push(range)?;
    }
    Ok(found)
}

/// The ranges with those that have the point and begin at `from` or behind it.
fn with_over(
    walk: &mut Walk<'_>,
    at: Point,
    from: u32,
    mut found: Vec<RangeAt>,
) -> Result<Vec<RangeAt>, Memory>
    ensures same { walk.new ≡ walk.old }
    ensures kept { IfOk result (λ v. (q : RangeValue) → Contains found.items q → Contains v.items q) }
    ensures all { IfOk result (λ v. (q : RangeValue) → IsTrue (has_range walk.old q) → IsTrue (has_point q at) → from ≤ q.start → Contains v.items q) }
    ensures only { IfOk result (λ v. (q : RangeValue) → Contains v.items q → Contains found.items q ⊎ IsTrue (has_range walk.old q)) }
{
    let mut next = walk.next_over(at, None);
    while let Some(range) = next {
        found = with_range(range, from, found)?;
        next = walk.next_over(at, Some(bound(range, from)));
    }
    Ok(found)
}

/// The ranges that have one of the points. Where the points rise, each is found once.
fn found_over(alloc: Global, ranges: &Ranges, points: &[Point]) -> Result<Vec<RangeAt>, Memory>
    ensures all { IfOk result (λ v. (p : PointValue) → Contains points.now p → (q : RangeValue) → IsTrue (has_range ranges.now q) → IsTrue (has_point q p) → Contains v.items q) }
    ensures only { IfOk result (λ v. (q : RangeValue) → Contains v.items q → IsTrue (has_range ranges.now q)) }
{
    let mut found = Vec::new(alloc);
    let mut walk = ranges.walk();
    let mut before = None;
    for at in points {
        found = with_over(&mut walk, *at, first_new(before, *at), found)?;
        before = Some(*at);
    }
    Ok(found)
}

/// The hunks of the peers that `change` contests, each once, in order. Unless `know_more`, no peer knows others beside its needs.
pub fn hits<P: Peers>(
    alloc: Global,
    indexes: &Indexes,
    peers: &P,
    know_more: bool,
    change: &Record,
) -> Result<Vec<HunkAt>, Memory>
    requires rows { HasRowsOf (P.records peers.now) indexes.now }
    requires only { HasOnlyRangesOf (change.now ∷ P.records peers.now) indexes.now }
    requires fresh { is_held (P.records peers.now) change.now.name ≡ false }
    requires free { IsFree (P.records peers.now) change.now }
    requires know_more { IsTrue know_more ⊎ KnowNoMore (P.records peers.now) }
    ensures { IfOk result (λ v. AreHitsInOrder (P.records peers.now) change.now v.items) }
{
    let sought = sought(alloc, &indexes.children, change)?;
    let points = distinct(alloc, &sought)?;
    let found = found_over(alloc, &indexes.ranges, &points)?;
    let hits = hits_among(alloc, peers, know_more, change, &found)?;
    let each = distinct(alloc, &hits)?;
    Ok(each)
}
