//! Where the ranges begin that a walk has not met.

ghost use Rattle.std.specs.Prelude.{◌≡◌, ◌≤◌, ◌<◌, ◌⊎◌, IsTrue, Some};
ghost use Rattle.std.specs.declared.cmp.Ordering.TheVariants.{Less};
ghost use Rattle.pj_change.specs.declared.point.Point.{Point as PointValue};
ghost use Rattle.pj_ranges.specs.declared.range.RangeAt.{RangeAt as RangeValue};
ghost use Rattle.pj_ranges.specs.Units.{range_cmp};
ghost use Rattle.pj_ranges.specs.Over.{has_point};

use pj_change::Point;
use pj_ranges::RangeAt;

/// The range, or the bound below each later range that begins at `from` or behind it.
pub fn bound(range: RangeAt, from: u32) -> RangeAt
    ensures owner { result.owner ≡ range.owner }
    ensures keeps { (range_cmp range result ≡ Less) ⊎ (result ≡ range) }
    ensures skips { (q : RangeValue) → q.owner ≡ range.owner → from ≤ q.start → q.start < q.end → range_cmp range q ≡ Less → range_cmp result q ≡ Less }
{
    if range.start < from {
        return RangeAt {
            start: from,
            end: 0,
            ..range
        };
    }
    range
}

/// The least start of a range that has the point and not the one before it.
pub fn first_new(before: Option<Point>, at: Point) -> u32
    ensures { (q : RangeValue) → IsTrue (has_point q at) → q.start < result → (p : PointValue) × (before ≡ Some p) × IsTrue (has_point q p) }
{
    match before {
        Some(p) => if p.change == at.change && p.offset < at.offset {
            p.offset + 1
        } else {
            0
        },
        None => 0,
    }
}
