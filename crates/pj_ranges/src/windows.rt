//! The bounds from which a walk over ranges goes on.

ghost use Rattle.std.specs.Prelude.{◌≡◌, ◌<◌, ◌^◌, IsTrue, IfSome, Some, None, ◌⊎◌};
ghost use Rattle.std.specs.declared.cmp.Ordering.TheVariants.{Less};
ghost use Rattle.pj_ranges.specs.declared.range.HunkAt.{HunkAt as HunkValue};
ghost use Rattle.pj_ranges.specs.declared.range.RangeAt.{RangeAt as RangeValue};
ghost use Rattle.pj_ranges.specs.Units.{hunk_cmp, range_cmp, IsMeasured};
ghost use Rattle.pj_ranges.specs.Over.{has_point};

use crate::range::{HunkAt, RangeAt};
use pj_change::Point;
use pj_name::Name;

/// The bound of a walk over ranges of the change: the range after which it begins, or else one below each of them.
pub(crate) fn bound_after(owner: Name, after: Option<RangeAt>) -> RangeAt
    requires { IfSome after (λ a. a.owner ≡ owner) }
    ensures owner { result.owner ≡ owner }
    ensures after { (a : RangeValue) → after ≡ Some a → result ≡ a }
    ensures first { after ≡ None → result.unit ≡ 0 }
{
    match after {
        Some(range) => range,
        None => RangeAt {
            owner,
            unit: 0,
            start: 0,
            end: 0,
            by: HunkAt {
                change: owner,
                hunk: 0,
            },
        },
    }
}

/// The last of all hunks: each is below it, or is it.
fn last_hunk() -> HunkAt
    ensures { (by : HunkValue) → by.hunk < 2 ^ 32 → (hunk_cmp by result ≡ Less) ⊎ (result ≡ by) }
{
    HunkAt {
        change: Name::of([255; 32]),
        hunk: u32::MAX,
    }
}

/// A bound that is not below the range, which does not have the point, and below each range after it that has the point.
///
/// Behind the point no range of the same power has it; too far before it none has it up to the window of the power; and of those that
/// begin together none has it that ends up to the point.
pub(crate) fn past(range: RangeAt, at: Point) -> RangeAt
    requires owner { range.owner ≡ at.change }
    requires measured { IsMeasured range }
    ensures owner { result.owner ≡ range.owner }
    ensures keeps { (range_cmp range result ≡ Less) ⊎ (result ≡ range) }
    ensures skips { (q : RangeValue) → IsMeasured q → IsTrue (has_point q at) → range_cmp range q ≡ Less → range_cmp result q ≡ Less }
{
    if at.offset < range.start {
        return RangeAt {
            unit: range.unit + 1,
            start: 0,
            end: 0,
            ..range
        };
    }
    let reach = 2 * u64::from(range.unit);
    let limit = u64::from(at.offset) + 2;
    if u64::from(range.start) + reach < limit {
        return RangeAt {
            start: (limit - reach) as u32,
            end: 0,
            ..range
        };
    }
    if range.end <= at.offset {
        return RangeAt {
            end: at.offset,
            by: last_hunk(),
            ..range
        };
    }
    range
}
