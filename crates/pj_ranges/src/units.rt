//! How a range is made, with the power of 2 that belongs to its length.

ghost use Rattle.std.specs.Prelude.{◌≡◌, ◌<◌, ◌≤◌, ◌^◌};
ghost use Rattle.pj_ranges.specs.Units as unit;
ghost use Rattle.pj_ranges.specs.Units.{range_of};

use crate::range::{HunkAt, RangeAt};
use pj_name::Name;

/// The greatest power of 2 that is not above `len`, which is below `2^left`.
#[tactic(auto, unfolding(crate::specs::Units::unit_from))]
fn unit_from(left: u32, len: u32) -> u32
    requires { 0 < len }
    ensures same { result ≡ unit.unit_from left len }
    ensures low { result ≤ len }
{
    if left == 0 || len < 2 {
        return 1;
    }
    2 * unit_from(left - 1, len / 2)
}

impl RangeAt {
    /// The range of these positions.
    pub fn of(owner: Name, start: u32, end: u32, by: HunkAt) -> RangeAt
        requires { start < end }
        ensures { result ≡ range_of owner start end by }
    {
        RangeAt {
            owner,
            unit: unit_from(32, end - start),
            start,
            end,
            by,
        }
    }
}
