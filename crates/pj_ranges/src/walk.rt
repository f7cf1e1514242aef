//! The ranges that have a point, found one after the other.

ghost use Rattle.std.specs.Prelude.{◌≡◌, ◌<◌, IfSome, MatchOption, Some};
ghost use Rattle.pj_ranges.specs.declared.range.RangeAt.{RangeAt as RangeValue};
ghost use Rattle.pj_ranges.specs.Over.{AreKept, IsOver, IsNextOver, left_from};

use crate::range::RangeAt;
use crate::windows::{bound_after, past};
use pj_change::Point;
use pj_pmap::Cursor;
use pj_rows::Here;
use std::marker::Model;

/// A walk over the ranges of a set that have a point. Contracts see the ranges of the set in order.
#[derive(Drop)]
pub struct Walk<'a> {
    rows: Cursor<'a, RangeAt, Here>,
}

impl<'a> Model for Walk<'a> {
    ghost use Rattle.std.specs.Prelude.{List};
    ghost use Rattle.pj_rows.specs.declared.values.Here.{Here};
    ghost use Rattle.pj_ranges.specs.declared.range.RangeAt.{RangeAt};
    ghost use Rattle.pj_ranges.specs.Over.{AreKept};

    ghost Value = { List (RangeAt × Here) };

    ghost view = { λ w. w.rows };

    ghost invariant = { λ w. AreKept w.rows };
}

impl<'a> Walk<'a> {
    /// A walk by this cursor.
    pub(crate) fn by(rows: Cursor<'a, RangeAt, Here>) -> Walk<'a>
        requires { AreKept rows }
        ensures { result ≡ rows.entry }
    {
        Walk { rows }
    }

    /// The least range above `after` that has the point; without `after`, the least of all. It takes no memory.
    pub fn next_over(&mut self, at: Point, after: Option<RangeAt>) -> Option<RangeAt>
        requires { IfSome after (λ a. a.owner ≡ at.change) }
        ensures same { self.new ≡ self.old }
        ensures next { MatchOption result ((r : RangeValue) → IsOver self.old at after r → ⊥) (IsNextOver self.old at after) }
        ensures falls { (a : RangeValue) → after ≡ Some a → left_from self.old result < left_from self.old after }
    {
        let mut bound = bound_after(at.change, after);
        while let Some((range, _)) = self.rows.next_after(&bound) {
            if range.owner != at.change {
                return None;
            }
            if range.has_point(at) {
                return Some(*range);
            }
            bound = past(*range, at);
        }
        None
    }
}
