//! The set of ranges, which changes by one range at a time.

ghost use Rattle.std.specs.Prelude.{◌≡◌, ◌+◌, ◌≤◌, ◌<◌, ◌&&◌, ◌||◌, not, IsTrue, IfOk, IfSome, MatchOption, [], Some};
ghost use Rattle.std.specs.Ordering.{is_eq};
ghost use Rattle.pj_pmap.specs.Pairs.{IsRising};
ghost use Rattle.pj_ranges.specs.declared.range.RangeAt.{RangeAt as RangeValue};
ghost use Rattle.pj_ranges.specs.Units.{range_cmp, IsMeasured};
ghost use Rattle.pj_ranges.specs.Over.{has_range, IsOver, IsNextOver, left_from};

use crate::range::RangeAt;
use crate::walk::Walk;
use pj_pmap::{Memory, PMap, Steps};
use pj_rows::Here;
use std::alloc::Global;
use std::marker::Model;
use std::sync::ledger::Ledger;

/// A set of ranges. Contracts see the ranges in order.
pub struct Ranges {
    rows: PMap<RangeAt, Here>,
}

/// Written out and not derived: whoever lets go of one cites this proof, and proves nothing anew of its parts.
impl Drop for Ranges {
    fn drop(self) {
        let Ranges { rows: _rows } = self;
    }
}

impl Model for Ranges {
    ghost use Rattle.std.specs.Prelude.{List};
    ghost use Rattle.pj_rows.specs.declared.values.Here.{Here};
    ghost use Rattle.pj_ranges.specs.declared.range.RangeAt.{RangeAt};
    ghost use Rattle.pj_ranges.specs.Over.{AreKept};

    ghost Value = { List (RangeAt × Here) };

    ghost view = { λ r. r.rows };

    ghost invariant = { λ r. AreKept r.rows };
}

impl Ranges {
    /// No range. It takes no memory.
    pub fn empty() -> Ranges
        ensures { result ≡ [] }
    {
        Ranges {
            rows: PMap::empty(),
        }
    }

    /// The same set for a second owner, in constant time.
    pub fn share(&self) -> Result<Ranges, Memory>
        ensures { IfOk result (λ r. r ≡ self.now) }
    {
        Ok(Ranges {
            rows: self.rows.share()?,
        })
    }

    /// The set with this range too. One step.
    pub fn with<L: Ledger>(
        self,
        alloc: Global,
        range: RangeAt,
        steps: &mut Steps<L>,
    ) -> Result<Ranges, Memory>
        requires { IsMeasured range }
        ensures ranges { IfOk result (λ r. (q : RangeValue) → has_range r q ≡ (is_eq (range_cmp q range) || has_range self q)) }
        ensures cost { steps.new ≤ steps.old + 1 }
    {
        let Ranges { rows } = self;
        let rows = rows.into_with(alloc, range, Here, steps)?;
        Ok(Ranges { rows })
    }

    /// The set without this range. One step.
    pub fn without<L: Ledger>(
        self,
        alloc: Global,
        range: &RangeAt,
        steps: &mut Steps<L>,
    ) -> Result<Ranges, Memory>
        ensures ranges { IfOk result (λ r. (q : RangeValue) → has_range r q ≡ (not (is_eq (range_cmp q range.now)) && has_range self q)) }
        ensures cost { steps.new ≤ steps.old + 1 }
    {
        let Ranges { rows } = self;
        let rows = rows.into_without(alloc, range, steps)?;
        Ok(Ranges { rows })
    }

    /// A walk over the ranges that have a point, which begins anew at each point.
    pub fn walk(&self) -> Walk<'_>
        ensures { result ≡ self.now }
    {
        Walk::by(self.rows.cursor())
    }
}
