//! The table of edges, kept in both orders as rows come and go.

ghost use Rattle.std.specs.Prelude.{◌≡◌, ◌+◌, ◌*◌, ◌≤◌, IfOk, MatchOption, [], ◌||◌, ◌&&◌, not, length};
ghost use Rattle.std.specs.List.{list_any};
ghost use Rattle.pj_change.specs.declared.row.EdgeRow.{EdgeRow};
ghost use Rattle.pj_pmap.specs.Pairs.{IsRising};
ghost use Rattle.pj_edges.specs.Orders.{out_cmp, into_cmp, same_row};
ghost use Rattle.pj_edges.specs.Rows.{has_row, has_into, IsOutOf, IsInto, IsNextOut, IsNextInto, NoneOut, NoneInto, IsOutAfter, IsIntoAfter};

use crate::keys::{IntoRow, OutRow};
use crate::walks::{IntoWalk, OutWalk};
use pj_change::{EdgeRow, Place, Point};
use pj_pmap::{Memory, PMap, Steps};
use pj_rows::Here;
use std::alloc::Global;
use std::marker::Model;
use std::sync::ledger::Ledger;

/// A set of rows, by source and by target.
pub struct EdgeRows {
    out: PMap<OutRow, Here>,
    into: PMap<IntoRow, Here>,
}

/// Written out and not derived: whoever lets go of one cites this proof, and proves nothing anew of its parts.
impl Drop for EdgeRows {
    fn drop(self) {
        let EdgeRows {
            out: _out,
            into: _into,
        } = self;
    }
}

impl Model for EdgeRows {
    ghost use Rattle.pj_edges.specs.Rows.{Rows, HasRows};

    ghost Value = { Rows };

    ghost view = { λ e. record { out = e.out; into = e.into } };

    ghost invariant = { λ e. HasRows e.out e.into };
}

impl EdgeRows {
    /// No row. It takes no memory.
    pub fn empty() -> EdgeRows
        ensures out { result.out ≡ [] }
        ensures into { result.into ≡ [] }
    {
        EdgeRows {
            out: PMap::empty(),
            into: PMap::empty(),
        }
    }

    /// The same rows for a second owner, in constant time.
    pub fn share(&self) -> Result<EdgeRows, Memory>
        ensures { IfOk result (λ e. e ≡ self.now) }
    {
        Ok(EdgeRows {
            out: self.out.share()?,
            into: self.into.share()?,
        })
    }

    /// The rows by source, then by target, label and introducer. It takes no memory.
    pub fn by_source(&self) -> &PMap<OutRow, Here>
        ensures same { result.now ≡ self.now.out }
        ensures rising { IsRising out_cmp self.now.out }
    {
        &self.out
    }

    /// The same rows by target, then by source, label and introducer. It takes no memory.
    pub fn by_target(&self) -> &PMap<IntoRow, Here>
        ensures same { result.now ≡ self.now.into }
        ensures rising { IsRising into_cmp self.now.into }
        ensures rows { (q : EdgeRow) → has_into self.now.into q ≡ has_row self.now q }
    {
        &self.into
    }

    /// Whether the row is there. It takes no memory.
    pub fn has(&self, row: EdgeRow) -> bool
        ensures { result ≡ has_row self.now row }
    {
        match self.out.get(&OutRow { row }) {
            Some(_) => true,
            None => false,
        }
    }

    /// The rows with this one. Two steps.
    pub fn with<L: Ledger>(
        self,
        alloc: Global,
        row: EdgeRow,
        steps: &mut Steps<L>,
    ) -> Result<EdgeRows, Memory>
        ensures rows { IfOk result (λ e. (q : EdgeRow) → has_row e q ≡ (same_row q row || has_row self q)) }
        ensures cost { steps.new ≤ steps.old + 2 }
    {
        let EdgeRows { out, into } = self;
        let out = out.into_with(alloc, OutRow { row }, Here, steps)?;
        let into = into.into_with(alloc, IntoRow { row }, Here, steps)?;
        Ok(EdgeRows { out, into })
    }

    /// The rows without this one. Two steps.
    pub fn without<L: Ledger>(
        self,
        alloc: Global,
        row: &EdgeRow,
        steps: &mut Steps<L>,
    ) -> Result<EdgeRows, Memory>
        ensures rows { IfOk result (λ e. (q : EdgeRow) → has_row e q ≡ (not (same_row q row.now) && has_row self q)) }
        ensures cost { steps.new ≤ steps.old + 2 }
    {
        let EdgeRows { out, into } = self;
        let out = out.into_without(alloc, &OutRow { row: *row }, steps)?;
        let into = into.into_without(alloc, &IntoRow { row: *row }, steps)?;
        Ok(EdgeRows { out, into })
    }

    /// The rows with these too. Two steps for each.
    pub fn with_rows<L: Ledger>(
        self,
        alloc: Global,
        rows: &[EdgeRow],
        steps: &mut Steps<L>,
    ) -> Result<EdgeRows, Memory>
        ensures rows { IfOk result (λ e. (q : EdgeRow) → has_row e q ≡ (list_any (same_row q) rows.now || has_row self q)) }
        ensures cost { steps.new ≤ steps.old + 2 * length rows.now }
    {
        let mut now = self;
        for row in rows {
            now = now.with(alloc, *row, steps)?;
        }
        Ok(now)
    }

    /// The rows without these. Two steps for each.
    pub fn without_rows<L: Ledger>(
        self,
        alloc: Global,
        rows: &[EdgeRow],
        steps: &mut Steps<L>,
    ) -> Result<EdgeRows, Memory>
        ensures rows { IfOk result (λ e. (q : EdgeRow) → has_row e q ≡ (not (list_any (same_row q) rows.now) && has_row self q)) }
        ensures cost { steps.new ≤ steps.old + 2 * length rows.now }
    {
        let mut now = self;
        for row in rows {
            now = now.without(alloc, row, steps)?;
        }
        Ok(now)
    }

    /// A walk over the rows by source. It takes no memory.
    pub fn walk_out(&self) -> OutWalk<'_>
        ensures { result ≡ self.now }
    {
        let _out = &self.out;
        OutWalk::over(self)
    }

    /// The first row of the source after this one, or the first one of the source for `None`.
    ///
    /// It takes no memory, and the row itself need not be there.
    pub fn next_out(&self, source: Place, after: Option<EdgeRow>) -> Option<EdgeRow>
        requires { IsOutOf source after }
        ensures { MatchOption result (NoneOut self.now source (IsOutAfter after)) (λ r. IsNextOut self.now source (IsOutAfter after) r) }
    {
        self.walk_out().next_out(source, after)
    }

    /// A walk over the rows by target. It takes no memory.
    pub fn walk_into(&self) -> IntoWalk<'_>
        ensures { result ≡ self.now }
    {
        let _into = &self.into;
        IntoWalk::over(self)
    }

    /// The first row of the target after this one, or the first one of the target for `None`.
    ///
    /// It takes no memory, and the row itself need not be there.
    pub fn next_into(&self, target: Point, after: Option<EdgeRow>) -> Option<EdgeRow>
        requires { IsInto target after }
        ensures { MatchOption result (NoneInto self.now target (IsIntoAfter after)) (λ r. IsNextInto self.now target (IsIntoAfter after) r) }
    {
        self.walk_into().next_into(target, after)
    }
}
