//! Walks over the table by source and by target, which find rows one after the other.

ghost use Rattle.std.specs.Prelude.{◌≡◌, MatchOption, Some, None};
ghost use Rattle.pj_edges.specs.Orders as order;
ghost use Rattle.pj_edges.specs.Rows.{HasRows, IsOutOf, IsInto, IsNextOut, IsNextInto, NoneOut, NoneInto, IsOutAfter, IsIntoAfter};

use crate::edges::EdgeRows;
use crate::keys::{IntoRow, OutRow, by_place};
use pj_change::{EdgeRow, Label, Place, Point};
use pj_name::Name;
use pj_pmap::Cursor;
use pj_rows::Here;
use std::marker::Model;

/// What is not above any row of the source.
fn least_out(source: Place) -> EdgeRow
    ensures { result ≡ order.least_out source }
{
    EdgeRow {
        source,
        target: Point {
            change: Name::least(),
            offset: 0,
        },
        label: Label::Block,
        introducer: Name::least(),
    }
}

/// What is not above any row of the target.
fn least_into(target: Point) -> EdgeRow
    ensures { result ≡ order.least_into target }
{
    EdgeRow {
        source: Place::Root,
        target,
        label: Label::Block,
        introducer: Name::least(),
    }
}

/// A walk over the rows of a table by source. Where the next row lies in the leaf of the one before it, no node is searched.
///
/// Contracts see the rows of the table.
#[derive(Drop)]
pub struct OutWalk<'a> {
    edges: &'a EdgeRows,
    rows: Cursor<'a, OutRow, Here>,
}

impl<'a> Model for OutWalk<'a> {
    ghost use Rattle.std.specs.Prelude.{◌≡◌};
    ghost use Rattle.pj_edges.specs.Rows.{Rows, HasRows};

    ghost Value = { Rows };

    ghost view = { λ w. w.edges.now };

    ghost invariant = { λ w. HasRows w.edges.now.out w.edges.now.into × (w.rows ≡ w.edges.now.out) };
}

impl<'a> OutWalk<'a> {
    /// A walk that has found no row yet.
    pub(crate) fn over(edges: &'a EdgeRows) -> OutWalk<'a>
        requires { HasRows edges.now.out edges.now.into }
        ensures { result ≡ edges.now }
    {
        let rows = edges.by_source().cursor();
        OutWalk { edges, rows }
    }

    /// The next row by source after this one, where it has the same source.
    fn out_after(&mut self, row: EdgeRow) -> Option<EdgeRow>
        ensures same { self.new ≡ self.old }
        ensures next { MatchOption result (NoneOut self.old row.source (IsOutAfter (Some row)))
            (λ r. IsNextOut self.old row.source (IsOutAfter (Some row)) r) }
    {
        let (found, _) = self.rows.next_after(&OutRow { row })?;
        if by_place(found.row.source, row.source).is_ne() {
            return None;
        }
        Some(found.row)
    }

    /// The first row of the source.
    fn first_out(&mut self, source: Place) -> Option<EdgeRow>
        ensures same { self.new ≡ self.old }
        ensures next { MatchOption result (NoneOut self.old source (IsOutAfter None)) (λ r. IsNextOut self.old source (IsOutAfter None) r) }
    {
        let least = least_out(source);
        match self.edges.by_source().get(&OutRow { row: least }) {
            Some(_) => Some(least),
            None => self.out_after(least),
        }
    }

    /// The first row of the source after this one, or the first one of the source for `None`.
    ///
    /// It takes no memory, and the row itself need not be there.
    pub fn next_out(&mut self, source: Place, after: Option<EdgeRow>) -> Option<EdgeRow>
        requires { IsOutOf source after }
        ensures same { self.new ≡ self.old }
        ensures next { MatchOption result (NoneOut self.old source (IsOutAfter after)) (λ r. IsNextOut self.old source (IsOutAfter after) r) }
    {
        match after {
            Some(row) => self.out_after(row),
            None => self.first_out(source),
        }
    }
}

/// A walk over the rows of a table by target. Where the next row lies in the leaf of the one before it, no node is searched.
///
/// Contracts see the rows of the table.
#[derive(Drop)]
pub struct IntoWalk<'a> {
    edges: &'a EdgeRows,
    rows: Cursor<'a, IntoRow, Here>,
}

impl<'a> Model for IntoWalk<'a> {
    ghost use Rattle.std.specs.Prelude.{◌≡◌};
    ghost use Rattle.pj_edges.specs.Rows.{Rows, HasRows};

    ghost Value = { Rows };

    ghost view = { λ w. w.edges.now };

    ghost invariant = { λ w. HasRows w.edges.now.out w.edges.now.into × (w.rows ≡ w.edges.now.into) };
}

impl<'a> IntoWalk<'a> {
    /// A walk that has found no row yet.
    pub(crate) fn over(edges: &'a EdgeRows) -> IntoWalk<'a>
        requires { HasRows edges.now.out edges.now.into }
        ensures { result ≡ edges.now }
    {
        let rows = edges.by_target().cursor();
        IntoWalk { edges, rows }
    }

    /// The next row by target after this one, where it has the same target.
    fn into_after(&mut self, row: EdgeRow) -> Option<EdgeRow>
        ensures same { self.new ≡ self.old }
        ensures next { MatchOption result (NoneInto self.old row.target (IsIntoAfter (Some row)))
            (λ r. IsNextInto self.old row.target (IsIntoAfter (Some row)) r) }
    {
        let (found, _) = self.rows.next_after(&IntoRow { row })?;
        if found.row.target != row.target {
            return None;
        }
        Some(found.row)
    }

    /// The first row of the target.
    fn first_into(&mut self, target: Point) -> Option<EdgeRow>
        ensures same { self.new ≡ self.old }
        ensures next { MatchOption result (NoneInto self.old target (IsIntoAfter None)) (λ r. IsNextInto self.old target (IsIntoAfter None) r) }
    {
        let least = least_into(target);
        match self.edges.by_target().get(&IntoRow { row: least }) {
            Some(_) => Some(least),
            None => self.into_after(least),
        }
    }

    /// The first row of the target after this one, or the first one of the target for `None`.
    ///
    /// It takes no memory, and the row itself need not be there.
    pub fn next_into(&mut self, target: Point, after: Option<EdgeRow>) -> Option<EdgeRow>
        requires { IsInto target after }
        ensures same { self.new ≡ self.old }
        ensures next { MatchOption result (NoneInto self.old target (IsIntoAfter after)) (λ r. IsNextInto self.old target (IsIntoAfter after) r) }
    {
        match after {
            Some(row) => self.into_after(row),
            None => self.first_into(target),
        }
    }
}
