//! The pseudo rows of a list with one change more or less.

ghost use Rattle.std.specs.Prelude.{IfOk, List};
ghost use Rattle.pj_change.specs.declared.change.Record.{Record as RecordValue};
ghost use Rattle.pj_change.specs.Lawful.{IsLawful};
ghost use Rattle.pj_contest.specs.Contests.{AreHits};
ghost use Rattle.pj_cuts.specs.CutsOf.{AllFitAfter};
ghost use Rattle.pj_dead.specs.Pseudo.{AreRowsOf};
ghost use Rattle.pj_view.specs.SetGraph.{graph_of};
ghost use Rattle.pj_view.specs.Touched.{HasOneMore};
ghost use Rattle.pj_view.specs.TouchedRows.{IsTouchedBy};

use crate::laws::{graphs_are_whole, other_dead_vertices_are_kept};
use crate::touching::touched;
use crate::view::SetView;
use pj_change::{Memory, Point, Record};
use pj_contest::HunkAt;
use pj_dead::{Pseudo, PseudoRow, touched_rows};
use std::alloc::Global;

/// What a change touches in a list that it is to follow: points, one of them in each vertex of the list with the change in which dead
/// text, or what stands beside it, can differ, and the rows across the dead sets of the list that have such a point.
#[derive(Drop)]
pub struct Touched {
    points: Vec<Point>,
    rows: Vec<PseudoRow>,
}

/// What the change touches in a list without it, of which it contests these hunks. The list may be given up then.
pub fn touched_by(
    alloc: Global,
    without: &SetView,
    change: &Record,
    contested: &[HunkAt],
) -> Result<Touched, Memory>
    requires fits { AllFitAfter change.now }
    requires contested { AreHits without.now change.now contested.now }
    ensures { IfOk result (IsTouchedBy without.now change.now) }
{
    let points = touched(alloc, without, change, contested)?;
    let rows = touched_rows(alloc, without, &points)?;
    Ok(Touched { points, rows })
}

/// The pseudo rows of a list with a change, from those of the list without it and what the change touches there.
///
/// Only the dead sets that the change touches are walked.
pub fn rows_with(
    alloc: Global,
    rows: Pseudo,
    touched: &Touched,
    with: &SetView,
) -> Result<Pseudo, Memory>
    ensures { IfOk result (λ new. (S : List RecordValue) (c : RecordValue) → IsLawful S → HasOneMore S with.now c → IsTouchedBy S c touched.now →
        AreRowsOf (graph_of S) rows → AreRowsOf (graph_of with.now) new) }
{
    other_dead_vertices_are_kept();
    graphs_are_whole();
    let _more = with.list();
    let made = touched_rows(alloc, with, &touched.points)?;
    let new = rows.changed(alloc, &touched.rows, &made)?;
    Ok(new)
}

/// The pseudo rows of a list without the change, from those of the list with it. The change contests these hunks of the list without it.
///
/// Only the dead sets that the change touches are walked.
pub fn rows_without(
    alloc: Global,
    rows: Pseudo,
    with: &SetView,
    without: &SetView,
    change: &Record,
    contested: &[HunkAt],
) -> Result<Pseudo, Memory>
    requires more { HasOneMore without.now with.now change.now }
    requires contested { AreHits without.now change.now contested.now }
    requires rows { AreRowsOf (graph_of with.now) rows }
    ensures { IfOk result (AreRowsOf (graph_of without.now)) }
{
    other_dead_vertices_are_kept();
    let _fewer = without.list();
    let _more = with.list();
    let points = touched(alloc, without, change, contested)?;
    let new = rows.refresh(alloc, with, without, &points)?;
    Ok(new)
}
