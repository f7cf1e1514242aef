//! The rows across the dead sets that have a touched vertex.

ghost use Rattle.std.specs.Prelude.{◌≡◌, ◌↔◌, ◌++◌, ◌∷◌, [], List, IfOk, OnOk, Contains};
ghost use Rattle.pj_change.specs.declared.point.Point.{Point as APoint};
ghost use Rattle.pj_change.specs.Gathers.{Gathers};
ghost use Rattle.pj_dead.specs.PointGraphs.{IsDead};
ghost use Rattle.pj_dead.specs.Touched.{AreTouchedRows, HasPoint, IsTouched};
ghost use Rattle.pj_dead.specs.Searches.{AreRowsOfSets};
ghost use Rattle.pj_dead.specs.Known.{AreKnown};

use crate::across::add_rows_of;
use crate::found::{Found, distinct, with_points};
use crate::known::{Known, add_if, is_dead};
use crate::near::Way;
use crate::row::PseudoRow;
use crate::search::reached;
use crate::view::View;
use pj_change::{Memory, Point};
use std::alloc::Global;

/// Adds the vertex that has a point, if it is dead.
fn add_dead<V: View>(
    view: &V,
    known: &mut Known,
    point: Point,
    dead: &mut Vec<Point>,
) -> Result<(), Memory>
    requires { AreKnown (V.graph view.now) known.old }
    ensures dead { OnOk result (Gathers (λ v. HasPoint (V.graph view.now) point v × IsDead (V.graph view.now) v) dead.old.items dead.new.items) }
    ensures known { OnOk result (AreKnown (V.graph view.now) known.new) }
{
    let Some(at) = view.first(point) else {
        return Ok(());
    };
    let wanted = is_dead(view, known, at)?;
    add_if(dead, wanted, at)?;
    Ok(())
}

/// The touched vertices that are dead, each once.
fn touched_dead<V: View>(
    alloc: Global,
    view: &V,
    known: &mut Known,
    touched: &[Point],
) -> Result<Found, Memory>
    requires { AreKnown (V.graph view.now) known.old }
    ensures dead { IfOk result (λ found. (v : APoint) → Contains found v ↔ (IsTouched (V.graph view.now) touched.now v × IsDead (V.graph view.now) v)) }
    ensures known { OnOk result (AreKnown (V.graph view.now) known.new) }
{
    let mut dead = Vec::new(alloc);
    for point in touched {
        add_dead(view, known, *point, &mut dead)?;
    }
    let found = distinct(alloc, &dead)?;
    Ok(found)
}

/// The rows across some dead sets, and what was seen of these sets.
#[derive(Drop)]
struct RowsOfSets {
    rows: Vec<PseudoRow>,
    seen: Found,
}

/// The rows with those across the dead set of a vertex, if that set was not seen.
fn with_set<V: View>(
    alloc: Global,
    view: &V,
    known: &mut Known,
    at: Point,
    mut sets: RowsOfSets,
) -> Result<RowsOfSets, Memory>
    requires dead { IsDead (V.graph view.now) at }
    requires known { AreKnown (V.graph view.now) known.old }
    ensures more { IfOk result (λ more. (starts : List APoint) → AreRowsOfSets (V.graph view.now) starts sets.seen sets.rows.items
        → AreRowsOfSets (V.graph view.now) (starts ++ at ∷ []) more.seen more.rows.items) }
    ensures known { OnOk result (AreKnown (V.graph view.now) known.new) }
{
    if sets.seen.has(at) {
        return Ok(sets);
    }
    let set = reached(alloc, view, known, at, Way::Either)?;
    add_rows_of(alloc, view, known, at, &set, &mut sets.rows)?;
    let seen = with_points(sets.seen, set.points())?;
    Ok(RowsOfSets {
        rows: sets.rows,
        seen,
    })
}

/// The rows across the dead sets that have a touched vertex.
pub fn touched_rows<V: View>(
    alloc: Global,
    view: &V,
    touched: &[Point],
) -> Result<Vec<PseudoRow>, Memory>
    ensures { IfOk result (λ rows. AreTouchedRows (V.graph view.now) touched.now rows.items) }
{
    let mut known = Known::new(alloc);
    let starts = touched_dead(alloc, view, &mut known, touched)?;
    let mut sets = RowsOfSets {
        rows: Vec::new(alloc),
        seen: Found::new(alloc),
    };
    for at in starts.points() {
        sets = with_set(alloc, view, &mut known, *at, sets)?;
    }
    Ok(sets.rows)
}
