//! Points that stand for what a change touches: the vertices in which dead text can differ, or what stands beside it, between a list and
//! the list with the change. They are found in the list without the change alone.

ghost use Rattle.std.specs.Prelude.{◌≡◌, true, [], Contains, IfOk, IsTrue};
ghost use Rattle.pj_change.specs.declared.point.Point.{Point as PointValue};
ghost use Rattle.pj_contest.specs.Contests.{AreHits};
ghost use Rattle.pj_cuts.specs.CutsOf.{AllFitAfter};
ghost use Rattle.pj_dead.specs.PointGraphs as shown;
ghost use Rattle.pj_view.specs.Added.{HasAdded, HasEntries, HasStarts, IsBefore, IsBesideAt, IsCovered, IsCoveredAt, IsDeadAt, IsNeighbour, IsOldEnd, IsUncutAt, StandsToOne};
ghost use Rattle.pj_view.specs.SetGraph.{graph_of};
ghost use Rattle.pj_view.specs.Stretches.{HasStretches, is_in, is_in_some};
ghost use Rattle.pj_view.specs.Touched.{AreTouchedBy, IsNewCut};

use crate::stretch::{Stretch, covered};
use crate::view::SetView;
use pj_change::{Hunk, Memory, Place, Point, Record};
use pj_contest::{HunkAt, hunk_at};
use pj_cuts::cut_points;
use pj_dead::{Found, View, distinct, with_points};
use pj_edges::{EdgeRow, own_rows};
use pj_name::Name;
use std::alloc::Global;
use std::collections::BTreeSet;

/// Adds the point, if it is wanted.
fn add_if(points: &mut Vec<Point>, wanted: bool, at: Point) -> Result<(), Memory>
    ensures { IfOk result (λ _. HasAdded points.old.items points.new.items (λ p. (at ≡ p) × IsTrue wanted)) }
{
    if !wanted {
        return Ok(());
    }
    points.push(at)?;
    Ok(())
}

// ---- what the change says itself

/// The cuts at which no change of the view cuts, each once.
fn new_cuts(alloc: Global, view: &SetView, cuts: &[Point]) -> Result<Vec<Point>, Memory>
    ensures { IfOk result (λ new. HasAdded [] new.items (StandsToOne cuts.now (IsUncutAt view.now))) }
{
    let mut new = Vec::new(alloc);
    for at in cuts {
        add_if(&mut new, !view.is_cut(*at), *at)?;
    }
    let once = distinct(alloc, &new)?;
    Ok(once.into_points())
}

/// Adds the points just before the cuts.
fn add_before(points: &mut Vec<Point>, cuts: &[Point]) -> Result<(), Memory>
    ensures { IfOk result (λ _. HasAdded points.old.items points.new.items (StandsToOne cuts.now IsBefore)) }
{
    for at in cuts {
        points.push(Point {
            change: at.change,
            offset: at.offset.saturating_sub(1),
        })?;
    }
    Ok(())
}

/// The points found with this one, if it is dead. One that was found is not asked for its status.
fn with_if_dead(points: Found, view: &SetView, at: Point) -> Result<Found, Memory>
    ensures { IfOk result (λ more. HasAdded points more (IsDeadAt view.now at)) }
{
    if points.has(at) {
        return Ok(points);
    }
    if !view.is_dead(at) {
        return Ok(points);
    }
    points.with(at)
}

/// The points found with those of the list that are dead.
fn with_dead(mut points: Found, view: &SetView, list: &[Point]) -> Result<Found, Memory>
    ensures { IfOk result (λ more. HasAdded points more (StandsToOne list.now (IsDeadAt view.now))) }
{
    for at in list {
        points = with_if_dead(points, view, *at)?;
    }
    Ok(points)
}

/// Adds the ends of a row that are points, but for those of the change that has this name.
fn add_row(points: &mut Vec<Point>, row: &EdgeRow, name: Name) -> Result<(), Memory>
    ensures { IfOk result (λ _. HasAdded points.old.items points.new.items (IsOldEnd name row.now)) }
{
    let target = row.target;
    add_if(points, target.change != name, target)?;
    if let Place::At(source) = row.source {
        add_if(points, source.change != name, source)?;
    }
    Ok(())
}

/// Adds the ends of the rows that are points, but for those of the change that has this name.
fn add_rows(points: &mut Vec<Point>, rows: &[EdgeRow], name: Name) -> Result<(), Memory>
    ensures { IfOk result (λ _. HasAdded points.old.items points.new.items (StandsToOne rows.now (IsOldEnd name))) }
{
    for row in rows {
        add_row(points, row, name)?;
    }
    Ok(())
}

// ---- what the change deletes or revives

/// Adds entries to the positions of the stretch: the first one, and those at which a vertex begins or that no text has.
fn add_stretch(points: &mut Vec<Point>, view: &SetView, stretch: Stretch) -> Result<(), Memory>
    ensures { IfOk result (λ _. HasEntries view.now points.old.items points.new.items (λ p. is_in stretch p ≡ true)) }
{
    let Stretch { change, start, end } = stretch;
    let mut offset = start;
    while offset < end {
        let at = Point { change, offset };
        points.push(at)?;
        offset = match view.end_of(at) {
            Some(past) => past,
            None => offset + 1,
        };
    }
    Ok(())
}

/// Adds entries to what the hunk deletes or revives.
fn add_hunk(
    points: &mut Vec<Point>,
    view: &SetView,
    record: &Record,
    hunk: &Hunk,
) -> Result<(), Memory>
    requires { Contains «record».now.change.hunks hunk.now }
    ensures { IfOk result (λ _. HasEntries view.now points.old.items points.new.items (IsCovered «record».now hunk.now)) }
{
    match covered(record, hunk) {
        Some(stretch) => add_stretch(points, view, stretch),
        None => Ok(()),
    }
}

/// Adds entries to what the change deletes or revives.
fn add_hunks(points: &mut Vec<Point>, view: &SetView, record: &Record) -> Result<(), Memory>
    ensures { IfOk result (λ _. HasEntries view.now points.old.items points.new.items (StandsToOne «record».now.change.hunks (IsCovered «record».now))) }
{
    for hunk in record.change.hunks.items() {
        add_hunk(points, view, record, hunk)?;
    }
    Ok(())
}

// ---- what others delete

/// What the hunk of the list at this place deletes or revives, if nobody contests it.
fn covered_at(view: &SetView, at: HunkAt) -> Option<Stretch>
    ensures { (p : PointValue) → IsCoveredAt view.now at p → is_in_some result p ≡ true }
{
    if view.is_contested(at) {
        return None;
    }
    let owner = view.list().get(at.change)?;
    let hunk = hunk_at(owner, at.hunk)?;
    covered(owner, hunk)
}

/// Adds entries to the stretch, unless that was done before: then it is one of the set.
fn add_once(
    points: &mut Vec<Point>,
    added: &mut BTreeSet<Stretch>,
    view: &SetView,
    stretch: Stretch,
) -> Result<(), Memory>
    requires { HasStretches view.now points.old.items added.old }
    ensures points { IfOk result (λ _. HasEntries view.now points.old.items points.new.items (λ p. is_in stretch p ≡ true)) }
    ensures stretches { IfOk result (λ _. HasStretches view.now points.new.items added.new) }
{
    if added.insert(stretch)? {
        add_stretch(points, view, stretch)?;
    }
    Ok(())
}

/// Adds entries to what the hunk of the list at this place deletes, unless somebody contests it or that was done before.
fn add_hunk_at(
    points: &mut Vec<Point>,
    added: &mut BTreeSet<Stretch>,
    view: &SetView,
    at: HunkAt,
) -> Result<(), Memory>
    requires { HasStretches view.now points.old.items added.old }
    ensures points { IfOk result (λ _. HasEntries view.now points.old.items points.new.items (IsCoveredAt view.now at)) }
    ensures stretches { IfOk result (λ _. HasStretches view.now points.new.items added.new) }
{
    match covered_at(view, at) {
        Some(stretch) => add_once(points, added, view, stretch),
        None => Ok(()),
    }
}

/// Adds entries to what these hunks of the list delete that nobody contests, once where several delete the same.
fn add_hunks_at(
    alloc: Global,
    points: &mut Vec<Point>,
    view: &SetView,
    hunks: &[HunkAt],
) -> Result<(), Memory>
    ensures { IfOk result (λ _. HasEntries view.now points.old.items points.new.items (StandsToOne hunks.now (IsCoveredAt view.now))) }
{
    let mut added = BTreeSet::new(alloc);
    for at in hunks {
        add_hunk_at(points, &mut added, view, *at)?;
    }
    Ok(())
}

/// The new cuts of the change that are dead in the list, and entries to each point whose status the change may make another: where it
/// deletes or revives, and where a hunk of the list deletes that it is the first to contest; each once.
fn starts(
    alloc: Global,
    view: &SetView,
    change: &Record,
    cuts: &[Point],
    contested: &[HunkAt],
) -> Result<Found, Memory>
    requires cuts { (p : PointValue) → IsNewCut view.now change.now p → Contains cuts.now p }
    requires contested { AreHits view.now change.now contested.now }
    ensures { IfOk result (HasStarts view.now change.now) }
{
    let dead = with_dead(Found::new(alloc), view, cuts)?;
    let mut points = dead.into_points();
    add_hunks(&mut points, view, change)?;
    add_hunks_at(alloc, &mut points, view, contested)?;
    let once = distinct(alloc, &points)?;
    Ok(once)
}

// ---- what stands beside

/// Adds the vertices to which edges lead from a vertex and, if these are wanted, those from which edges lead to it.
fn add_neighbours(
    alloc: Global,
    points: &mut Vec<Point>,
    view: &SetView,
    vertex: Point,
    ins_too: bool,
) -> Result<(), Memory>
    requires { shown.IsVertex (graph_of view.now) vertex }
    ensures { IfOk result (λ _. HasAdded points.old.items points.new.items (IsNeighbour view.now vertex ins_too)) }
{
    let outs = view.outs(alloc, vertex)?;
    points.extend_from_slice(&outs)?;
    if !ins_too {
        return Ok(());
    }
    let ins = view.ins(alloc, vertex)?;
    points.extend_from_slice(&ins)?;
    Ok(())
}

/// Adds the vertices to which edges lead from the vertex that has the point, and where it begins with the point those from which edges
/// lead to it.
fn add_beside(
    alloc: Global,
    points: &mut Vec<Point>,
    view: &SetView,
    at: Point,
) -> Result<(), Memory>
    ensures { IfOk result (λ _. HasAdded points.old.items points.new.items (IsBesideAt view.now at)) }
{
    let _list = view.list();
    match view.first(at) {
        Some(vertex) => add_neighbours(alloc, points, view, vertex, vertex == at),
        None => Ok(()),
    }
}

/// Adds such vertices for each of these points.
fn add_all_beside(
    alloc: Global,
    points: &mut Vec<Point>,
    view: &SetView,
    starts: &[Point],
) -> Result<(), Memory>
    ensures { IfOk result (λ _. HasAdded points.old.items points.new.items (StandsToOne starts.now (IsBesideAt view.now))) }
{
    for at in starts {
        add_beside(alloc, points, view, *at)?;
    }
    Ok(())
}

/// Points of which, in each list with the change, one lies in each vertex in which dead text, or what stands beside it, can differ from
/// that of the list without it. The list without the change is enough to find them, and the change contests these hunks of it.
///
/// They are entries to what the change deletes or revives, and to what a hunk deletes that it is the first to contest; its cuts at which
/// no change of the list cuts; and of what is dead, the vertices to which edges lead from the vertex of such an entry or of a dead cut
/// of these, and from which edges lead there where it begins; what ends at such a cut; and the ends of the rows of the change that are
/// points of others.
pub fn touched(
    alloc: Global,
    without: &SetView,
    change: &Record,
    contested: &[HunkAt],
) -> Result<Vec<Point>, Memory>
    requires fits { AllFitAfter change.now }
    requires contested { AreHits without.now change.now contested.now }
    ensures { IfOk result (λ points. AreTouchedBy without.now change.now points.items) }
{
    let _list = without.list();
    let cuts = cut_points(alloc, change)?;
    let cuts = new_cuts(alloc, without, &cuts)?;
    let rows = own_rows(alloc, change)?;
    let starts = starts(alloc, without, change, &cuts, contested)?;
    let mut near = Vec::new(alloc);
    add_all_beside(alloc, &mut near, without, starts.points())?;
    add_before(&mut near, &cuts)?;
    add_rows(&mut near, &rows, change.name)?;
    let once = distinct(alloc, &near)?;
    let both = with_points(starts, &cuts)?;
    let points = with_dead(both, without, once.points())?;
    Ok(points.into_points())
}
