//! Where edges and pseudo rows lead from live text.

ghost use Rattle.std.specs.Prelude.{◌≡◌};
ghost use Rattle.pj_change.specs.Before.{IsLiveText};
ghost use Rattle.pj_change.specs.Vertices as vertex;
ghost use Rattle.pj_edges.specs.OwnRows.{AreRowsOf};
ghost use Rattle.pj_output.specs.Targets.{lesser, IsNext, LeadsTo};

use pj_change::{Place, Point, Vertex};
use pj_dead::Pseudo;
use pj_edges::OutWalk;
use pj_tables::Tables;
use std::cmp::Ordering;

/// The first position of a vertex.
pub fn first_point(v: &Vertex) -> Point
    ensures { result ≡ vertex.first_point v.now }
{
    Point {
        change: v.change,
        offset: v.start,
    }
}

/// The last position of a vertex.
fn last_point(v: &Vertex) -> Point
    ensures { result ≡ vertex.last_point v.now }
{
    Point {
        change: v.change,
        offset: v.end.saturating_sub(1),
    }
}

/// The lesser of two points, or the one that is there.
fn lesser(one: Option<Point>, other: Option<Point>) -> Option<Point>
    ensures { result ≡ lesser one other }
{
    match (one, other) {
        (Some(p), Some(q)) => match p.cmp(&q) {
            Ordering::Less | Ordering::Equal => Some(p),
            Ordering::Greater => Some(q),
        },
        (Some(p), None) => Some(p),
        (None, found) => found,
    }
}

/// The least point above `after`, or the least of all for `None`, to which an edge or a pseudo row leads from live text, by
/// a walk over the edges of the list.
pub fn next_target(
    tables: &Tables,
    pseudo: &Pseudo,
    walk: &mut OutWalk<'_>,
    u: &Vertex,
    after: Option<Point>,
) -> Option<Point>
    requires text { IsLiveText tables.now u.now }
    requires edges { AreRowsOf tables.now walk.old }
    ensures same { walk.new ≡ walk.old }
    ensures next { IsNext (LeadsTo tables.now pseudo.now u.now) after result }
{
    let _list = tables.list();
    let last = last_point(u);
    let along = pj_view::next_target(walk, Place::At(last), after);
    lesser(along, pseudo.next(last, after))
}
