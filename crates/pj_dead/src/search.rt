//! The dead vertices that paths over dead vertices lead to.

ghost use Rattle.std.specs.Prelude.{◌↔◌, IfOk, OnOk, Contains};
ghost use Rattle.pj_change.specs.declared.point.Point.{Point as APoint};
ghost use Rattle.pj_dead.specs.PointGraphs.{IsVertex, IsDead};
ghost use Rattle.pj_dead.specs.Searches.{GoesOn, Reaches, around as around_of};
ghost use Rattle.pj_dead.specs.Known.{AreKnown, dead_around};

use crate::found::{Found, with_points};
use crate::known::{Known, Neighbours, learn};
use crate::near::Way;
use crate::view::View;
use pj_change::{Memory, Point};
use std::alloc::Global;

/// The points found with the dead ones of some neighbours this way.
fn with_dead(neighbours: &Neighbours, way: Way, found: Found) -> Result<Found, Memory>
    ensures { IfOk result (λ more. GoesOn (Contains (dead_around way neighbours.now)) found more) }
{
    match way {
        Way::Ahead => with_points(found, &neighbours.outs.dead),
        Way::Back => with_points(found, &neighbours.ins.dead),
        Way::Either => {
            let more = with_points(found, &neighbours.outs.dead)?;
            let all = with_points(more, &neighbours.ins.dead)?;
            Ok(all)
        }
    }
}

/// The points found with the dead neighbours of a vertex this way.
fn with_near<V: View>(
    alloc: Global,
    view: &V,
    known: &mut Known,
    at: Point,
    way: Way,
    found: Found,
) -> Result<Found, Memory>
    requires vertex { IsVertex (V.graph view.now) at }
    requires known { AreKnown (V.graph view.now) known.old }
    ensures more { IfOk result (λ more. GoesOn (λ p. Contains (around_of (V.graph view.now) way at) p × IsDead (V.graph view.now) p) found more) }
    ensures known { OnOk result (AreKnown (V.graph view.now) known.new) }
{
    learn(alloc, view, known, at)?;
    let Some(neighbours) = known.of(at) else {
        return Ok(found);
    };
    let more = with_dead(neighbours, way, found)?;
    Ok(more)
}

/// The dead vertices to which paths over dead vertices lead this way from a dead vertex.
pub fn reached<V: View>(
    alloc: Global,
    view: &V,
    known: &mut Known,
    from: Point,
    way: Way,
) -> Result<Found, Memory>
    requires dead { IsDead (V.graph view.now) from }
    requires known { AreKnown (V.graph view.now) known.old }
    ensures reached { IfOk result (λ found. (v : APoint) → Contains found v ↔ Reaches (V.graph view.now) way from v) }
    ensures known { OnOk result (AreKnown (V.graph view.now) known.new) }
{
    let mut found = Found::new(alloc).with(from)?;
    let mut done = 0;
    while done < found.points().len() {
        let at = found.points()[done];
        found = with_near(alloc, view, known, at, way, found)?;
        done += 1;
    }
    Ok(found)
}
