//! What was asked of a view, kept so that nothing is asked twice.

ghost use Rattle.std.specs.Prelude.{◌≡◌, IfOk, OnOk, IsSome, IsTrue, option_copied, Contains};
ghost use Rattle.std.specs.BTreeMap.{get};
ghost use Rattle.pj_change.specs.declared.point.Point.{Point as APoint};
ghost use Rattle.pj_change.specs.Gathers.{Gathers};
ghost use Rattle.pj_change.specs.Graph.{point_cmp};
ghost use Rattle.pj_dead.specs.PointGraphs.{PointGraph, IsVertex};
ghost use Rattle.pj_dead.specs.Known.{AreSides, AreKnown};

use crate::view::View;
use pj_change::{Memory, Point};
use std::alloc::Global;
use std::collections::BTreeMap;

/// Vertices, the live ones apart from the dead ones.
#[derive(Drop)]
pub struct Sides {
    pub live: Vec<Point>,
    pub dead: Vec<Point>,
}

/// The neighbours of a vertex.
#[derive(Drop)]
pub struct Neighbours {
    /// Where the edges from it lead.
    pub outs: Sides,
    /// Where the edges to it come from.
    pub ins: Sides,
}

/// What is known of a view: the neighbours of some vertices, and whether some are dead.
#[derive(Drop)]
pub struct Known {
    pub neighbours: BTreeMap<Point, Neighbours>,
    pub dead: BTreeMap<Point, bool>,
}

impl Known {
    /// Nothing. It takes no memory.
    pub fn new(alloc: Global) -> Known
        ensures { (g : PointGraph) → AreKnown g result }
    {
        Known {
            neighbours: BTreeMap::new(alloc),
            dead: BTreeMap::new(alloc),
        }
    }

    /// The neighbours of a vertex, if they are known.
    pub fn of(&self, at: Point) -> Option<&Neighbours>
        ensures { option_copied result ≡ get point_cmp self.now.neighbours at }
    {
        self.neighbours.get(&at)
    }
}

/// Whether a vertex is dead.
pub fn is_dead<V: View>(view: &V, known: &mut Known, at: Point) -> Result<bool, Memory>
    requires vertex { IsVertex (V.graph view.now) at }
    requires known { AreKnown (V.graph view.now) known.old }
    ensures is { IfOk result (λ dead. dead ≡ (V.graph view.now).dead at) }
    ensures known { OnOk result (AreKnown (V.graph view.now) known.new) }
{
    if let Some(dead) = known.dead.get(&at) {
        return Ok(*dead);
    }
    let dead = view.dead(at);
    let _ = known.dead.insert(at, dead)?;
    Ok(dead)
}

/// Adds the point, if it is wanted.
pub fn add_if(list: &mut Vec<Point>, wanted: bool, point: Point) -> Result<(), Memory>
    ensures { OnOk result (Gathers (λ p. IsTrue wanted × (point ≡ p)) list.old.items list.new.items) }
{
    if !wanted {
        return Ok(());
    }
    list.push(point)?;
    Ok(())
}

/// The live ones and the dead ones of some vertices.
fn split<V: View>(
    alloc: Global,
    view: &V,
    known: &mut Known,
    points: &[Point],
) -> Result<Sides, Memory>
    requires vertices { (v : APoint) → Contains points.now v → IsVertex (V.graph view.now) v }
    requires known { AreKnown (V.graph view.now) known.old }
    ensures sides { IfOk result (AreSides (V.graph view.now) points.now) }
    ensures known { OnOk result (AreKnown (V.graph view.now) known.new) }
{
    let mut live = Vec::new(alloc);
    let mut dead = Vec::new(alloc);
    for point in points {
        let gone = is_dead(view, known, *point)?;
        add_if(&mut dead, gone, *point)?;
        add_if(&mut live, !gone, *point)?;
    }
    Ok(Sides { live, dead })
}

/// Asks for the neighbours of a vertex, unless they are known.
pub fn learn<V: View>(alloc: Global, view: &V, known: &mut Known, at: Point) -> Result<(), Memory>
    requires vertex { IsVertex (V.graph view.now) at }
    requires known { AreKnown (V.graph view.now) known.old }
    ensures known { OnOk result (AreKnown (V.graph view.now) known.new) }
    ensures there { OnOk result (IsSome (get point_cmp known.new.neighbours at)) }
{
    if known.neighbours.contains_key(&at) {
        return Ok(());
    }
    let after = view.outs(alloc, at)?;
    let outs = split(alloc, view, known, &after)?;
    let before = view.ins(alloc, at)?;
    let ins = split(alloc, view, known, &before)?;
    let _ = known.neighbours.insert(at, Neighbours { outs, ins })?;
    Ok(())
}
