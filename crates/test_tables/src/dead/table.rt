//! Graphs by lists of their vertices and edges, as views.

ghost use Rattle.std.specs.Prelude.{◌≡◌, ◌++◌, ◌∷◌, ℕ, [], cond, IsTrue, OnOk, ◌<◌, length, get_or};
ghost use Rattle.test_tables.specs.declared.dead.shape.Shape.{Shape as AShape};
ghost use Rattle.test_tables.specs.ListedGraphs as table;

use crate::dead::shape::{Arrow, Shape, leads, shape_of};
use pj_change::Point;
use pj_dead::{Memory, View};
use std::alloc::Global;
use std::cmp::Ordering;

/// Whether the points of the vertex are of one change, the first not behind the last.
fn is_shape(shape: &Shape) -> bool
    ensures { result ≡ table.is_shape shape.now }
{
    shape.last.change == shape.first.change && shape.first.offset <= shape.last.offset
}

/// Whether the one vertex ends before the other begins.
fn is_before(one: &Shape, other: &Shape) -> bool
    ensures { IsTrue result → table.IsBefore one.now other.now }
{
    match one.last.cmp(&other.first) {
        Ordering::Less => true,
        Ordering::Equal => false,
        Ordering::Greater => false,
    }
}

/// Whether this one ends before each one behind it begins.
fn is_before_others(shapes: &[Shape], one: usize) -> bool
    requires { one < length shapes.now }
    ensures { IsTrue result → (j : ℕ) → (d : AShape) → one < j → j < length shapes.now → table.IsBefore (get_or shapes.now one d) (get_or shapes.now j d) }
{
    for other in one + 1..shapes.len() {
        if !is_before(&shapes[one], &shapes[other]) {
            return false;
        }
    }
    true
}

/// Whether each is a vertex, and ends before each one behind it begins.
pub fn are_apart(shapes: &[Shape]) -> bool
    ensures { IsTrue result → table.AreApart shapes.now }
{
    for one in 0..shapes.len() {
        if !is_shape(&shapes[one]) {
            return false;
        }
        if !is_before_others(shapes, one) {
            return false;
        }
    }
    true
}

/// Adds the point, if it is wanted.
fn add_wanted(list: &mut Vec<Point>, wanted: bool, point: Point) -> Result<(), Memory>
    ensures { OnOk result (list.new.items ≡ list.old.items ++ cond wanted (point ∷ []) []) }
{
    if !wanted {
        return Ok(());
    }
    list.push(point)?;
    Ok(())
}

/// A graph by its vertices in order, and its edges. An edge that joins no vertices is none.
#[derive(Drop)]
pub struct Table {
    pub shapes: Vec<Shape>,
    pub arrows: Vec<Arrow>,
    pub ghost apart: { table.AreApart shapes.items },
}

impl Table {
    /// No vertex.
    pub fn none(alloc: Global) -> Table
        ensures shapes { result.shapes.items ≡ [] }
        ensures arrows { result.arrows.items ≡ [] }
    {
        Table {
            shapes: Vec::new(alloc),
            arrows: Vec::new(alloc),
        }
    }

    /// The graph, if its vertices are in order.
    pub fn of(shapes: Vec<Shape>, arrows: Vec<Arrow>) -> Option<Table> {
        if !are_apart(&shapes) {
            return None;
        }
        Some(Table { shapes, arrows })
    }
}

impl View for Table {
    ghost use Rattle.test_tables.specs.ListedGraphs.{graph_of};
    ghost use Rattle.test_tables.specs.Whole.{graph_is_whole};

    ghost graph = { λ t. graph_of t.shapes.items t.arrows.items };

    ghost lawful = { λ t. graph_is_whole t.shapes.items t.arrows.items t.apart };

    fn outs(&self, alloc: Global, at: Point) -> Result<Vec<Point>, Memory> {
        let mut list = Vec::new(alloc);
        for shape in &self.shapes {
            let wanted = leads(&self.arrows, at, shape.first);
            add_wanted(&mut list, wanted, shape.first)?;
        }
        Ok(list)
    }

    fn ins(&self, alloc: Global, at: Point) -> Result<Vec<Point>, Memory> {
        let mut list = Vec::new(alloc);
        for shape in &self.shapes {
            let wanted = leads(&self.arrows, shape.first, at);
            add_wanted(&mut list, wanted, shape.first)?;
        }
        Ok(list)
    }

    fn last(&self, at: Point) -> Point {
        match shape_of(&self.shapes, at) {
            Some(shape) => shape.last,
            None => at,
        }
    }

    fn dead(&self, at: Point) -> bool {
        match shape_of(&self.shapes, at) {
            Some(shape) => shape.dead,
            None => false,
        }
    }

    fn first(&self, at: Point) -> Option<Point> {
        match shape_of(&self.shapes, at) {
            Some(shape) => Some(shape.first),
            None => None,
        }
    }
}
