//! The vertices and edges of a graph, and what they say of points.

ghost use Rattle.std.specs.Prelude.{◌≡◌};
ghost use Rattle.test_tables.specs.ListedGraphs as table;

use pj_change::Point;

/// A vertex: its points from the first to the last, and whether it is dead.
#[derive(Clone, Copy)]
pub struct Shape {
    pub first: Point,
    pub last: Point,
    pub dead: bool,
}

/// An edge from vertex to vertex, each by its first point.
#[derive(Clone, Copy)]
pub struct Arrow {
    pub from: Point,
    pub to: Point,
}

/// Whether the vertex has the point.
pub fn has(shape: &Shape, point: Point) -> bool
    ensures { result ≡ table.has point shape.now }
{
    point.change == shape.first.change
        && shape.first.offset <= point.offset
        && point.offset <= shape.last.offset
}

/// Whether the edge leads from the one point to the other.
fn joins(arrow: &Arrow, from: Point, to: Point) -> bool
    ensures { result ≡ table.joins from to arrow.now }
{
    arrow.from == from && arrow.to == to
}

/// Whether some edge does.
pub fn leads(arrows: &[Arrow], from: Point, to: Point) -> bool
    ensures { result ≡ table.leads arrows.now from to }
{
    for arrow in arrows {
        if joins(arrow, from, to) {
            return true;
        }
    }
    false
}

/// The vertex that has the point.
pub fn shape_of(shapes: &[Shape], point: Point) -> Option<Shape>
    ensures { result ≡ table.shape_of point shapes.now }
{
    for shape in shapes {
        if has(shape, point) {
            return Some(*shape);
        }
    }
    None
}
