//! What is asked of the graph whose pseudo rows are made.

ghost use Rattle.std.specs.Prelude.{◌≡◌, IfOk};
ghost use Rattle.pj_dead.specs.PointGraphs.{PointGraph, IsVertex, IsWhole};

use pj_change::{Memory, Point};
use std::alloc::Global;

/// A graph of text and of the inodes of files, in which each vertex is named by its first point.
///
/// The law is that edges lead from vertex to vertex, that neighbours rise, and that a vertex has the points from its first to its last.
pub trait View {
    ghost graph: { Self → PointGraph };

    /// Where the edges from a vertex lead, in order.
    fn outs(&self, alloc: Global, at: Point) -> Result<Vec<Point>, Memory>
        requires { IsVertex (graph self.now) at }
        ensures { IfOk result (λ list. list.items ≡ (graph self.now).outs at) };

    /// Where the edges to a vertex come from, in order.
    fn ins(&self, alloc: Global, at: Point) -> Result<Vec<Point>, Memory>
        requires { IsVertex (graph self.now) at }
        ensures { IfOk result (λ list. list.items ≡ (graph self.now).ins at) };

    /// The last point of a vertex.
    fn last(&self, at: Point) -> Point
        requires { IsVertex (graph self.now) at }
        ensures { result ≡ (graph self.now).last at };

    /// Whether a vertex is dead.
    fn dead(&self, at: Point) -> bool
        requires { IsVertex (graph self.now) at }
        ensures { result ≡ (graph self.now).dead at };

    /// The vertex that has a point, or `None` where none has it.
    fn first(&self, at: Point) -> Option<Point>
        ensures { result ≡ (graph self.now).first at };

    ghost lawful: { (view : Self) → IsWhole (graph view) };
}
