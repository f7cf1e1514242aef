//! The views whose rows are timed: graphs of numbered vertices, of which at most three are live.

ghost use Rattle.std.specs.Prelude.{◌≡◌, ◌≤◌, ◌+◌, IfOk};
ghost use Rattle.std.specs.List.{filter};
ghost use Rattle.bench.specs.Boards as board;

use crate::dead::shape::Shape;
use pj_change::Point;
use pj_dead::{Memory, View};
use pj_name::Name;
use std::alloc::Global;

/// The number of the first vertex. It is even and begins a row of three, and each vertex has three numbers before it.
pub const FIRST: u32 = 6;

/// The largest dead set.
pub const LARGEST: u32 = 1_000_000;

/// The point of a number.
pub fn point_at(number: u32) -> Point
    ensures { result ≡ board.point_at number }
{
    Point {
        change: Name::least(),
        offset: number,
    }
}

/// The point that is so far ahead.
fn ahead(at: Point, by: u32) -> Point
    requires at { at.offset ≤ 3000000 }
    requires by { by ≤ 3 }
    ensures { result ≡ board.ahead at by }
{
    Point {
        change: at.change,
        offset: at.offset + by,
    }
}

/// The point that is so far behind.
fn behind(at: Point, by: u32) -> Point
    requires { by ≤ at.offset }
    ensures { result ≡ board.behind at by }
{
    Point {
        change: at.change,
        offset: at.offset - by,
    }
}

/// A graph of numbered vertices, each of one point. The first one, the last one and one in the middle are live.
#[derive(Drop)]
pub struct Board {
    shape: Shape,
    middle: u32,
    pub last: u32,
    ghost small: { last ≤ 3000000 },
}

impl Board {
    /// No vertex.
    pub fn none() -> Board
        ensures { result.last ≡ 0 }
    {
        Board {
            shape: Shape::Chain,
            middle: 0,
            last: 0,
        }
    }

    /// A dead set of the size between two live vertices, and one more behind it if the other size is not 0. The live vertex
    /// between them parts them only in a chain.
    pub fn of(shape: Shape, size: u32, other: u32) -> Board
        requires size { size ≤ 1000000 }
        requires other { other ≤ 1000000 }
    {
        let middle = FIRST + size + 1;
        let behind = if other == 0 { 0 } else { other + 1 };
        let last = middle + behind;
        Board {
            shape,
            middle,
            last,
        }
    }

    /// A point in the middle of the first dead set.
    pub fn touched(&self) -> Point {
        point_at(FIRST + self.middle.saturating_sub(FIRST) / 2)
    }

    /// All points up to the last one.
    pub fn points(&self, alloc: Global) -> Result<Vec<Point>, Memory>
        ensures { IfOk result (λ points. points.items ≡ board.points_below (self.now.last + 1)) }
    {
        let mut points = Vec::new(alloc);
        for number in 0..self.last + 1 {
            points.push(point_at(number))?;
        }
        Ok(points)
    }

    /// Whether the number is one of a vertex.
    fn has(&self, number: u32) -> bool
        ensures { result ≡ board.has self.now.last number }
    {
        FIRST <= number && number <= self.last
    }

    /// Whether an edge leads from the one point to the other, which are of one change.
    fn leads(&self, from: Point, to: Point) -> bool
        ensures { result ≡ board.leads self.now.shape self.now.last from.offset to.offset }
    {
        self.has(from.offset)
            && self.has(to.offset)
            && self
                .shape
                .joins(from.offset, to.offset.saturating_sub(from.offset))
    }

    /// Those of the points to which an edge leads.
    fn targets(&self, alloc: Global, from: Point, points: &[Point]) -> Result<Vec<Point>, Memory>
        ensures { IfOk result (λ list. list.items ≡ filter (λ to. board.leads self.now.shape self.now.last from.offset to.offset) points.now) }
    {
        let list = points
            .iter()
            .copied()
            .filter(|to| self.leads(from, *to))
            .collect(alloc)?;
        Ok(list)
    }

    /// Those of the points from which an edge leads.
    fn sources(&self, alloc: Global, to: Point, points: &[Point]) -> Result<Vec<Point>, Memory>
        ensures { IfOk result (λ list. list.items ≡ filter (λ from. board.leads self.now.shape self.now.last from.offset to.offset) points.now) }
    {
        let list = points
            .iter()
            .copied()
            .filter(|from| self.leads(*from, to))
            .collect(alloc)?;
        Ok(list)
    }
}

impl View for Board {
    ghost use Rattle.bench.specs.Boards.{graph_of};
    ghost use Rattle.bench.specs.Whole.{graph_is_whole};

    ghost graph = { λ b. graph_of b.shape b.middle b.last };

    ghost lawful = { λ b. graph_is_whole b.shape b.middle b.last };

    fn outs(&self, alloc: Global, at: Point) -> Result<Vec<Point>, Memory> {
        let points = [ahead(at, 1), ahead(at, 2), ahead(at, 3)];
        self.targets(alloc, at, &points)
    }

    fn ins(&self, alloc: Global, at: Point) -> Result<Vec<Point>, Memory> {
        let points = [behind(at, 3), behind(at, 2), behind(at, 1)];
        self.sources(alloc, at, &points)
    }

    fn last(&self, at: Point) -> Point {
        at
    }

    fn dead(&self, at: Point) -> bool {
        !(at.offset == FIRST || at.offset == self.middle || at.offset == self.last)
    }

    fn first(&self, at: Point) -> Option<Point> {
        if at.change == Name::least() && self.has(at.offset) {
            Some(at)
        } else {
            None
        }
    }
}
