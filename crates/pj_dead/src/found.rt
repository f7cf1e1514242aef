//! The points that a search has found, each kept once.

ghost use Rattle.std.specs.Prelude.{◌≡◌, ◌↔◌, ◌≢◌, [], IfOk, MatchOption, IsTrue, Contains};
ghost use Rattle.std.specs.declared.cmp.Ordering.TheVariants.{Less};
ghost use Rattle.pj_change.specs.declared.point.Point.{Point as APoint};
ghost use Rattle.pj_change.specs.Graph.{point_cmp};
ghost use Rattle.pj_dead.specs.Searches.{GoesOn};

use pj_change::{Memory, Point};
use std::alloc::Global;
use std::collections::BTreeSet;
use std::marker::Model;

/// Points in the order in which they were found, each once. It is known at once whether one was found.
#[derive(Drop)]
pub struct Found {
    list: Vec<Point>,
    seen: BTreeSet<Point>,
}

impl Model for Found {
    ghost use Rattle.std.specs.Prelude.{List};
    ghost use Rattle.pj_change.specs.declared.point.Point.{Point};
    ghost use Rattle.pj_dead.specs.Searches.{AreSeen};

    ghost Value = { List Point };

    ghost view = { λ f. f.list.items };

    ghost invariant = { λ f. AreSeen f.list.items f.seen };
}

impl Found {
    /// No point. It takes no memory.
    pub fn new(alloc: Global) -> Found
        ensures { result ≡ [] }
    {
        Found {
            list: Vec::new(alloc),
            seen: BTreeSet::new(alloc),
        }
    }

    /// Whether the point was found.
    pub fn has(&self, point: Point) -> bool
        ensures { IsTrue result ↔ Contains self.now point }
    {
        self.seen.contains(&point)
    }

    /// The points with this one, behind the others if it is new.
    pub fn with(mut self, point: Point) -> Result<Found, Memory>
        ensures { IfOk result (λ found. GoesOn (λ p. point ≡ p) self found) }
    {
        if !self.seen.insert(point)? {
            return Ok(self);
        }
        self.list.push(point)?;
        Ok(self)
    }

    /// The points in the order in which they were found.
    pub fn points(&self) -> &[Point]
        ensures { result.now ≡ self.now }
    {
        &self.list
    }

    /// The points as a list, in that order.
    pub fn into_points(self) -> Vec<Point>
        ensures { result.items ≡ self }
    {
        let Found { list, seen: _ } = self;
        list
    }

    /// The least point.
    pub fn least(&self) -> Option<Point>
        ensures { MatchOption result (self.now ≡ []) (λ least. Contains self.now least × ((p : APoint) → Contains self.now p → point_cmp p least ≢ Less)) }
    {
        match self.seen.first() {
            Some(least) => Some(*least),
            None => None,
        }
    }
}

/// The points found with all of these.
pub fn with_points(mut found: Found, points: &[Point]) -> Result<Found, Memory>
    ensures { IfOk result (λ more. GoesOn (Contains points.now) found more) }
{
    for point in points {
        found = found.with(*point)?;
    }
    Ok(found)
}

/// The points of a list, each once.
pub fn distinct(alloc: Global, points: &[Point]) -> Result<Found, Memory>
    ensures { IfOk result (λ found. (p : APoint) → Contains found p ↔ Contains points.now p) }
{
    let found = with_points(Found::new(alloc), points)?;
    Ok(found)
}
