//! The next row out of a place, and into a point, where rows with equal ends count once.

ghost use Rattle.std.specs.Prelude.{◌≡◌, ◌≢◌, MatchOption, Some, None};
ghost use Rattle.std.specs.declared.cmp.Ordering.TheVariants.{Greater};
ghost use Rattle.pj_name.specs.declared.name.Name.{Name as AName};
ghost use Rattle.pj_name.specs.Name.{name_cmp};
ghost use Rattle.pj_view.specs.Ends.{IsNoTarget, IsNextTarget, IsNoSource, IsNextSource};

use pj_change::{EdgeRow, Label, Place, Point};
use pj_edges::{IntoWalk, OutWalk};
use pj_name::Name;

/// What no name is above.
fn greatest_name() -> Name
    ensures { (n : AName) → name_cmp n result ≢ Greater }
{
    Name::of([255; 32])
}

/// The least target of the place.
fn least_target(walk: &mut OutWalk<'_>, source: Place) -> Option<Point>
    ensures same { walk.new ≡ walk.old }
    ensures next { MatchOption result (IsNoTarget walk.old source None) (λ target. IsNextTarget walk.old source None target) }
{
    let row = walk.next_out(source, None)?;
    Some(row.target)
}

/// The least target of the place above this point.
fn target_above(walk: &mut OutWalk<'_>, source: Place, after: Point) -> Option<Point>
    ensures same { walk.new ≡ walk.old }
    ensures next { MatchOption result (IsNoTarget walk.old source (Some after)) (λ target. IsNextTarget walk.old source (Some after) target) }
{
    let introducer = greatest_name();
    let last = EdgeRow {
        source,
        target: after,
        label: Label::Order,
        introducer,
    };
    let row = walk.next_out(source, Some(last))?;
    Some(row.target)
}

/// The least target above `after`, or the least of all for `None`, to which a row leads from the place. At most two searches, and no memory.
pub fn next_target(walk: &mut OutWalk<'_>, source: Place, after: Option<Point>) -> Option<Point>
    ensures same { walk.new ≡ walk.old }
    ensures next { MatchOption result (IsNoTarget walk.old source after) (λ target. IsNextTarget walk.old source after target) }
{
    match after {
        Some(point) => target_above(walk, source, point),
        None => least_target(walk, source),
    }
}

/// The least source of the point.
fn least_source(walk: &mut IntoWalk<'_>, target: Point) -> Option<Place>
    ensures same { walk.new ≡ walk.old }
    ensures next { MatchOption result (IsNoSource walk.old target None) (λ source. IsNextSource walk.old target None source) }
{
    let row = walk.next_into(target, None)?;
    Some(row.source)
}

/// The least source of the point above this place.
fn source_above(walk: &mut IntoWalk<'_>, target: Point, after: Place) -> Option<Place>
    ensures same { walk.new ≡ walk.old }
    ensures next { MatchOption result (IsNoSource walk.old target (Some after)) (λ source. IsNextSource walk.old target (Some after) source) }
{
    let introducer = greatest_name();
    let last = EdgeRow {
        source: after,
        target,
        label: Label::Order,
        introducer,
    };
    let row = walk.next_into(target, Some(last))?;
    Some(row.source)
}

/// The least source above `after`, or the least of all for `None`, from which a row leads to the point. At most two searches, and no memory.
pub fn next_source(walk: &mut IntoWalk<'_>, target: Point, after: Option<Place>) -> Option<Place>
    ensures same { walk.new ≡ walk.old }
    ensures next { MatchOption result (IsNoSource walk.old target after) (λ source. IsNextSource walk.old target after source) }
{
    match after {
        Some(place) => source_above(walk, target, place),
        None => least_source(walk, target),
    }
}
