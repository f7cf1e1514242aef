//! A place as a key of the indexes.

ghost use Rattle.std.specs.Prelude.{◌≡◌};
ghost use Rattle.pj_contest.specs.Given as given;

use pj_change::{Place, Point};

/// A place as a key: None for the root.
pub fn key_of(at: Place) -> Option<Point>
    ensures { result ≡ given.key_of at }
{
    match at {
        Place::Root => None,
        Place::At(point) => Some(point),
    }
}
