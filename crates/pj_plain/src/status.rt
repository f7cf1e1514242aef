//! The status of a byte or a name.

ghost use Rattle.std.specs.Prelude.{◌≡◌};
ghost use Rattle.pj_change.specs.Shared.{records};
ghost use Rattle.pj_change.specs.Status as state;

use crate::contested::is_contested;
use crate::versions::{deletion_survives, life_survives};
use pj_change::{Point, Record, Status};
use std::sync::Arc;

/// The status of the point in the set of these changes. It takes no memory.
#[tactic(auto, unfolding(pj_change::specs::Status::status_of))]
pub fn status_of(changes: &[Arc<Record>], p: Point) -> Status
    ensures { result ≡ state.status_of (records changes.now) p }
{
    if !deletion_survives(changes, p) {
        Status::Alive
    } else if life_survives(changes, p) || is_contested(changes, p) {
        Status::Zombie
    } else {
        Status::Dead
    }
}
