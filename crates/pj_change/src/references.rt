//! What the numbers and the references of a record mean, and which changes it lists.

ghost use Rattle.std.specs.Prelude.{◌≡◌, ◌≤◌, length};
ghost use Rattle.pj_change.specs.Positions.{IsNumbered};
ghost use Rattle.pj_change.specs.Positions as position;
ghost use Rattle.pj_change.specs.Parts as listed;

use crate::change::Record;
use crate::point::{Place, Point, Ref};
use pj_name::Name;

/// The name of the record's change itself for 0, and of its k-th need for k.
pub fn numbered(record: &Record, owner: u32) -> Name
    requires { owner ≤ length «record».now.change.needs }
    ensures { result ≡ position.numbered «record».now owner }
{
    if owner == 0 {
        record.name
    } else {
        record.change.needs.items()[owner as usize - 1]
    }
}

/// The place that a reference of the record's change means.
pub fn resolve(record: &Record, at: Ref) -> Place
    requires { IsNumbered (length «record».now.change.needs) at }
    ensures { result ≡ position.resolve «record».now at }
{
    match at {
        Ref::Root => Place::Root,
        Ref::At { owner, offset } => Place::At(Point {
            change: numbered(record, owner),
            offset,
        }),
    }
}

/// Whether the record's change lists the other one, as a need or as one that it knows.
pub fn knows(record: &Record, other: Name) -> bool
    ensures { result ≡ listed.knows «record».now other }
{
    let change = &record.change;
    change.needs.items().contains(&other) || change.knows.items().contains(&other)
}
