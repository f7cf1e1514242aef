//! Positions that stand together, and which of them a hunk deletes or revives.

ghost use Rattle.std.specs.Prelude.{◌≡◌, Contains};
ghost use Rattle.pj_change.specs.declared.point.Point.{Point as PointValue};
ghost use Rattle.pj_change.specs.Covers.{covers};
ghost use Rattle.pj_view.specs.Stretches.{is_in_some};

use pj_change::{Hunk, Record, numbered};
use pj_name::Name;

/// The positions of a change from `start` up to and without `end`.
#[derive(Clone, Copy, PartialEq, Eq, PartialOrd, Ord)]
pub struct Stretch {
    pub change: Name,
    pub start: u32,
    pub end: u32,
}

/// What the hunk deletes or revives.
pub fn covered(record: &Record, hunk: &Hunk) -> Option<Stretch>
    requires { Contains «record».now.change.hunks hunk.now }
    ensures { (p : PointValue) → covers «record».now hunk.now p ≡ is_in_some result p }
{
    match hunk {
        Hunk::Delete {
            owner,
            start,
            end,
            ..
        } => Some(Stretch {
            change: numbered(record, *owner),
            start: *start,
            end: *end,
        }),
        Hunk::Revive {
            owner,
            start,
            end,
            ..
        } => Some(Stretch {
            change: numbered(record, *owner),
            start: *start,
            end: *end,
        }),
        Hunk::File { .. }
        | Hunk::Dir { .. }
        | Hunk::NameOf { .. }
        | Hunk::Insert { .. }
        | Hunk::Order { .. } => None,
    }
}
