//! Which deletions are contested.

ghost use Rattle.std.specs.Prelude.{◌≡◌, ◌&&◌};
ghost use Rattle.pj_change.specs.Shared.{records};
ghost use Rattle.std.specs.List.{list_any};
ghost use Rattle.pj_name.specs.Name.{same_name};
ghost use Rattle.pj_change.specs.Covers as cover;
ghost use Rattle.pj_change.specs.Positions as position;
ghost use Rattle.pj_change.specs.Contested as contest;
ghost use Rattle.pj_change.specs.Status as state;

use crate::covers::covers;
use crate::versions::survives;
use pj_change::{Hunk, Point, Record};
use pj_context::{deleted_at, means, opposes};
use std::sync::Arc;

/// Whether a stranger to `d` contests the deletion of a range of `o`.
fn is_range_contested(changes: &[Arc<Record>], d: &Record, o: &Record, start: u32, end: u32) -> bool
    ensures { result ≡ contest.is_range_contested (records changes.now) d.now o.now start end }
{
    let deleted = deleted_at(o, start);
    changes
        .iter()
        .any(|i| opposes(i, d, o.name, start, end, deleted))
}

/// Whether a deletion by `d` is contested, of a range of the change that the number means.
fn is_deletion_contested(
    changes: &[Arc<Record>],
    d: &Record,
    owner: u32,
    start: u32,
    end: u32,
) -> bool
    ensures { result ≡ list_any (λ o. same_name o.name (position.numbered d.now owner) && contest.is_range_contested (records changes.now) d.now o start end) (records changes.now) }
{
    changes.iter().any(|o| means(d, owner, o.name) && is_range_contested(changes, d, o, start, end))
}

/// Whether the hunk of `d` is contested, which only a deletion is.
fn is_hunk_contested(changes: &[Arc<Record>], d: &Record, hunk: &Hunk) -> bool
    ensures { result ≡ contest.is_hunk_contested (records changes.now) d.now hunk.now }
{
    match hunk {
        Hunk::Delete {
            owner,
            start,
            end,
            ..
        } => is_deletion_contested(changes, d, *owner, *start, *end),
        _ => false,
    }
}

/// Whether a contested hunk of `d` covers the point.
fn has_contested(changes: &[Arc<Record>], d: &Record, p: Point) -> bool
    ensures { result ≡ list_any (λ h. cover.covers d.now h p && contest.is_hunk_contested (records changes.now) d.now h) d.now.change.hunks }
{
    d.change.hunks.items().iter().any(|hunk| covers(d, hunk, p)
        && is_hunk_contested(changes, d, hunk))
}

/// Whether a deleted version of the point survives whose hunk is contested.
pub fn is_contested(changes: &[Arc<Record>], p: Point) -> bool
    ensures { result ≡ state.is_contested (records changes.now) p }
{
    changes.iter().any(|d| has_contested(changes, d, p) && survives(changes, d.name, p))
}
