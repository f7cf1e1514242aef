//! Which positions the hunks of a change delete or revive.

ghost use Rattle.std.specs.Prelude.{◌≡◌};
ghost use Rattle.pj_change.specs.Covers as cover;

use pj_change::{Hunk, Point, Record};
use pj_context::means;

/// Whether the hunk of `d` deletes or revives the point.
pub fn covers(d: &Record, hunk: &Hunk, p: Point) -> bool
    ensures { result ≡ cover.covers d.now hunk.now p }
{
    match hunk {
        Hunk::Delete {
            owner,
            start,
            end,
            ..
        }
        | Hunk::Revive {
            owner,
            start,
            end,
            ..
        } => *start <= p.offset && p.offset < *end && means(d, *owner, p.change),
        _ => false,
    }
}

/// Whether the change of `d` deletes the point.
pub fn deletes(d: &Record, p: Point) -> bool
    ensures { result ≡ cover.deletes d.now p }
{
    d.change.hunks.items().iter().any(|hunk| matches!(hunk, Hunk::Delete { .. })
        && covers(d, hunk, p))
}

/// Whether the change of `d` revives the point.
pub fn revives(d: &Record, p: Point) -> bool
    ensures { result ≡ cover.revives d.now p }
{
    d.change.hunks.items().iter().any(|hunk| matches!(hunk, Hunk::Revive { .. })
        && covers(d, hunk, p))
}
