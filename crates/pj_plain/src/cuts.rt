//! Where the changes of a set cut its blocks.

ghost use Rattle.std.specs.Prelude.{◌≡◌};
ghost use Rattle.pj_change.specs.Shared.{records};
ghost use Rattle.std.specs.List.{list_any};
ghost use Rattle.pj_change.specs.declared.point.Place.TheVariants as placed;
ghost use Rattle.pj_change.specs.Positions.{resolve};
ghost use Rattle.pj_change.specs.Vertices as vertex;

use pj_change::{Hunk, Place, Point, Record, Ref};
use pj_context::{is_at, means};
use std::sync::Arc;

/// Whether the reference of `r` means the point just before this one.
fn is_just_before(r: &Record, at: Ref, p: Point) -> bool
    ensures { result ≡ vertex.is_just_before p (resolve r.now at) }
{
    match at {
        Ref::Root => false,
        Ref::At { owner, offset } => u64::from(offset) + 1 == u64::from(p.offset)
            && means(r, owner, p.change),
    }
}

/// Whether one of the references of `r` means the point just before this one.
fn is_after_one(r: &Record, ups: &[Ref], p: Point) -> bool
    ensures { result ≡ list_any (λ up. vertex.is_just_before p (resolve r.now up)) ups.now }
{
    ups.iter().any(|up| is_just_before(r, *up, p))
}

/// Whether one of the references of `r` means the point.
fn is_one(r: &Record, downs: &[Ref], p: Point) -> bool
    ensures { result ≡ list_any (λ down. vertex.is_at p (resolve r.now down)) downs.now }
{
    downs.iter().any(|down| is_at(r, *down, Place::At(p)))
}

/// Whether an end of the range of the change that the number means is just before the point.
fn is_end(r: &Record, owner: u32, start: u32, end: u32, p: Point) -> bool
    ensures { result ≡ vertex.is_end r.now owner start end p }
{
    (start == p.offset || end == p.offset) && means(r, owner, p.change)
}

/// Whether the hunk of `r` cuts before the point.
fn cuts(r: &Record, p: Point, hunk: &Hunk) -> bool
    ensures { result ≡ vertex.cuts r.now p hunk.now }
{
    match hunk {
        Hunk::Insert { ups, downs, .. } => is_after_one(r, ups.items(), p)
            || is_one(r, downs.items(), p),
        Hunk::Order { source, target, .. } => is_just_before(r, *source, p)
            || is_at(r, *target, Place::At(p)),
        Hunk::Delete {
            owner,
            start,
            end,
            ..
        }
        | Hunk::Revive {
            owner,
            start,
            end,
            ..
        } => is_end(r, *owner, *start, *end, p),
        Hunk::File { .. } | Hunk::Dir { .. } | Hunk::NameOf { .. } => false,
    }
}

/// Whether a hunk of `r` cuts before the point.
fn has_cut(r: &Record, p: Point) -> bool
    ensures { result ≡ list_any (vertex.cuts r.now p) r.now.change.hunks }
{
    r.change.hunks.items().iter().any(|hunk| cuts(r, p, hunk))
}

/// Whether a change cuts before the point. It takes no memory.
pub fn is_cut(changes: &[Arc<Record>], p: Point) -> bool
    ensures { result ≡ vertex.is_cut (records changes.now) p }
{
    changes.iter().any(|r| has_cut(r, p))
}
