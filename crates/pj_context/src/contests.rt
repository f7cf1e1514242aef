//! Whether one change contests a deletion by another.

ghost use Rattle.std.specs.Prelude.{◌≡◌, ◌+◌, ◌<◌, ◌^◌};
ghost use Rattle.std.specs.List.{list_any};
ghost use Rattle.pj_change.specs.Positions as position;
ghost use Rattle.pj_change.specs.Contested as contest;

use crate::references::{is_at, is_within, own_point, place_of};
use pj_change::{Deleted, Hunk, Kind, Place, Record, Ref, knows, made_at};
use pj_name::Name;

/// Whether neither of two changes lists the other.
pub fn are_strangers(c: &Record, d: &Record) -> bool
    ensures { result ≡ contest.are_strangers c.now d.now }
{
    c.name != d.name && !knows(c, d.name) && !knows(d, c.name)
}

/// Whether the hunk of `i` inserts after a position of the owner from `start` up to and without `end`.
fn inserts_after(i: &Record, owner: Name, start: u32, end: u32, hunk: &Hunk) -> bool
    ensures { result ≡ contest.inserts_after i.now owner start end hunk.now }
{
    match hunk {
        Hunk::Insert { ups, .. } => ups
            .items()
            .iter()
            .any(|up| is_within(i, *up, owner, start, end)),
        _ => false,
    }
}

/// The file or the parent of the hunk.
pub fn base_of(hunk: &Hunk) -> Option<Ref>
    ensures { result ≡ contest.base_of hunk.now }
{
    match hunk {
        Hunk::File { parent, .. } | Hunk::Dir { parent, .. } | Hunk::NameOf { parent, .. } => Some(
            *parent,
        ),
        Hunk::Insert { file, .. } | Hunk::Order { file, .. } => Some(*file),
        Hunk::Delete { .. } | Hunk::Revive { .. } => None,
    }
}

/// Whether the file or the parent of the hunk of `i` is this place.
fn builds_on(i: &Record, at: Place, hunk: &Hunk) -> bool
    ensures { result ≡ contest.builds_on i.now at hunk.now }
{
    match base_of(hunk) {
        Some(base) => is_at(i, base, at),
        None => false,
    }
}

/// The child of the name that the hunk of `o` makes at its first position.
pub fn child_of(o: &Record, first: u32, hunk: &Hunk) -> Option<Place>
    requires { first + 1 < 2 ^ 32 }
    ensures { result ≡ position.child_of o.now first hunk.now }
{
    match hunk {
        Hunk::File { .. } | Hunk::Dir { .. } => Some(Place::At(own_point(o, first + 1))),
        Hunk::NameOf { child, .. } => Some(place_of(o, *child)),
        _ => None,
    }
}

/// What a deletion deletes at a position of `o`.
pub fn deleted_at(o: &Record, offset: u32) -> Option<Deleted>
    ensures { result ≡ contest.deleted_at o.now offset }
{
    match made_at(&o.change, offset) {
        Some((Kind::Text { .. }, _)) => Some(Deleted::Text),
        Some((Kind::NameAt { .. }, hunk)) => child_of(o, offset, hunk).map(Deleted::NameOf),
        _ => None,
    }
}

/// Whether the hunk of `i` contests the deletion of a range of the owner.
fn contests(
    i: &Record,
    owner: Name,
    start: u32,
    end: u32,
    deleted: Option<Deleted>,
    hunk: &Hunk,
) -> bool
    ensures { result ≡ contest.contests i.now owner start end deleted hunk.now }
{
    match deleted {
        Some(Deleted::Text) => inserts_after(i, owner, start, end, hunk),
        Some(Deleted::NameOf(child)) => builds_on(i, child, hunk),
        None => false,
    }
}

/// Whether a hunk of `i` contests the deletion of a range of the owner, where this is what is deleted.
pub fn has_contesting(
    i: &Record,
    owner: Name,
    start: u32,
    end: u32,
    deleted: Option<Deleted>,
) -> bool
    ensures { result ≡ list_any (contest.contests i.now owner start end deleted) i.now.change.hunks }
{
    i.change
        .hunks
        .items()
        .iter()
        .any(|hunk| contests(i, owner, start, end, deleted, hunk))
}

/// Whether `i` is a stranger to `d`, and a hunk of it contests such a deletion.
#[tactic(auto, unfolding(pj_change::specs::Contested::opposes))]
pub fn opposes(
    i: &Record,
    d: &Record,
    owner: Name,
    start: u32,
    end: u32,
    deleted: Option<Deleted>,
) -> bool
    ensures { result ≡ contest.opposes i.now d.now owner start end deleted }
{
    are_strangers(i, d) && has_contesting(i, owner, start, end, deleted)
}
