//! What the numbers and the references of a change mean, whichever numbers they have.

ghost use Rattle.std.specs.Prelude.{◌≡◌};
ghost use Rattle.pj_name.specs.Name.{same_name};
ghost use Rattle.pj_change.specs.Positions.{numbered, resolve, same_place};
ghost use Rattle.pj_change.specs.Positions as position;
ghost use Rattle.pj_change.specs.Contested as contest;

use pj_change::{Place, Point, Record, Ref};
use pj_name::Name;

/// The name of the change that the number means: its own for 0, and of its k-th need for k.
/// No hunk has a greater number; the definitions take the change itself there, and so does this.
pub fn name_of(r: &Record, owner: u32) -> Name
    ensures { result ≡ numbered r.now owner }
{
    match owner.checked_sub(1) {
        None => r.name,
        Some(k) => *r.change.needs.items().get(k as usize).unwrap_or(&r.name),
    }
}

/// The place that a reference of the change means.
pub fn place_of(r: &Record, at: Ref) -> Place
    ensures { result ≡ resolve r.now at }
{
    match at {
        Ref::Root => Place::Root,
        Ref::At { owner, offset } => Place::At(Point {
            change: name_of(r, owner),
            offset,
        }),
    }
}

/// Whether the number means the change of this name.
pub fn means(r: &Record, owner: u32, name: Name) -> bool
    ensures { result ≡ same_name (numbered r.now owner) name }
{
    name_of(r, owner) == name
}

/// A position of the change itself.
pub fn own_point(r: &Record, offset: u32) -> Point
    ensures { result ≡ position.own_point r.now offset }
{
    Point {
        change: r.name,
        offset,
    }
}

/// Whether the reference of `r` means the place.
pub fn is_at(r: &Record, at: Ref, place: Place) -> bool
    ensures { result ≡ same_place (resolve r.now at) place }
{
    match (at, place) {
        (Ref::Root, Place::Root) => true,
        (Ref::At { owner, offset }, Place::At(p)) => offset == p.offset
            && means(r, owner, p.change),
        _ => false,
    }
}

/// Whether the reference of `r` means a position of the owner from `start` up to and without `end`.
pub fn is_within(r: &Record, at: Ref, owner: Name, start: u32, end: u32) -> bool
    ensures { result ≡ contest.is_place_within owner start end (resolve r.now at) }
{
    match at {
        Ref::Root => false,
        Ref::At {
            owner: number,
            offset,
        } => start <= offset && offset < end && means(r, number, owner),
    }
}
