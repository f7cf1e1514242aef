//! Ranges of positions that are deleted or revived, and the changes that answer for them.

ghost use Rattle.std.specs.Prelude.{◌≡◌, ◌-◌, ◌<◌, ◌≤◌, length, All, IfSome, IfNone, false};
ghost use Rattle.std.specs.List.{list_all, range_with_len};
ghost use Rattle.pj_change.specs.Context as context;
ghost use Rattle.pj_change.specs.Covers.{covers, touches};
ghost use Rattle.pj_change.specs.Positions as position;
ghost use Rattle.pj_context.specs.Ranges.{CoversEach, TouchesEach};
ghost use Rattle.pj_context.specs.References.{RefersWithin};

use crate::scope::Scope;
use pj_change::{Hunk, Kind, Point, Record, Ref, numbered};
use pj_name::Name;

/// Whether the positions of a need lie within one block or are one name, and each change under `by` answers for them.
pub(crate) fn is_answered_for(
    scope: &Scope<'_>,
    owner: u32,
    start: u32,
    end: u32,
    by: &[u32],
) -> bool
    requires owner { owner ≤ length scope.now.itself.change.needs }
    requires nonempty { start < end }
    requires by { All (λ k. k ≤ length scope.now.itself.change.needs) by.now }
    ensures { result ≡ context.is_answered_for scope.now.itself scope.now.needs owner start end by.now }
{
    let first = Ref::At {
        owner,
        offset: start,
    };
    is_one(scope.kind(first), start, end) && are_answered(scope, owner, start, end, by)
}

/// Whether a range, at whose start this stands, lies within one block, or is one name.
fn is_one(kind: Option<Kind>, start: u32, end: u32) -> bool
    requires { start < end }
    ensures { result ≡ context.is_one kind start end }
{
    match kind {
        Some(Kind::Text { end: past, .. }) => end <= past,
        Some(Kind::NameAt { .. }) => end - start == 1,
        _ => false,
    }
}

/// Whether each change under `by` owns the positions of a need, or deletes or revives each of them.
fn are_answered(scope: &Scope<'_>, owner: u32, start: u32, end: u32, by: &[u32]) -> bool
    requires owner { owner ≤ length scope.now.itself.change.needs }
    requires by { All (λ k. k ≤ length scope.now.itself.change.needs) by.now }
    ensures { result ≡ list_all (λ k. context.answers_for (position.numbered scope.now.itself owner) start end
        (context.meant scope.now.itself scope.now.needs k)) by.now }
{
    by.iter().all(
        |number|
            requires owner { owner ≤ length scope.now.itself.change.needs }
            requires number { number.now ≤ length scope.now.itself.change.needs }
        { is_answered(scope, *number, owner, start, end) },
    )
}

/// Whether the change that a number means owns the positions of a need, or deletes or revives each of them.
fn is_answered(scope: &Scope<'_>, number: u32, owner: u32, start: u32, end: u32) -> bool
    requires number { number ≤ length scope.now.itself.change.needs }
    requires owner { owner ≤ length scope.now.itself.change.needs }
    ensures { result ≡ context.answers_for (position.numbered scope.now.itself owner) start end
        (context.meant scope.now.itself scope.now.needs number) }
{
    let by = scope.meant(number);
    let owner = scope.name(owner);
    by.name == owner || touches_each(by, owner, start, end)
}

/// Whether the change deletes or revives each position of the owner from `start` up to and without `end`.
///
/// It goes on at the end of each range that it meets, and so not from position to position.
fn touches_each(by: &Record, owner: Name, start: u32, end: u32) -> bool
    ensures { result ≡ list_all (λ offset. touches by.now (record { change = owner; offset = offset })) (range_with_len start (end - start)) }
{
    let mut at = start;
    while at < end {
        let point = Point {
            change: owner,
            offset: at,
        };
        match end_of_cover(by, point) {
            Some(past) => at = past,
            None => return false,
        }
    }
    true
}

/// Where a range ends that the change deletes or revives and that has the point in it, None where it leaves the point alone.
fn end_of_cover(by: &Record, point: Point) -> Option<u32>
    ensures behind { IfSome result (λ end. point.offset < end) }
    ensures covered { IfSome result (λ end. TouchesEach by.now point.change point.offset end) }
    ensures none { IfNone result (touches by.now point ≡ false) }
{
    for hunk in by.change.hunks.items() {
        if let Some(end) = end_covering(by, hunk, point) {
            return Some(end);
        }
    }
    None
}

/// The end of the hunk's range, if the point lies in it.
fn end_covering(by: &Record, hunk: &Hunk, point: Point) -> Option<u32>
    requires { RefersWithin (length by.now.change.needs) hunk.now }
    ensures behind { IfSome result (λ end. point.offset < end) }
    ensures covered { IfSome result (λ end. CoversEach by.now hunk.now point.change point.offset end) }
    ensures none { IfNone result (covers by.now hunk.now point ≡ false) }
{
    match hunk {
        Hunk::Delete {
            owner,
            start,
            end,
            ..
        }
        | Hunk::Revive {
            owner,
            start,
            end,
            ..
        } if *start <= point.offset
            && point.offset < *end
            && numbered(by, *owner) == point.change => { Some(*end) }
        _ => None,
    }
}
