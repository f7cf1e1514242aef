//! Which positions the hunks of a change take, and what stands at each.

ghost use Rattle.std.specs.Prelude.{◌≡◌, ◌+◌, ◌^◌, ◌<◌, ◌≤◌, ◌↔◌, length, slice_get, MatchOption, Some, None};
ghost use Rattle.pj_change.specs.Makers.{maker};
ghost use Rattle.pj_change.specs.Rules.{position_count};
ghost use Rattle.pj_change.specs.Positions as position;

use crate::change::Change;
use crate::hunk::Hunk;
use crate::kind::Kind;

/// The first position of a hunk, by its number, counted from 0; for the number of hunks, the number of positions.
pub fn place(change: &Change, hunk: u32) -> u32
    requires { hunk ≤ length change.now.hunks }
    ensures { result ≡ position.place change.now.hunks hunk }
{
    let mut first = 0;
    for hunk in &change.hunks.items()[..hunk as usize] {
        first += hunk.position_count() as u32;
    }
    first
}

/// What stands at a position, None exactly where the change has fewer positions.
pub fn kind_at(change: &Change, offset: u32) -> Option<Kind>
    ensures kind { result ≡ position.kind_at change.now.hunks offset }
    ensures past { (result ≡ None) ↔ (position.place change.now.hunks (length change.now.hunks) ≤ offset) }
{
    let mut first = 0;
    for (number, hunk) in change.hunks.items().iter().enumerate() {
        let count = hunk.position_count() as u32;
        if offset - first < count {
            return Some(kind_in(number as u32, first, hunk, offset - first));
        }
        first += count;
    }
    None
}

/// What stands at a position, and the hunk that made it; None exactly where the change has fewer positions.
pub fn made_at(change: &Change, offset: u32) -> Option<(Kind, &Hunk)>
    ensures { MatchOption result (position.kind_at change.now.hunks offset ≡ None) (λ made.
        (position.kind_at change.now.hunks offset ≡ Some made.0) × (slice_get change.now.hunks (maker made.0) ≡ Some made.1.now)) }
{
    let kind = kind_at(change, offset)?;
    Some((kind, &change.hunks.items()[kind.hunk() as usize]))
}

/// What stands at a distance into a hunk, by the hunk's number and its first position.
fn kind_in(number: u32, first: u32, hunk: &Hunk, at: u32) -> Kind
    requires { first + position_count hunk.now < 2 ^ 32 }
    ensures { result ≡ position.kind_in number first hunk.now at }
{
    match hunk {
        Hunk::File { .. } | Hunk::Dir { .. } if at == 0 => Kind::NameAt { hunk: number },
        Hunk::File { .. } => Kind::FileInode { hunk: number },
        Hunk::Dir { .. } => Kind::DirInode { hunk: number },
        Hunk::NameOf { .. } => Kind::NameAt { hunk: number },
        Hunk::Insert { .. } | Hunk::Order { .. } | Hunk::Delete { .. } | Hunk::Revive { .. } =>
            Kind::Text {
                hunk: number,
                start: first,
                end: first + hunk.position_count() as u32,
            },
    }
}
