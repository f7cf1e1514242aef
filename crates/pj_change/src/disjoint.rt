//! Whether the ranges that the hunks of a change delete or revive have no position in common.

ghost use Rattle.std.specs.Prelude.{◌≡◌, [], IsTrue};
ghost use Rattle.std.specs.List.{list_all};
ghost use Rattle.pj_change.specs.declared.hunk.Hunk.{Hunk as HunkValue};
ghost use Rattle.pj_change.specs.Rules.{apart, each_pair};
ghost use Rattle.pj_change.specs.Reach.{ends_by, begins_at};

use crate::hunk::Hunk;

/// A position of a need by which some ranges end.
#[derive(Clone, Copy)]
struct Reach {
    owner: u32,
    end: u32,
}

/// Whether no two hunks that delete or revive have a position in common.
///
/// Ranges in rising order take one pass. A range before an earlier one is compared with all that come before it.
#[tactic(auto, unfolding(crate::specs::Rules::each_pair))]
pub(crate) fn are_disjoint(hunks: &[Hunk]) -> bool
    ensures { result ≡ each_pair apart hunks.now }
{
    let mut reach = Reach { owner: 0, end: 0 };
    for (number, hunk) in hunks.iter().enumerate() {
        if !is_behind(reach, hunk) && !is_apart_from(&hunks[..number], hunk) {
            return false;
        }
        reach = reach_with(reach, hunk);
    }
    true
}

/// Whether the hunk has no range, or one that begins at the reach or behind it.
fn is_behind(reach: Reach, hunk: &Hunk) -> bool
    ensures { result ≡ begins_at reach.owner reach.end hunk.now }
{
    match hunk {
        Hunk::Delete { owner, start, .. } | Hunk::Revive { owner, start, .. } => {
            reach.owner < *owner || (reach.owner == *owner && reach.end <= *start)
        }
        _ => true,
    }
}

/// The reach, moved on to the end of the hunk's range where that is behind it.
fn reach_with(reach: Reach, hunk: &Hunk) -> Reach
    ensures hunk { IsTrue (ends_by result.owner result.end hunk.now) }
    ensures earlier { (g : HunkValue) → IsTrue (ends_by reach.owner reach.end g)
        → IsTrue (ends_by result.owner result.end g) }
{
    match hunk {
        Hunk::Delete { owner, end, .. } | Hunk::Revive { owner, end, .. } => {
            if reach.owner < *owner || (reach.owner == *owner && reach.end <= *end) {
                Reach {
                    owner: *owner,
                    end: *end,
                }
            } else {
                reach
            }
        }
        _ => reach,
    }
}

/// Whether the hunk has no position in common with any of these.
fn is_apart_from(hunks: &[Hunk], hunk: &Hunk) -> bool
    ensures { result ≡ list_all (λ g. apart g hunk.now) hunks.now }
{
    hunks.iter().all(|earlier| are_apart(earlier, hunk))
}

/// Whether two hunks that delete or revive have no position in common.
fn are_apart(hunk: &Hunk, other: &Hunk) -> bool
    ensures { result ≡ apart hunk.now other.now }
{
    match hunk {
        Hunk::Delete {
            owner,
            start,
            end,
            ..
        }
        | Hunk::Revive {
            owner,
            start,
            end,
            ..
        } => { is_outside(*owner, *start, *end, other) }
        _ => true,
    }
}

/// Whether the hunk does not delete or revive any of these positions of a need.
fn is_outside(owner: u32, start: u32, end: u32, hunk: &Hunk) -> bool
    ensures { result ≡ apart (Hunk.Delete owner start end []) hunk.now }
{
    match hunk {
        Hunk::Delete {
            owner: other,
            start: from,
            end: past,
            ..
        }
        | Hunk::Revive {
            owner: other,
            start: from,
            end: past,
            ..
        } => { owner != *other || end <= *from || *past <= start }
        _ => true,
    }
}
