//! Whether a change contests a deletion of another, by the range that is deleted.

ghost use Rattle.std.specs.Prelude.{◌≡◌, ◌∷◌, ◌&&◌, ◌⊎◌, Some, None, false, Contains, IfOk, IsTrue, MatchOption, filter, map, slice_get};
ghost use Rattle.std.specs.List.{list_any};
ghost use Rattle.pj_name.specs.Name.{same_name};
ghost use Rattle.pj_change.specs.Lawful.{is_held};
ghost use Rattle.pj_change.specs.Sets.{HaveDistinctNames};
ghost use Rattle.pj_change.specs.Contested as contest;
ghost use Rattle.pj_ranges.specs.declared.range.RangeAt.{RangeAt as RangeValue};
ghost use Rattle.pj_contest.specs.Contests as contests;
ghost use Rattle.pj_contest.specs.Contests.{IsFree};
ghost use Rattle.pj_contest.specs.Sought.{IsOfOne, KnowNoMore, is_worked_on};

use crate::owners::Owners;
use crate::strangers::is_stranger;
use pj_change::{Hunk, Peers, Record};
use pj_context::{deleted_at, has_contesting};
use pj_ranges::{HunkAt, RangeAt};
use pj_rows::Memory;
use std::alloc::Global;

/// The hunk of this number.
pub fn hunk_at(d: &Record, number: u32) -> Option<&Hunk>
    ensures { MatchOption result (slice_get d.now.change.hunks number ≡ None) (λ h. slice_get d.now.change.hunks number ≡ Some h.now) }
{
    match d.change.hunks.items().get(number as usize) {
        Some(hunk) => Some(hunk),
        None => None,
    }
}

/// Whether a hunk of `change` works on what is deleted where this range is.
fn works_on<P: Peers>(owners: &mut Owners<'_, P>, range: RangeAt, change: &Record) -> bool
    ensures same { owners.new ≡ owners.old }
    ensures works { result ≡ is_worked_on owners.old range change.now }
{
    match owners.get(range.owner) {
        None => false,
        Some(o) => has_contesting(
            change,
            o.name,
            range.start,
            range.end,
            deleted_at(o, range.start),
        ),
    }
}

/// Whether `change` contests the hunk by which this range is deleted.
fn is_hit<P: Peers>(
    deleters: &mut Owners<'_, P>,
    owners: &mut Owners<'_, P>,
    know_more: bool,
    range: RangeAt,
    change: &Record,
) -> bool
    requires same { deleters.old ≡ owners.old }
    requires one { IsOfOne (change.now ∷ owners.old) range }
    requires distinct { HaveDistinctNames owners.old }
    requires fresh { is_held owners.old change.now.name ≡ false }
    requires free { IsFree owners.old change.now }
    requires know_more { IsTrue know_more ⊎ KnowNoMore owners.old }
    ensures deleters { deleters.new ≡ deleters.old }
    ensures owners { owners.new ≡ owners.old }
    ensures hit { result ≡ contests.is_hit owners.old range.by change.now }
{
    is_stranger(deleters, know_more, change, range.by.change) && works_on(owners, range, change)
}

/// The hunks by which those of some ranges are deleted that `change` contests. A run of ranges of one change takes one look-up of it.
/// Unless `know_more`, no peer knows others beside its needs, and who deletes a range is not looked up; else once for a run of ranges by
/// one change.
pub fn hits_among<P: Peers>(
    alloc: Global,
    peers: &P,
    know_more: bool,
    change: &Record,
    ranges: &[RangeAt],
) -> Result<Vec<HunkAt>, Memory>
    requires one { (q : RangeValue) → Contains ranges.now q → IsOfOne (change.now ∷ P.records peers.now) q }
    requires fresh { is_held (P.records peers.now) change.now.name ≡ false }
    requires free { IsFree (P.records peers.now) change.now }
    requires know_more { IsTrue know_more ⊎ KnowNoMore (P.records peers.now) }
    ensures { IfOk result (λ v. v.items ≡ map (λ q. q.by) (filter (λ q. contests.is_hit (P.records peers.now) q.by change.now) ranges.now)) }
{
    let mut deleters = Owners::over(peers);
    let mut owners = Owners::over(peers);
    let mut hits = Vec::new(alloc);
    for range in ranges {
        if is_hit(&mut deleters, &mut owners, know_more, *range, change) {
            hits.push(range.by)?;
        }
    }
    Ok(hits)
}
