//! The counts of a change's own hunks.

ghost use Rattle.std.specs.Prelude.{◌≡◌, ℕ, ◌+◌, ◌≤◌, ◌⊎◌, false, IfOk, IsTrue, Some, cond, count_by, length};
ghost use Rattle.std.specs.Ordering.{is_eq};
ghost use Rattle.pj_name.specs.Name.{same_name};
ghost use Rattle.pj_change.specs.Lawful.{is_held};
ghost use Rattle.pj_change.specs.ContestCounts.{is_contested_by};
ghost use Rattle.pj_ranges.specs.declared.range.HunkAt.{HunkAt as HunkValue};
ghost use Rattle.pj_ranges.specs.Units.{hunk_cmp};
ghost use Rattle.pj_rows.specs.Keys.{AllCounted, number_at};
ghost use Rattle.pj_contest.specs.Contests.{AreRowsOf, IsFree, own_count};
ghost use Rattle.pj_contest.specs.Sought.{KnowNoMore};

use crate::indexes::Indexes;
use crate::owners::Owners;
use crate::rivals::rivals;
use pj_change::{Hunk, Peers, Record};
use pj_pmap::{PMap, Steps};
use pj_ranges::HunkAt;
use pj_rows::{Count, Memory};
use std::alloc::Global;
use std::sync::ledger::Ledger;

/// The counts with that of a hunk of the change, by its number. At most one step.
fn with_own_hunk<P: Peers, L: Ledger>(
    alloc: Global,
    indexes: &Indexes,
    counts: PMap<HunkAt, Count>,
    owners: &mut Owners<'_, P>,
    know_more: bool,
    record: &Record,
    number: u32,
    hunk: &Hunk,
    steps: &mut Steps<L>,
) -> Result<PMap<HunkAt, Count>, Memory>
    requires rows { AreRowsOf owners.old indexes.now }
    requires none { number_at hunk_cmp (record { change = «record».now.name; hunk = number }) counts ≡ 0 }
    requires counted { AllCounted hunk_cmp counts }
    requires fresh { is_held owners.old «record».now.name ≡ false }
    requires free { IsFree owners.old «record».now }
    requires know_more { IsTrue know_more ⊎ KnowNoMore owners.old }
    ensures same { owners.new ≡ owners.old }
    ensures counts { IfOk result (λ m. (x : HunkValue) → number_at hunk_cmp x m ≡ cond (is_eq (hunk_cmp x (record { change = «record».now.name; hunk = number }))) (count_by (is_contested_by owners.old «record».now hunk.now) owners.old) (number_at hunk_cmp x counts)) }
    ensures counted { IfOk result (λ m. AllCounted hunk_cmp m) }
    ensures cost { steps.new ≤ steps.old + 1 }
{
    let Hunk::Delete {
        owner,
        start,
        end,
        ..
    } = hunk
    else {
        return Ok(counts);
    };
    let count = rivals(
        alloc, indexes, owners, know_more, record, *owner, *start, *end,
    )?;
    if count == 0 {
        return Ok(counts);
    }
    let at = HunkAt {
        change: record.name,
        hunk: number,
    };
    let now = counts.into_with(alloc, at, Count { count }, steps)?;
    Ok(now)
}

/// The counts with those of the deletions by the change. At most one step for each hunk. Unless `know_more`, no peer knows others beside
/// its needs.
pub fn with_own<P: Peers, L: Ledger>(
    alloc: Global,
    indexes: &Indexes,
    counts: PMap<HunkAt, Count>,
    peers: &P,
    know_more: bool,
    record: &Record,
    steps: &mut Steps<L>,
) -> Result<PMap<HunkAt, Count>, Memory>
    requires rows { AreRowsOf (P.records peers.now) indexes.now }
    requires none { (number : ℕ) → number_at hunk_cmp (record { change = «record».now.name; hunk = number }) counts ≡ 0 }
    requires counted { AllCounted hunk_cmp counts }
    requires fresh { is_held (P.records peers.now) «record».now.name ≡ false }
    requires free { IsFree (P.records peers.now) «record».now }
    requires know_more { IsTrue know_more ⊎ KnowNoMore (P.records peers.now) }
    ensures counts { IfOk result (λ m. (x : HunkValue) → number_at hunk_cmp x m ≡ cond (same_name «record».now.name x.change) (own_count (P.records peers.now) «record».now x.hunk) (number_at hunk_cmp x counts)) }
    ensures counted { IfOk result (λ m. AllCounted hunk_cmp m) }
    ensures cost { steps.new ≤ steps.old + length «record».now.change.hunks }
{
    let mut owners = Owners::over(peers);
    let mut now = counts;
    for (number, hunk) in record.change.hunks.items().iter().enumerate() {
        now = with_own_hunk(
            alloc,
            indexes,
            now,
            &mut owners,
            know_more,
            record,
            number as u32,
            hunk,
            steps,
        )?;
    }
    Ok(now)
}

/// The counts without those of the hunks of the change. One step for each hunk.
pub fn without_own<L: Ledger>(
    alloc: Global,
    counts: PMap<HunkAt, Count>,
    record: &Record,
    steps: &mut Steps<L>,
) -> Result<PMap<HunkAt, Count>, Memory>
    requires few { (number : ℕ) → length «record».now.change.hunks ≤ number → number_at hunk_cmp (record { change = «record».now.name; hunk = number }) counts ≡ 0 }
    requires counted { AllCounted hunk_cmp counts }
    ensures counts { IfOk result (λ m. (x : HunkValue) → number_at hunk_cmp x m ≡ cond (same_name «record».now.name x.change) 0 (number_at hunk_cmp x counts)) }
    ensures counted { IfOk result (λ m. AllCounted hunk_cmp m) }
    ensures cost { steps.new ≤ steps.old + length «record».now.change.hunks }
{
    let mut now = counts;
    for (number, _) in record.change.hunks.items().iter().enumerate() {
        let at = HunkAt {
            change: record.name,
            hunk: number as u32,
        };
        now = now.into_without(alloc, &at, steps)?;
    }
    Ok(now)
}
