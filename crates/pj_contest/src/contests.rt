//! The table of contests of a set, and what it becomes as changes come and go.

ghost use Rattle.std.specs.Prelude.{◌≡◌, ◌+◌, ◌*◌, ◌≤◌, [], ◌∷◌, IfOk, List, Contains, Some, cond, false, nat_lt, slice_get};
ghost use Rattle.pj_change.specs.declared.change.Record.{Record as RecordValue};
ghost use Rattle.pj_change.specs.declared.hunk.Hunk.{Hunk as AnyHunk};
ghost use Rattle.pj_change.specs.Lawful.{is_held};
ghost use Rattle.pj_change.specs.Sets.{HaveDistinctNames};
ghost use Rattle.pj_change.specs.Contested.{is_hunk_contested};
ghost use Rattle.pj_change.specs.ContestCounts.{pairs_with};
ghost use Rattle.pj_ranges.specs.Units.{hunk_cmp};
ghost use Rattle.pj_rows.specs.Keys.{AllCounted, number_at};
ghost use Rattle.pj_contest.specs.Given.{size_of};
ghost use Rattle.pj_contest.specs.Contests.{AreCountsOf, AreHitsInOrder, IsContestsOf, IsFree, knows_more};

use crate::indexes::Indexes;
use crate::own::{with_own, without_own};
use crate::search::hits;
use pj_change::{Peers, Record};
use pj_name::Name;
use pj_pmap::{PMap, Steps};
use pj_ranges::HunkAt;
use pj_rows::{Count, Memory, lower_each, raise_each};
use std::alloc::Global;
use std::marker::Model;
use std::sync::ledger::Ledger;

/// The contests of a set of changes. A table that changes is given up: whoever keeps it shares it before.
///
/// Contracts see the pairs of its maps.
pub struct Contests {
    counts: PMap<HunkAt, Count>,
    indexes: Indexes,
    /// How many changes know others beside their needs. Where there is none, no change of the set knows one that it does not need.
    knowing: u64,
}

/// Written out and not derived: whoever lets go of one cites this proof, and proves nothing anew of its parts.
impl Drop for Contests {
    fn drop(self) {
        let Contests {
            counts: _counts,
            indexes: _indexes,
            knowing: _knowing,
        } = self;
    }
}

impl Model for Contests {
    ghost use Rattle.pj_rows.specs.Keys.{AllCounted};
    ghost use Rattle.pj_ranges.specs.Units.{hunk_cmp};
    ghost use Rattle.pj_contest.specs.Contests.{Table};

    ghost Value = { Table };

    ghost view = { λ c. record { counts = c.counts; rows = c.indexes; knowing = c.knowing } };

    ghost invariant = { λ c. AllCounted hunk_cmp c.counts };
}

/// How many changes know others beside their needs, with this one.
///
/// It has room for `u64::MAX`; past that memory is wanted.
fn knowing_with(knowing: u64, change: &Record) -> Result<u64, Memory>
    ensures { IfOk result (λ n. n ≡ cond (knows_more change.now) 1 0 + knowing) }
{
    if change.change.knows.items().is_empty() {
        return Ok(knowing);
    }
    knowing.checked_add(1).ok_or(Memory)
}

/// How many changes know others beside their needs, without this one.
fn knowing_without(knowing: u64, change: &Record) -> u64
    requires { cond (knows_more change.now) 1 0 ≤ knowing }
    ensures { cond (knows_more change.now) 1 0 + result ≡ knowing }
{
    if change.change.knows.items().is_empty() {
        return knowing;
    }
    knowing - 1
}

impl Contests {
    /// The contests of no change. It takes no memory.
    pub fn empty() -> Contests
        ensures { IsContestsOf [] result }
    {
        Contests {
            counts: PMap::empty(),
            indexes: Indexes::empty(),
            knowing: 0,
        }
    }

    /// The same table for a second owner, in constant time.
    pub fn share(&self) -> Result<Contests, Memory>
        ensures { IfOk result (λ c. c ≡ self.now) }
    {
        Ok(Contests {
            counts: self.counts.share()?,
            indexes: self.indexes.share()?,
            knowing: self.knowing,
        })
    }

    /// Each contested `delete` hunk, with the number of changes that contest it.
    pub fn counts(&self) -> &PMap<HunkAt, Count>
        ensures same { result.now ≡ self.now.counts }
        ensures counted { AllCounted hunk_cmp self.now.counts }
        ensures set { (S : List RecordValue) → HaveDistinctNames S → IsContestsOf S self.now → AreCountsOf S self.now.counts }
    {
        &self.counts
    }

    /// Whether the hunk of a change, by its number, is contested. It takes no memory.
    pub fn contested(&self, change: Name, hunk: u32) -> bool
        ensures table { result ≡ nat_lt 0 (number_at hunk_cmp (record { change = change; hunk = hunk }) self.now.counts) }
        ensures set { (S : List RecordValue) → HaveDistinctNames S → IsContestsOf S self.now → (d : RecordValue) → Contains S d → d.name ≡ change → (h : AnyHunk) → slice_get d.change.hunks hunk ≡ Some h → result ≡ is_hunk_contested S d h }
    {
        self.counts.get(&HunkAt { change, hunk }).is_some()
    }

    /// The hunks of the set that a change contests which is to come, each once, in order, as [`Contests::with`] asks for them. The peers
    /// are the changes of the set, none of which may be in need of it.
    pub fn hits<P: Peers>(
        &self,
        alloc: Global,
        change: &Record,
        peers: &P,
    ) -> Result<Vec<HunkAt>, Memory>
        requires set { IsContestsOf (P.records peers.now) self.now }
        requires fresh { is_held (P.records peers.now) change.now.name ≡ false }
        requires free { IsFree (P.records peers.now) change.now }
        ensures { IfOk result (λ v. AreHitsInOrder (P.records peers.now) change.now v.items) }
    {
        let hits = hits(alloc, &self.indexes, peers, self.knowing > 0, change)?;
        Ok(hits)
    }

    /// The hunks of the others that a change of the set contests which is to go, each once, in order, as [`Contests::without`] asks for
    /// them. The peers are the other changes of the set, none of which may be in need of it.
    pub fn hits_without<P: Peers>(
        &self,
        alloc: Global,
        change: &Record,
        peers: &P,
    ) -> Result<Vec<HunkAt>, Memory>
        requires set { IsContestsOf (change.now ∷ P.records peers.now) self.now }
        requires fresh { is_held (P.records peers.now) change.now.name ≡ false }
        requires free { IsFree (P.records peers.now) change.now }
        ensures { IfOk result (λ v. AreHitsInOrder (P.records peers.now) change.now v.items) }
    {
        let knowing = knowing_without(self.knowing, change);
        let hits = hits(alloc, &self.indexes, peers, knowing > 0, change)?;
        Ok(hits)
    }

    /// The table with this change too, where `hits` are the hunks of the set that it contests. The peers are the changes of the set, none
    /// of which may be in need of it.
    ///
    /// At most four steps for each hunk, reference and pair of a contested hunk and a contesting change that it adds.
    pub fn with<P: Peers, L: Ledger>(
        self,
        alloc: Global,
        change: &Record,
        peers: &P,
        hits: &[HunkAt],
        steps: &mut Steps<L>,
    ) -> Result<Contests, Memory>
        requires set { IsContestsOf (P.records peers.now) self }
        requires fresh { is_held (P.records peers.now) change.now.name ≡ false }
        requires free { IsFree (P.records peers.now) change.now }
        requires hits { AreHitsInOrder (P.records peers.now) change.now hits.now }
        ensures set { IfOk result (λ c. IsContestsOf (change.now ∷ P.records peers.now) c) }
        ensures cost { steps.new ≤ steps.old + 4 * (size_of change.now + pairs_with (P.records peers.now) change.now) }
    {
        let knowing = knowing_with(self.knowing, change)?;
        let know_more = self.knowing > 0;
        let Contests {
            counts,
            indexes,
            knowing: _,
        } = self;
        let raised = raise_each(alloc, counts, hits, steps)?;
        let counts = with_own(alloc, &indexes, raised, peers, know_more, change, steps)?;
        let indexes = indexes.with(alloc, change, steps)?;
        Ok(Contests {
            counts,
            indexes,
            knowing,
        })
    }

    /// The table without this change, where `hits` are the hunks of the others that it contests. The peers are the other changes of the
    /// set, none of which may be in need of it; none of them is looked up.
    ///
    /// At most four steps for each hunk, reference and pair of a contested hunk and a contesting change that it takes away.
    pub fn without<P: Peers, L: Ledger>(
        self,
        alloc: Global,
        change: &Record,
        _peers: &P,
        hits: &[HunkAt],
        steps: &mut Steps<L>,
    ) -> Result<Contests, Memory>
        requires set { IsContestsOf (change.now ∷ P.records _peers.now) self }
        requires fresh { is_held (P.records _peers.now) change.now.name ≡ false }
        requires free { IsFree (P.records _peers.now) change.now }
        requires hits { AreHitsInOrder (P.records _peers.now) change.now hits.now }
        ensures set { IfOk result (λ c. IsContestsOf (P.records _peers.now) c) }
        ensures cost { steps.new ≤ steps.old + 4 * (size_of change.now + pairs_with (P.records _peers.now) change.now) }
    {
        let knowing = knowing_without(self.knowing, change);
        let Contests {
            counts,
            indexes,
            knowing: _,
        } = self;
        let lowered = lower_each(alloc, counts, hits, steps)?;
        let counts = without_own(alloc, lowered, change, steps)?;
        let indexes = indexes.without(alloc, change, steps)?;
        Ok(Contests {
            counts,
            indexes,
            knowing,
        })
    }
}
