//! The table of versions, with what survives at a point and the status that this gives.

ghost use Rattle.std.specs.Prelude.{◌≡◌, ◌+◌, ◌≤◌, ◌<◌, ◌&&◌, ◌||◌, IsTrue, IfOk, MatchOption, [], Some, None, true, List, find, cond, length};
ghost use Rattle.std.specs.Ordering.{is_eq};
ghost use Rattle.pj_name.specs.Name.{name_below};
ghost use Rattle.pj_change.specs.declared.change.Record.{Record};
ghost use Rattle.pj_change.specs.declared.version.Version.{Version as VersionValue};
ghost use Rattle.pj_change.specs.SurvivingVersions.{AreSurvivors};
ghost use Rattle.pj_change.specs.SurvivingVersions as survivor;
ghost use Rattle.pj_change.specs.Status as status;
ghost use Rattle.pj_pmap.specs.Pairs.{with_pair, without_key};
ghost use Rattle.pj_ranges.specs.declared.range.HunkAt.{HunkAt as HunkValue};
ghost use Rattle.pj_ranges.specs.Units.{hunk_cmp, IsMeasured};
ghost use Rattle.pj_ranges.specs.Units as unit;
ghost use Rattle.pj_states.specs.declared.deletion.Deletion.{Deletion as DeletionValue};
ghost use Rattle.pj_states.specs.Index.{AreIndexed};
ghost use Rattle.pj_states.specs.Named.{by_count};
ghost use Rattle.pj_states.specs.Rows.{hunk_at, said_by, said_has_by, shown_rows};
ghost use Rattle.pj_states.specs.Survivals.{survives_in, comes_after, is_name_after, is_changer_after, version_said, SurvivesIn, IsSurvivorIn, IsNextSurvivor, IsNextHunk, IsNextChanged};
ghost use Rattle.pj_states.specs.Survivals as survival;
ghost use Rattle.pj_states.specs.Statuses.{any_survives, survives_at, is_deleting, is_reviving, is_contested_one, status_in};
ghost use Rattle.pj_states.specs.OfSets.{AreVersionsOf, AreContestedOf, SurviveIn};

use crate::contested::ContestedHunks;
use crate::deletion::Deletion;
use crate::named::Named;
use crate::survivors::Survivors;
use pj_change::{Point, Status, Version};
use pj_name::Name;
use pj_pmap::{Memory, PMap, Steps};
use pj_ranges::{HunkAt, RangeAt, Ranges, Walk};
use std::alloc::Global;
use std::marker::Model;
use std::sync::Arc;
use std::sync::ledger::Ledger;

/// What each `delete` and each `revive` hunk says, by the hunk. A table that changes is given up: whoever keeps it shares it before.
///
/// Contracts see the pairs of a hunk and what it says, in the order of the hunks.
pub struct Versions {
    hunks: PMap<HunkAt, Arc<Deletion>>,
    ranges: Ranges,
    named: Named,
}

/// Written out and not derived: whoever lets go of one cites this proof, and proves nothing anew of its parts.
impl Drop for Versions {
    fn drop(self) {
        let Versions {
            hunks: _hunks,
            ranges: _ranges,
            named: _named,
        } = self;
    }
}

impl Model for Versions {
    ghost use Rattle.pj_states.specs.Rows.{Rows, shown_rows};
    ghost use Rattle.pj_states.specs.Index.{AreIndexed};
    ghost use Rattle.pj_states.specs.Named.{AreNamed};

    ghost Value = { Rows };

    ghost view = { λ v. shown_rows v.hunks };

    ghost invariant = { λ v. AreIndexed (shown_rows v.hunks) v.ranges × AreNamed (shown_rows v.hunks) v.named };
}

/// The range of these positions, of which the hunk speaks.
fn range_of(owner: Name, start: u32, end: u32, by: HunkAt) -> RangeAt
    requires { start < end }
    ensures same { result ≡ unit.range_of owner start end by }
    ensures measured { IsMeasured result }
{
    RangeAt::of(owner, start, end, by)
}

/// The change whose version it is, where it is not the owner's.
fn changer(version: Version) -> Option<Name>
    ensures { result ≡ survivor.changer version }
{
    match version {
        Version::Owner => None,
        Version::Deleted { change, .. } | Version::Revived { change, .. } => Some(change),
    }
}

/// Whether the name is above the other, if there is one.
fn is_after(after: Option<Name>, name: Name) -> bool
    ensures { result ≡ is_name_after after name }
{
    match after {
        None => true,
        Some(other) => other.cmp(&name).is_lt(),
    }
}

/// Whether the name is below that of the hunk, if there is one.
fn is_before(name: Name, found: Option<HunkAt>) -> bool
    ensures { result ≡ survival.is_before name found }
{
    match found {
        None => true,
        Some(other) => name.cmp(&other.change).is_lt(),
    }
}

/// What the hunk says, of these.
fn said_in(hunks: &PMap<HunkAt, Arc<Deletion>>, by: HunkAt) -> Option<&Deletion>
    ensures { MatchOption result (said_by by (shown_rows hunks.now) ≡ None) (λ d. said_by by (shown_rows hunks.now) ≡ Some d.now) }
{
    let op: &Deletion = hunks.get(&by)?;
    Some(op)
}

impl Versions {
    /// No hunk. It takes no memory.
    pub fn empty() -> Versions
        ensures rows { result ≡ [] }
        ensures set { AreVersionsOf [] result }
    {
        Versions {
            hunks: PMap::empty(),
            ranges: Ranges::empty(),
            named: Named::empty(),
        }
    }

    /// The same table for a second owner, in constant time.
    pub fn share(&self) -> Result<Versions, Memory>
        ensures { IfOk result (λ v. v ≡ self.now) }
    {
        Ok(Versions {
            hunks: self.hunks.share()?,
            ranges: self.ranges.share()?,
            named: self.named.share()?,
        })
    }

    /// What the hunk says. It takes no memory.
    pub fn get(&self, by: HunkAt) -> Option<&Deletion>
        ensures { MatchOption result (said_by by self.now ≡ None) (λ d. said_by by self.now ≡ Some d.now) }
    {
        said_in(&self.hunks, by)
    }

    /// The table with what this hunk says too. Two steps, and one for each name under its `by`.
    pub fn add<L: Ledger>(
        self,
        alloc: Global,
        change: Name,
        hunk: u32,
        op: Deletion,
        steps: &mut Steps<L>,
    ) -> Result<Versions, Memory>
        requires fresh { said_by (hunk_at change hunk) self ≡ None }
        requires some { op.start < op.end }
        ensures rows { IfOk result (λ v. v ≡ with_pair hunk_cmp (hunk_at change hunk) op self) }
        ensures cost { steps.new ≤ steps.old + (2 + length op.by) }
    {
        let by = HunkAt { change, hunk };
        let range = range_of(op.owner, op.start, op.end, by);
        let Versions {
            hunks,
            ranges,
            named,
        } = self;
        let ranges = ranges.with(alloc, range, steps)?;
        let named = named.with(alloc, op.by.items(), by, steps)?;
        let shared = Arc::new(alloc, op)?;
        let hunks = hunks.into_with(alloc, by, shared, steps)?;
        Ok(Versions {
            hunks,
            ranges,
            named,
        })
    }

    /// The table without what this hunk says, which is the same table where it says nothing. At most two steps, and one for each name
    /// under its `by`.
    pub fn remove<L: Ledger>(
        self,
        alloc: Global,
        change: Name,
        hunk: u32,
        steps: &mut Steps<L>,
    ) -> Result<Versions, Memory>
        ensures rows { IfOk result (λ v. v ≡ without_key hunk_cmp (hunk_at change hunk) self) }
        ensures said { IfOk result (λ v. (k : HunkValue) → said_by k v ≡ cond (is_eq (hunk_cmp k (hunk_at change hunk))) None (said_by k self)) }
        ensures cost { steps.new ≤ steps.old + (2 + by_count (said_by (hunk_at change hunk) self)) }
    {
        let by = HunkAt { change, hunk };
        let Versions {
            hunks,
            ranges,
            named,
        } = self;
        let Some(op) = said_in(&hunks, by) else {
            return Ok(Versions {
                hunks,
                ranges,
                named,
            });
        };
        let range = range_of(op.owner, op.start, op.end, by);
        let ranges = ranges.without(alloc, &range, steps)?;
        let named = named.without(alloc, op.by.items(), by, steps)?;
        let hunks = hunks.into_without(alloc, &by, steps)?;
        Ok(Versions {
            hunks,
            ranges,
            named,
        })
    }

    /// Whether the hunk has the change of this name under `by`.
    fn is_by(&self, by: HunkAt, name: Name) -> bool
        ensures { result ≡ said_has_by (said_by by self.now) name }
    {
        match self.get(by) {
            Some(op) => op.has_by(name),
            None => false,
        }
    }

    /// Whether some hunk has the change of this name under `by`, whatever it covers. One search.
    fn is_overruled(&self, name: Name) -> bool
        ensures { (k : HunkValue) → said_has_by (said_by k self.now) name ≡ true → IsTrue result }
    {
        let _ = &self.hunks;
        self.named.has(name)
    }

    /// A walk over the ranges of the hunks.
    fn walk(&self) -> Walk<'_>
        ensures { AreIndexed self.now result }
    {
        self.ranges.walk()
    }

    /// Whether the point's version by the change of this name survives.
    fn survives(&self, name: Name, at: Point) -> bool
        ensures { result ≡ survives_in self.now name at }
    {
        let _ = &self.hunks;
        if !self.is_overruled(name) {
            return true;
        }
        let mut walk = self.walk();
        let mut next = walk.next_over(at, None);
        while let Some(range) = next {
            if self.is_by(range.by, name) {
                return false;
            }
            next = walk.next_over(at, Some(range));
        }
        true
    }

    /// Whether the version by the hunk survives and comes between: after the name, and before the hunk that was found.
    fn is_nearer(&self, at: Point, after: Option<Name>, found: Option<HunkAt>, by: HunkAt) -> bool
        ensures { result ≡ (is_name_after after by.change && survival.is_before by.change found && survives_in self.now by.change at) }
    {
        is_after(after, by.change) && is_before(by.change, found) && self.survives(by.change, at)
    }

    /// The hunk with the least name above `after` that covers the point and whose version survives.
    fn next_hunk(&self, at: Point, after: Option<Name>) -> Option<HunkAt>
        ensures { MatchOption result ((k : HunkValue) (d : DeletionValue) → SurvivesIn self.now at k d → IsTrue (is_name_after after k.change) → ⊥) (IsNextHunk self.now at after) }
    {
        let mut found = None;
        let mut walk = self.walk();
        let mut next = walk.next_over(at, None);
        while let Some(range) = next {
            if self.is_nearer(at, after, found, range.by) {
                found = Some(range.by);
            }
            next = walk.next_over(at, Some(range));
        }
        found
    }

    /// The version by the hunk.
    fn version_by(&self, by: HunkAt) -> Option<Version>
        ensures { result ≡ version_said by (said_by by self.now) }
    {
        let op = self.get(by)?;
        let HunkAt { change, hunk } = by;
        Some(if op.alive {
            Version::Revived { change, hunk }
        } else {
            Version::Deleted { change, hunk }
        })
    }

    /// The first surviving version that is not the owner's, by the name of its change above `after`.
    fn next_version(&self, at: Point, after: Option<Name>) -> Option<Version>
        ensures { MatchOption result ((v : VersionValue) → IsSurvivorIn self.now at v → IsTrue (is_changer_after after v) → ⊥) (IsNextChanged self.now at after) }
    {
        let by = self.next_hunk(at, after)?;
        self.version_by(by)
    }

    /// The first surviving version of the point after `after`, or of all: the owner's, and then the others by the names of their
    /// changes. It takes no memory.
    pub fn surviving(&self, at: Point, after: Option<Version>) -> Option<Version>
        ensures table { MatchOption result ((v : VersionValue) → IsSurvivorIn self.now at v → IsTrue (comes_after after v) → ⊥) (IsNextSurvivor self.now at after) }
        ensures set { (S : List Record) → AreVersionsOf S self.now → (versions : List VersionValue) → AreSurvivors S at versions → result ≡ find (comes_after after) versions }
    {
        let _ = &self.hunks;
        match after {
            None => {
                if self.survives(at.change, at) {
                    return Some(Version::Owner);
                }
                self.next_version(at, None)
            }
            Some(version) => self.next_version(at, changer(version)),
        }
    }

    /// What survives, with the version by this hunk too where it survives, which is asked only where it can add something.
    fn seen<C: ContestedHunks>(
        &self,
        at: Point,
        contested: &C,
        found: Survivors,
        by: HunkAt,
    ) -> Survivors
        ensures owner { result.owner ≡ found.owner }
        ensures deleted { result.deleted ≡ (found.deleted || survives_at is_deleting self.now at by) }
        ensures revived { result.revived ≡ (found.revived || survives_at is_reviving self.now at by) }
        ensures contested { result.contested ≡ (found.contested || survives_at (is_contested_one (C.contested contested.now)) self.now at by) }
    {
        let Some(op) = self.get(by) else {
            return found;
        };
        if op.alive {
            let revived = found.revived || self.survives(by.change, at);
            return Survivors { revived, ..found };
        }
        let opposed = contested.is_contested(by);
        if found.deleted && (found.contested || !opposed) {
            return found;
        }
        if !self.survives(by.change, at) {
            return found;
        }
        Survivors {
            deleted: true,
            contested: found.contested || opposed,
            ..found
        }
    }

    /// What survives of the versions of the point, in one walk over the hunks that cover it. `contested` is asked for each hunk that
    /// deletes, once. It takes no memory.
    pub fn survivors<C: ContestedHunks>(&self, at: Point, contested: &C) -> Survivors
        ensures owner { result.owner ≡ survives_in self.now at.change at }
        ensures revived { result.revived ≡ any_survives is_reviving self.now at }
        ensures deleted { result.deleted ≡ any_survives is_deleting self.now at }
        ensures contested { result.contested ≡ any_survives (is_contested_one (C.contested contested.now)) self.now at }
        ensures set { (S : List Record) → AreVersionsOf S self.now → AreContestedOf S (C.contested contested.now) → SurviveIn S at result }
    {
        let mut found = Survivors {
            owner: self.survives(at.change, at),
            revived: false,
            deleted: false,
            contested: false,
        };
        let mut walk = self.walk();
        let mut next = walk.next_over(at, None);
        while let Some(range) = next {
            found = self.seen(at, contested, found, range.by);
            next = walk.next_over(at, Some(range));
        }
        found
    }

    /// The status of the point, in one walk over the hunks that cover it, which stops as soon as the point is known to be a zombie. It
    /// takes no memory.
    pub fn status<C: ContestedHunks>(&self, at: Point, contested: &C) -> Status
        ensures table { result ≡ status_in (C.contested contested.now) self.now at }
        ensures set { (S : List Record) → AreVersionsOf S self.now → AreContestedOf S (C.contested contested.now) → result ≡ status.status_of S at }
    {
        let mut found = Survivors::none();
        let mut walk = self.walk();
        let mut next = walk.next_over(at, None);
        while let Some(range) = next {
            found = self.seen(at, contested, found, range.by);
            if found.is_zombie() {
                return Status::Zombie;
            }
            next = walk.next_over(at, Some(range));
        }
        if !found.deleted {
            return Status::Alive;
        }
        let owner = self.survives(at.change, at);
        Survivors { owner, ..found }.status()
    }
}
