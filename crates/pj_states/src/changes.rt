//! What a whole change says, into a table and out of it.

ghost use Rattle.std.specs.Prelude.{◌≡◌, ℕ, ◌+◌, ◌≤◌, false, length, IfOk, is_some, None, Some, cond, map, List, ◌∷◌, ◌++◌, [], Contains, slice_get};
ghost use Rattle.pj_change.specs.declared.change.Record.{Record as RecordValue};
ghost use Rattle.pj_change.specs.Positions as position;
ghost use Rattle.pj_change.specs.Lawful.{is_held};
ghost use Rattle.pj_pmap.specs.Pairs.{or_else};
ghost use Rattle.pj_ranges.specs.declared.range.HunkAt.{HunkAt as HunkValue};
ghost use Rattle.pj_states.specs.Rows.{hunk_at, said_by};
ghost use Rattle.pj_states.specs.OfSets.{deletion_of, AreVersionsOf};
ghost use Rattle.pj_states.specs.Given.{SaysNoOther, change_steps, given_at, given_by, hunk_steps};

use crate::deletion::Deletion;
use crate::versions::Versions;
use pj_change::{Hunk, Names, Record, numbered};
use pj_pmap::{Memory, Steps};
use std::alloc::Global;
use std::sync::ledger::Ledger;

/// The names of the needs of these numbers.
fn names_of(alloc: Global, record: &Record, numbers: &[u32]) -> Result<Names, Memory>
    requires { (number : ℕ) → Contains numbers.now number → number ≤ length «record».now.change.needs }
    ensures { IfOk result (λ names. names ≡ map (position.numbered «record».now) numbers.now) }
{
    let mut names = Vec::new(alloc);
    for number in numbers {
        names.push(numbered(record, *number))?;
    }
    Ok(Names::of(names))
}

/// What a hunk of the change says, where it deletes or revives.
fn deletion(alloc: Global, record: &Record, hunk: &Hunk) -> Result<Option<Deletion>, Memory>
    requires { Contains «record».now.change.hunks hunk.now }
    ensures { IfOk result (λ d. d ≡ deletion_of «record».now hunk.now) }
{
    match hunk {
        Hunk::Delete {
            owner,
            start,
            end,
            by,
        } => {
            let by = names_of(alloc, record, by.items())?;
            Ok(Some(Deletion {
                owner: numbered(record, *owner),
                start: *start,
                end: *end,
                by,
                alive: false,
            }))
        }
        Hunk::Revive {
            owner,
            start,
            end,
            by,
        } => {
            let by = names_of(alloc, record, by.items())?;
            Ok(Some(Deletion {
                owner: numbered(record, *owner),
                start: *start,
                end: *end,
                by,
                alive: true,
            }))
        }
        Hunk::File { .. }
        | Hunk::Dir { .. }
        | Hunk::NameOf { .. }
        | Hunk::Insert { .. }
        | Hunk::Order { .. } => Ok(None),
    }
}

impl Versions {
    /// The table with what a hunk of a change says too, by its number. At most two steps, and one for each name under its `by`.
    fn with_hunk<L: Ledger>(
        self,
        alloc: Global,
        record: &Record,
        number: u32,
        hunk: &Hunk,
        steps: &mut Steps<L>,
    ) -> Result<Versions, Memory>
        requires member { Contains «record».now.change.hunks hunk.now }
        requires fresh { said_by (hunk_at «record».now.name number) self ≡ None }
        ensures rows { IfOk result (λ v. (k : HunkValue) → said_by k v ≡ or_else (given_at «record».now number hunk.now k) (said_by k self)) }
        ensures cost { steps.new ≤ steps.old + hunk_steps hunk.now }
    {
        match deletion(alloc, record, hunk)? {
            Some(op) => self.add(alloc, record.name, number, op, steps),
            None => Ok(self),
        }
    }

    /// The table without what a hunk of a change says, by its number. At most two steps, and one for each name under its `by`.
    fn without_hunk<L: Ledger>(
        self,
        alloc: Global,
        record: &Record,
        number: u32,
        hunk: &Hunk,
        steps: &mut Steps<L>,
    ) -> Result<Versions, Memory>
        ensures rows { IfOk result (λ v. (k : HunkValue) → said_by k v ≡ cond (is_some (given_at «record».now number hunk.now k)) None (said_by k self)) }
        ensures cost { SaysNoOther «record».now self → slice_get «record».now.change.hunks number ≡ Some hunk.now → steps.new ≤ steps.old + hunk_steps hunk.now }
    {
        match hunk {
            Hunk::Delete { .. } => self.remove(alloc, record.name, number, steps),
            Hunk::Revive { .. } => self.remove(alloc, record.name, number, steps),
            Hunk::File { .. }
            | Hunk::Dir { .. }
            | Hunk::NameOf { .. }
            | Hunk::Insert { .. }
            | Hunk::Order { .. } => Ok(self),
        }
    }

    /// The table of a set with this change too: with what each hunk of it says.
    ///
    /// Two steps for each hunk that deletes or revives, and one for each name under its `by`.
    pub fn with_change<L: Ledger>(
        self,
        alloc: Global,
        record: &Record,
        steps: &mut Steps<L>,
    ) -> Result<Versions, Memory>
        requires { (number : ℕ) → said_by (hunk_at «record».now.name number) self ≡ None }
        ensures rows { IfOk result (λ v. (k : HunkValue) → said_by k v ≡ or_else (given_by «record».now k) (said_by k self)) }
        ensures set { IfOk result (λ v. (S : List RecordValue) → AreVersionsOf S self → AreVersionsOf (S ++ «record».now ∷ []) v) }
        ensures cost { steps.new ≤ steps.old + change_steps «record».now }
    {
        let mut now = self;
        for (number, hunk) in record.change.hunks.items().iter().enumerate() {
            now = now.with_hunk(alloc, record, number as u32, hunk, steps)?;
        }
        Ok(now)
    }

    /// The table of a set without this change: without what each hunk of it says.
    ///
    /// At most two steps for each hunk that deletes or revives, and one for each name under its `by`, where the table says no other by
    /// the hunks of the change than they do.
    pub fn without_change<L: Ledger>(
        self,
        alloc: Global,
        record: &Record,
        steps: &mut Steps<L>,
    ) -> Result<Versions, Memory>
        ensures rows { IfOk result (λ v. (k : HunkValue) → said_by k v ≡ cond (is_some (given_by «record».now k)) None (said_by k self)) }
        ensures set { IfOk result (λ v. (before after : List RecordValue) → is_held (before ++ after) «record».now.name ≡ false → AreVersionsOf (before ++ «record».now ∷ after) self → AreVersionsOf (before ++ after) v) }
        ensures cost { SaysNoOther «record».now self → steps.new ≤ steps.old + change_steps «record».now }
    {
        let mut now = self;
        for (number, hunk) in record.change.hunks.items().iter().enumerate() {
            now = now.without_hunk(alloc, record, number as u32, hunk, steps)?;
        }
        Ok(now)
    }
}
