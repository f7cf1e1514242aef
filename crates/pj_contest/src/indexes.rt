//! The indexes by which contests are found. Each row is a function of one change alone.

ghost use Rattle.std.specs.Prelude.{◌≡◌, ◌+◌, ◌≤◌, ◌&&◌, ◌||◌, not, false, [], ◌∷◌, List, Contains, IfOk, length};
ghost use Rattle.pj_change.specs.declared.change.Record.{Record as RecordValue};
ghost use Rattle.pj_change.specs.Lawful.{is_held};
ghost use Rattle.pj_ranges.specs.declared.range.RangeAt.{RangeAt as RangeValue};
ghost use Rattle.pj_ranges.specs.Units.{IsMeasured, range_cmp};
ghost use Rattle.pj_ranges.specs.Over.{has_range};
ghost use Rattle.pj_rows.specs.Keys.{is_among};
ghost use Rattle.pj_contest.specs.Marks.{base_cmp, child_cmp, up_cmp};
ghost use Rattle.pj_contest.specs.Given as given;
ghost use Rattle.pj_contest.specs.Given.{rows_of};
ghost use Rattle.pj_contest.specs.Contests.{AreRowsOf, IsIndexOf};

use crate::given::{base_rows, child_rows, deleted_ranges, up_rows};
use crate::marks::{BaseMark, ChildMark, UpMark};
use pj_change::Record;
use pj_pmap::{PMap, Steps};
use pj_ranges::{RangeAt, Ranges};
use pj_rows::{Here, Memory, with_keys, without_keys};
use std::alloc::Global;
use std::marker::Model;
use std::sync::ledger::Ledger;

/// The indexes of a set of changes.
pub(crate) struct Indexes {
    /// By each up, who inserts after it.
    pub(crate) ups: PMap<UpMark, Here>,
    /// By each file or parent, who builds on it; None is the root.
    pub(crate) bases: PMap<BaseMark, Here>,
    /// By each child, its names.
    pub(crate) children: PMap<ChildMark, Here>,
    /// The deleted ranges, each by its hunk.
    pub(crate) ranges: Ranges,
}

/// Written out and not derived: whoever lets go of one cites this proof, and proves nothing anew of its parts.
impl Drop for Indexes {
    fn drop(self) {
        let Indexes {
            ups: _ups,
            bases: _bases,
            children: _children,
            ranges: _ranges,
        } = self;
    }
}

impl Model for Indexes {
    ghost use Rattle.pj_contest.specs.Contests.{Rows};

    ghost Value = { Rows };

    ghost view = { λ c. record { ups = c.ups; bases = c.bases; children = c.children; ranges = c.ranges } };
}

/// The set with these ranges too. One step for each.
fn with_ranges<L: Ledger>(
    alloc: Global,
    ranges: Ranges,
    more: &[RangeAt],
    steps: &mut Steps<L>,
) -> Result<Ranges, Memory>
    requires { (q : RangeValue) → Contains more.now q → IsMeasured q }
    ensures rows { IfOk result (λ r. (q : RangeValue) → has_range r q ≡ (is_among range_cmp q more.now || has_range ranges q)) }
    ensures cost { steps.new ≤ steps.old + length more.now }
{
    let mut now = ranges;
    for range in more {
        now = now.with(alloc, *range, steps)?;
    }
    Ok(now)
}

/// The set without these ranges. One step for each.
fn without_ranges<L: Ledger>(
    alloc: Global,
    ranges: Ranges,
    gone: &[RangeAt],
    steps: &mut Steps<L>,
) -> Result<Ranges, Memory>
    ensures rows { IfOk result (λ r. (q : RangeValue) → has_range r q ≡ (not (is_among range_cmp q gone.now) && has_range ranges q)) }
    ensures cost { steps.new ≤ steps.old + length gone.now }
{
    let mut now = ranges;
    for range in gone {
        now = now.without(alloc, range, steps)?;
    }
    Ok(now)
}

// ---- one index, with the rows of a change and without them

/// The ups with those of this change too. One step for each.
fn with_ups<L: Ledger>(
    alloc: Global,
    ups: PMap<UpMark, Here>,
    change: &Record,
    steps: &mut Steps<L>,
) -> Result<PMap<UpMark, Here>, Memory>
    ensures rows { IfOk result (λ m. (S : List RecordValue) → IsIndexOf up_cmp given.up_rows S ups → IsIndexOf up_cmp given.up_rows (change.now ∷ S) m) }
    ensures cost { steps.new ≤ steps.old + length (given.up_rows change.now) }
{
    let rows = up_rows(alloc, change)?;
    let now = with_keys(alloc, ups, &rows, steps)?;
    Ok(now)
}

/// The ups without those of this change. One step for each.
fn without_ups<L: Ledger>(
    alloc: Global,
    ups: PMap<UpMark, Here>,
    change: &Record,
    steps: &mut Steps<L>,
) -> Result<PMap<UpMark, Here>, Memory>
    ensures rows { IfOk result (λ m. (S : List RecordValue) → is_held S change.now.name ≡ false → IsIndexOf up_cmp given.up_rows (change.now ∷ S) ups → IsIndexOf up_cmp given.up_rows S m) }
    ensures cost { steps.new ≤ steps.old + length (given.up_rows change.now) }
{
    let rows = up_rows(alloc, change)?;
    let now = without_keys(alloc, ups, &rows, steps)?;
    Ok(now)
}

/// The files and parents with those of this change too. One step for each.
fn with_bases<L: Ledger>(
    alloc: Global,
    bases: PMap<BaseMark, Here>,
    change: &Record,
    steps: &mut Steps<L>,
) -> Result<PMap<BaseMark, Here>, Memory>
    ensures rows { IfOk result (λ m. (S : List RecordValue) → IsIndexOf base_cmp given.base_rows S bases → IsIndexOf base_cmp given.base_rows (change.now ∷ S) m) }
    ensures cost { steps.new ≤ steps.old + length (given.base_rows change.now) }
{
    let rows = base_rows(alloc, change)?;
    let now = with_keys(alloc, bases, &rows, steps)?;
    Ok(now)
}

/// The files and parents without those of this change. One step for each.
fn without_bases<L: Ledger>(
    alloc: Global,
    bases: PMap<BaseMark, Here>,
    change: &Record,
    steps: &mut Steps<L>,
) -> Result<PMap<BaseMark, Here>, Memory>
    ensures rows { IfOk result (λ m. (S : List RecordValue) → is_held S change.now.name ≡ false → IsIndexOf base_cmp given.base_rows (change.now ∷ S) bases → IsIndexOf base_cmp given.base_rows S m) }
    ensures cost { steps.new ≤ steps.old + length (given.base_rows change.now) }
{
    let rows = base_rows(alloc, change)?;
    let now = without_keys(alloc, bases, &rows, steps)?;
    Ok(now)
}

/// The children and names with those of this change too. One step for each.
fn with_children<L: Ledger>(
    alloc: Global,
    children: PMap<ChildMark, Here>,
    change: &Record,
    steps: &mut Steps<L>,
) -> Result<PMap<ChildMark, Here>, Memory>
    ensures rows { IfOk result (λ m. (S : List RecordValue) → IsIndexOf child_cmp given.child_rows S children → IsIndexOf child_cmp given.child_rows (change.now ∷ S) m) }
    ensures cost { steps.new ≤ steps.old + length (given.child_rows change.now) }
{
    let rows = child_rows(alloc, change)?;
    let now = with_keys(alloc, children, &rows, steps)?;
    Ok(now)
}

/// The children and names without those of this change. One step for each.
fn without_children<L: Ledger>(
    alloc: Global,
    children: PMap<ChildMark, Here>,
    change: &Record,
    steps: &mut Steps<L>,
) -> Result<PMap<ChildMark, Here>, Memory>
    ensures rows { IfOk result (λ m. (S : List RecordValue) → is_held S change.now.name ≡ false → IsIndexOf child_cmp given.child_rows (change.now ∷ S) children → IsIndexOf child_cmp given.child_rows S m) }
    ensures cost { steps.new ≤ steps.old + length (given.child_rows change.now) }
{
    let rows = child_rows(alloc, change)?;
    let now = without_keys(alloc, children, &rows, steps)?;
    Ok(now)
}

/// The deleted ranges with those of this change too. One step for each.
fn with_deleted<L: Ledger>(
    alloc: Global,
    ranges: Ranges,
    change: &Record,
    steps: &mut Steps<L>,
) -> Result<Ranges, Memory>
    ensures rows { IfOk result (λ m. (S : List RecordValue) → IsIndexOf range_cmp given.deleted_ranges S ranges → IsIndexOf range_cmp given.deleted_ranges (change.now ∷ S) m) }
    ensures cost { steps.new ≤ steps.old + length (given.deleted_ranges change.now) }
{
    let rows = deleted_ranges(alloc, change)?;
    let now = with_ranges(alloc, ranges, &rows, steps)?;
    Ok(now)
}

/// The deleted ranges without those of this change. One step for each.
fn without_deleted<L: Ledger>(
    alloc: Global,
    ranges: Ranges,
    change: &Record,
    steps: &mut Steps<L>,
) -> Result<Ranges, Memory>
    ensures rows { IfOk result (λ m. (S : List RecordValue) → is_held S change.now.name ≡ false → IsIndexOf range_cmp given.deleted_ranges (change.now ∷ S) ranges → IsIndexOf range_cmp given.deleted_ranges S m) }
    ensures cost { steps.new ≤ steps.old + length (given.deleted_ranges change.now) }
{
    let rows = deleted_ranges(alloc, change)?;
    let now = without_ranges(alloc, ranges, &rows, steps)?;
    Ok(now)
}

// ---- all of them

impl Indexes {
    /// The indexes of no change. It takes no memory.
    pub(crate) fn empty() -> Indexes
        ensures { AreRowsOf [] result }
    {
        Indexes {
            ups: PMap::empty(),
            bases: PMap::empty(),
            children: PMap::empty(),
            ranges: Ranges::empty(),
        }
    }

    /// The same indexes for a second owner, in constant time.
    pub(crate) fn share(&self) -> Result<Indexes, Memory>
        ensures { IfOk result (λ c. c ≡ self.now) }
    {
        Ok(Indexes {
            ups: self.ups.share()?,
            bases: self.bases.share()?,
            children: self.children.share()?,
            ranges: self.ranges.share()?,
        })
    }

    /// The indexes with the rows of this change too. One step for each row.
    pub(crate) fn with<L: Ledger>(
        self,
        alloc: Global,
        change: &Record,
        steps: &mut Steps<L>,
    ) -> Result<Indexes, Memory>
        ensures rows { IfOk result (λ c. (S : List RecordValue) → AreRowsOf S self → AreRowsOf (change.now ∷ S) c) }
        ensures cost { steps.new ≤ steps.old + rows_of change.now }
    {
        let Indexes {
            ups,
            bases,
            children,
            ranges,
        } = self;
        let ups = with_ups(alloc, ups, change, steps)?;
        let bases = with_bases(alloc, bases, change, steps)?;
        let children = with_children(alloc, children, change, steps)?;
        let ranges = with_deleted(alloc, ranges, change, steps)?;
        Ok(Indexes {
            ups,
            bases,
            children,
            ranges,
        })
    }

    /// The indexes without the rows of this change. One step for each row.
    pub(crate) fn without<L: Ledger>(
        self,
        alloc: Global,
        change: &Record,
        steps: &mut Steps<L>,
    ) -> Result<Indexes, Memory>
        ensures rows { IfOk result (λ c. (S : List RecordValue) → is_held S change.now.name ≡ false → AreRowsOf (change.now ∷ S) self → AreRowsOf S c) }
        ensures cost { steps.new ≤ steps.old + rows_of change.now }
    {
        let Indexes {
            ups,
            bases,
            children,
            ranges,
        } = self;
        let ups = without_ups(alloc, ups, change, steps)?;
        let bases = without_bases(alloc, bases, change, steps)?;
        let children = without_children(alloc, children, change, steps)?;
        let ranges = without_deleted(alloc, ranges, change, steps)?;
        Ok(Indexes {
            ups,
            bases,
            children,
            ranges,
        })
    }
}
