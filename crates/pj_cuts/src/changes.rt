//! The cuts and blocks of a whole change, put into the table and taken out of it.

ghost use Rattle.std.specs.Prelude.{◌≡◌, ℕ, ◌+◌, ◌<◌, ◌≤◌, ◌^◌, IfOk, length, List, [], ◌∷◌, ◌++◌, Contains};
ghost use Rattle.pj_change.specs.declared.point.Point.{Point};
ghost use Rattle.pj_change.specs.declared.change.Record.{Record};
ghost use Rattle.pj_change.specs.Rules.{position_count};
ghost use Rattle.pj_change.specs.Positions.{own_point};
ghost use Rattle.pj_change.specs.CutCounts.{cuts_by};
ghost use Rattle.pj_cuts.specs.Counted.{count_at, length_at, InNoBlock};
ghost use Rattle.pj_cuts.specs.CutsOf.{all_cut_points, count_in, block_here, block_at, block_by, block_length, AllFitAfter, HasBytes, AreCutsOf};

use crate::cuts::Cuts;
use crate::points::cut_points;
use pj_change::{Hunk, Point, Record};
use pj_pmap::{Memory, Steps};
use std::alloc::Global;
use std::sync::ledger::Ledger;

impl Cuts {
    /// The table with a cut more before each of the points. One step for each.
    fn with_cuts<L: Ledger>(
        self,
        alloc: Global,
        points: &[Point],
        steps: &mut Steps<L>,
    ) -> Result<Cuts, Memory>
        ensures counts { IfOk result (λ c. (p : Point) → count_at c p ≡ count_at self p + count_in points.now p) }
        ensures blocks { IfOk result (λ c. c.blocks ≡ self.blocks) }
        ensures cost { steps.new ≤ steps.old + length points.now }
    {
        let mut now = self;
        for point in points {
            now = now.add(alloc, *point, steps)?;
        }
        Ok(now)
    }

    /// The table with a cut less before each of the points. One step for each.
    fn without_cuts<L: Ledger>(
        self,
        alloc: Global,
        points: &[Point],
        steps: &mut Steps<L>,
    ) -> Result<Cuts, Memory>
        requires { (p : Point) → count_in points.now p ≤ count_at self p }
        ensures counts { IfOk result (λ c. (p : Point) → count_at c p + count_in points.now p ≡ count_at self p) }
        ensures blocks { IfOk result (λ c. c.blocks ≡ self.blocks) }
        ensures cost { steps.new ≤ steps.old + length points.now }
    {
        let mut now = self;
        for point in points {
            now = now.remove(alloc, *point, steps)?;
        }
        Ok(now)
    }

    /// The table with the block of a hunk that begins with this point, if it has one. At most one step.
    fn with_block<L: Ledger>(
        self,
        alloc: Global,
        first: Point,
        hunk: &Hunk,
        steps: &mut Steps<L>,
    ) -> Result<Cuts, Memory>
        requires some { HasBytes hunk.now }
        requires low { first.offset + position_count hunk.now < 2 ^ 32 }
        requires free { (at : ℕ) → first.offset ≤ at → InNoBlock self first.change at }
        ensures blocks { IfOk result (λ c. (p : Point) → length_at c p ≡ length_at self p + block_at first hunk.now p) }
        ensures counts { IfOk result (λ c. c.counts ≡ self.counts) }
        ensures cost { steps.new ≤ steps.old + 1 }
    {
        match hunk {
            Hunk::Insert { bytes, .. } => {
                self.add_block(alloc, first, bytes.items().len() as u32, steps)
            }
            Hunk::File { .. }
            | Hunk::Dir { .. }
            | Hunk::NameOf { .. }
            | Hunk::Order { .. }
            | Hunk::Delete { .. }
            | Hunk::Revive { .. } => Ok(self),
        }
    }

    /// The table without the block of a hunk that begins with this point, if it has one. At most one step.
    fn without_block<L: Ledger>(
        self,
        alloc: Global,
        first: Point,
        hunk: &Hunk,
        steps: &mut Steps<L>,
    ) -> Result<Cuts, Memory>
        requires some { HasBytes hunk.now }
        requires there { 0 < block_here hunk.now first.offset first.offset → length_at self first ≡ block_here hunk.now first.offset first.offset }
        ensures blocks { IfOk result (λ c. (p : Point) → length_at c p + block_at first hunk.now p ≡ length_at self p) }
        ensures counts { IfOk result (λ c. c.counts ≡ self.counts) }
        ensures cost { steps.new ≤ steps.old + 1 }
    {
        match hunk {
            Hunk::Insert { .. } => self.remove_block(alloc, first, steps),
            Hunk::File { .. }
            | Hunk::Dir { .. }
            | Hunk::NameOf { .. }
            | Hunk::Order { .. }
            | Hunk::Delete { .. }
            | Hunk::Revive { .. } => Ok(self),
        }
    }

    /// The table with the blocks of a change, of which it has none. At most one step for each hunk.
    fn with_blocks<L: Ledger>(
        self,
        alloc: Global,
        record: &Record,
        steps: &mut Steps<L>,
    ) -> Result<Cuts, Memory>
        requires { (at : ℕ) → InNoBlock self «record».now.name at }
        ensures blocks { IfOk result (λ c. (p : Point) → length_at c p ≡ length_at self p + block_by «record».now p) }
        ensures counts { IfOk result (λ c. c.counts ≡ self.counts) }
        ensures cost { steps.new ≤ steps.old + length «record».now.change.hunks }
    {
        let mut now = self;
        let mut first = 0;
        for hunk in record.change.hunks.items() {
            let begin = Point {
                change: record.name,
                offset: first,
            };
            now = now.with_block(alloc, begin, hunk, steps)?;
            first += hunk.position_count() as u32;
        }
        Ok(now)
    }

    /// The table without the blocks of a change, which are there. At most one step for each hunk.
    fn without_blocks<L: Ledger>(
        self,
        alloc: Global,
        record: &Record,
        steps: &mut Steps<L>,
    ) -> Result<Cuts, Memory>
        requires { (at : ℕ) → length_at self (own_point «record».now at) ≡ block_length «record».now at }
        ensures blocks { IfOk result (λ c. (p : Point) → length_at c p + block_by «record».now p ≡ length_at self p) }
        ensures counts { IfOk result (λ c. c.counts ≡ self.counts) }
        ensures cost { steps.new ≤ steps.old + length «record».now.change.hunks }
    {
        let mut now = self;
        let mut first = 0;
        for hunk in record.change.hunks.items() {
            let begin = Point {
                change: record.name,
                offset: first,
            };
            now = now.without_block(alloc, begin, hunk, steps)?;
            first += hunk.position_count() as u32;
        }
        Ok(now)
    }

    /// The table of a set with this change too: its blocks and its cuts.
    ///
    /// At most one step for each hunk, and one for each cut.
    pub fn with_change<L: Ledger>(
        self,
        alloc: Global,
        record: &Record,
        steps: &mut Steps<L>,
    ) -> Result<Cuts, Memory>
        requires free { (at : ℕ) → InNoBlock self «record».now.name at }
        requires after { AllFitAfter «record».now }
        ensures set { IfOk result (λ c. (S : List Record) → AreCutsOf S self → AreCutsOf (S ++ «record».now ∷ []) c) }
        ensures counts { IfOk result (λ c. (p : Point) → count_at c p ≡ count_at self p + cuts_by «record».now p) }
        ensures blocks { IfOk result (λ c. (p : Point) → length_at c p ≡ length_at self p + block_by «record».now p) }
        ensures cost { steps.new ≤ steps.old + (length «record».now.change.hunks + length (all_cut_points «record».now)) }
    {
        let points = cut_points(alloc, record)?;
        let blocks = self.with_blocks(alloc, record, steps)?;
        let all = blocks.with_cuts(alloc, points.as_slice(), steps)?;
        Ok(all)
    }

    /// The table of a set without this change: without its blocks and its cuts, while others' cuts at the same points stay.
    ///
    /// At most one step for each hunk, and one for each cut.
    pub fn without_change<L: Ledger>(
        self,
        alloc: Global,
        record: &Record,
        steps: &mut Steps<L>,
    ) -> Result<Cuts, Memory>
        requires cuts { (p : Point) → cuts_by «record».now p ≤ count_at self p }
        requires blocks { (at : ℕ) → length_at self (own_point «record».now at) ≡ block_length «record».now at }
        requires after { AllFitAfter «record».now }
        ensures set { IfOk result (λ c. (before after : List Record) → AreCutsOf (before ++ «record».now ∷ after) self → AreCutsOf (before ++ after) c) }
        ensures counts { IfOk result (λ c. (p : Point) → count_at c p + cuts_by «record».now p ≡ count_at self p) }
        ensures blocks { IfOk result (λ c. (p : Point) → length_at c p + block_by «record».now p ≡ length_at self p) }
        ensures cost { steps.new ≤ steps.old + (length «record».now.change.hunks + length (all_cut_points «record».now)) }
    {
        let points = cut_points(alloc, record)?;
        let uncut = self.without_cuts(alloc, points.as_slice(), steps)?;
        let left = uncut.without_blocks(alloc, record, steps)?;
        Ok(left)
    }
}
