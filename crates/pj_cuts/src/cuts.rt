//! The table of cuts and blocks, and the vertices that stand between the cuts.

ghost use Rattle.std.specs.Prelude.{◌≡◌, ◌↔◌, ℕ, ◌+◌, ◌<◌, ◌≤◌, ◌^◌, IfOk, IsTrue, MatchOption, None, Some, [], false};
ghost use Rattle.pj_change.specs.declared.point.Point.{Point};
ghost use Rattle.pj_rows.specs.Keys.{AllCounted};
ghost use Rattle.pj_cuts.specs.Counted.{cut_cmp, count_at, length_at, only_at, at_offset, is_counted, InBlock, InNoBlock, IsFree};
ghost use Rattle.pj_cuts.specs.CountedVertices.{IsVertexAt, IsNextVertex, IsPastAll};
ghost use Rattle.pj_cuts.specs.Neighbours.{IsLastCut, IsNextCut, IsStart, IsEnd, IsNextBlock, IsFirstOfNext, NoBlockAfter};

use crate::keys::{CutAt, Length};
use pj_change::Point;
use pj_name::Name;
use pj_pmap::{Memory, PMap, Steps};
use pj_rows::{Count, count_at, lowered, raised};
use std::alloc::Global;
use std::marker::Model;
use std::sync::ledger::Ledger;

/// Cuts, counted by the point before which they stand, and the blocks that they cut.
pub struct Cuts {
    counts: PMap<CutAt, Count>,
    blocks: PMap<CutAt, Length>,
}

/// Written out and not derived: whoever lets go of one cites this proof, and proves nothing anew of its parts.
impl Drop for Cuts {
    fn drop(self) {
        let Cuts {
            counts: _counts,
            blocks: _blocks,
        } = self;
    }
}

impl Model for Cuts {
    ghost use Rattle.pj_cuts.specs.Counted.{Counted, IsCounted};

    ghost Value = { Counted };

    ghost view = { λ c. record { counts = c.counts; blocks = c.blocks } };

    ghost invariant = { λ c. IsCounted c.counts c.blocks };
}

impl Cuts {
    /// No cut and no block. It takes no memory.
    pub fn empty() -> Cuts
        ensures counts { result.counts ≡ [] }
        ensures blocks { result.blocks ≡ [] }
    {
        Cuts {
            counts: PMap::empty(),
            blocks: PMap::empty(),
        }
    }

    /// The same table for a second owner, in constant time.
    pub fn share(&self) -> Result<Cuts, Memory>
        ensures { IfOk result (λ c. c ≡ self.now) }
    {
        Ok(Cuts {
            counts: self.counts.share()?,
            blocks: self.blocks.share()?,
        })
    }

    /// The points before which at least one cut stands, each with its count. It takes no memory.
    pub fn counts(&self) -> &PMap<CutAt, Count>
        ensures same { result.now ≡ self.now.counts }
        ensures counted { AllCounted cut_cmp self.now.counts }
    {
        &self.counts
    }

    /// How many cuts stand before the point. It takes no memory.
    pub fn count(&self, at: Point) -> u128
        ensures { result ≡ count_at self.now at }
    {
        count_at(&self.counts, &CutAt { at })
    }

    /// One more cut before the point. One step.
    pub fn add<L: Ledger>(
        self,
        alloc: Global,
        at: Point,
        steps: &mut Steps<L>,
    ) -> Result<Cuts, Memory>
        ensures counts { IfOk result (λ c. (p : Point) → count_at c p ≡ count_at self p + only_at at 1 p) }
        ensures blocks { IfOk result (λ c. c.blocks ≡ self.blocks) }
        ensures cost { steps.new ≤ steps.old + 1 }
    {
        let Cuts { counts, blocks } = self;
        let counts = raised(alloc, counts, &CutAt { at }, steps)?;
        Ok(Cuts { counts, blocks })
    }

    /// One cut less before the point. One step.
    pub fn remove<L: Ledger>(
        self,
        alloc: Global,
        at: Point,
        steps: &mut Steps<L>,
    ) -> Result<Cuts, Memory>
        requires { 0 < count_at self at }
        ensures counts { IfOk result (λ c. (p : Point) → count_at c p + only_at at 1 p ≡ count_at self p) }
        ensures blocks { IfOk result (λ c. c.blocks ≡ self.blocks) }
        ensures cost { steps.new ≤ steps.old + 1 }
    {
        let Cuts { counts, blocks } = self;
        let counts = lowered(alloc, counts, &CutAt { at }, steps)?;
        Ok(Cuts { counts, blocks })
    }

    /// A block more, from its first point on, of `len` positions. One step.
    pub fn add_block<L: Ledger>(
        self,
        alloc: Global,
        first: Point,
        len: u32,
        steps: &mut Steps<L>,
    ) -> Result<Cuts, Memory>
        requires some { 0 < len }
        requires low { first.offset + len < 2 ^ 32 }
        requires free { IsFree self first.change first.offset (first.offset + len) }
        ensures blocks { IfOk result (λ c. (p : Point) → length_at c p ≡ length_at self p + only_at first len p) }
        ensures counts { IfOk result (λ c. c.counts ≡ self.counts) }
        ensures cost { steps.new ≤ steps.old + 1 }
    {
        let Cuts { counts, blocks } = self;
        let blocks = blocks.into_with(alloc, CutAt { at: first }, Length { len }, steps)?;
        Ok(Cuts { counts, blocks })
    }

    /// The block that begins with this point less. One step.
    pub fn remove_block<L: Ledger>(
        self,
        alloc: Global,
        first: Point,
        steps: &mut Steps<L>,
    ) -> Result<Cuts, Memory>
        requires { 0 < length_at self first }
        ensures blocks { IfOk result (λ c. (p : Point) → length_at c p + only_at first (length_at self first) p ≡ length_at self p) }
        ensures counts { IfOk result (λ c. c.counts ≡ self.counts) }
        ensures cost { steps.new ≤ steps.old + 1 }
    {
        let Cuts { counts, blocks } = self;
        let blocks = blocks.into_without(alloc, &CutAt { at: first }, steps)?;
        Ok(Cuts { counts, blocks })
    }

    /// The greatest position of the change that is not above this one and has a cut before it.
    fn last_cut(&self, at: Point) -> Option<u32>
        ensures { MatchOption result ((k : ℕ) → k ≤ at.offset → is_counted self.now at.change k ≡ false) (λ o. IsLastCut self.now at.change at.offset o) }
    {
        let (cut, _) = self.counts.floor(&CutAt { at })?;
        if cut.at.change != at.change {
            return None;
        }
        Some(cut.at.offset)
    }

    /// The least position of the change above this one that has a cut before it.
    fn next_cut(&self, at: Point) -> Option<u32>
        ensures { MatchOption result ((k : ℕ) → at.offset < k → is_counted self.now at.change k ≡ false) (λ o. IsNextCut self.now at.change at.offset o) }
    {
        let (cut, _) = self.counts.next_after(&CutAt { at })?;
        if cut.at.change != at.change {
            return None;
        }
        Some(cut.at.offset)
    }

    /// The block that has the point: its first position, and the one past it.
    pub fn block_of(&self, at: Point) -> Option<(u32, u32)>
        ensures { MatchOption result (InNoBlock self.now at.change at.offset) (λ r. InBlock self.now at.change at.offset r.0 r.1) }
    {
        let (first, length) = self.blocks.floor(&CutAt { at })?;
        if first.at.change != at.change {
            return None;
        }
        let past = first.at.offset + length.len;
        if past <= at.offset {
            return None;
        }
        Some((first.at.offset, past))
    }

    /// Where the vertex of the point begins, in the block that begins with `first`.
    fn start_in(&self, at: Point, first: u32) -> u32
        requires { first ≤ at.offset }
        ensures { IsStart self.now at.change at.offset first result }
    {
        if first == at.offset {
            return first;
        }
        match self.last_cut(at) {
            Some(cut) => { if first < cut { cut } else { first } }
            None => first,
        }
    }

    /// Where the vertex of the point ends, in the block that ends at `past`.
    fn end_in(&self, at: Point, past: u32) -> u32
        requires { at.offset < past }
        ensures { IsEnd self.now at.change at.offset past result }
    {
        if past == at.offset + 1 {
            return past;
        }
        match self.next_cut(at) {
            Some(cut) => { if cut < past { cut } else { past } }
            None => past,
        }
    }

    /// The range of the point's vertex, without its end; None exactly where no block has the point. It takes no memory.
    pub fn vertex_of(&self, at: Point) -> Option<(u32, u32)>
        ensures { MatchOption result (InNoBlock self.now at.change at.offset) (λ r. IsVertexAt self.now at.change at.offset r.0 r.1) }
    {
        let (first, past) = self.block_of(at)?;
        let start = self.start_in(at, first);
        let end = self.end_in(at, past);
        Some((start, end))
    }

    /// Where the vertex of the point begins; None exactly where no block has the point. It takes no memory.
    pub fn start_of(&self, at: Point) -> Option<u32>
        ensures { MatchOption result (InNoBlock self.now at.change at.offset) (λ start. (end : ℕ) × IsVertexAt self.now at.change at.offset start end) }
    {
        let (first, _) = self.block_of(at)?;
        Some(self.start_in(at, first))
    }

    /// Where the vertex of the point ends; None exactly where no block has the point. It takes no memory.
    pub fn end_of(&self, at: Point) -> Option<u32>
        ensures { MatchOption result (InNoBlock self.now at.change at.offset) (λ end. (start : ℕ) × IsVertexAt self.now at.change at.offset start end) }
    {
        let (_, past) = self.block_of(at)?;
        Some(self.end_in(at, past))
    }

    /// The next block of the change: its first position above this one, and the one past it.
    fn next_block(&self, at: Point) -> Option<(u32, u32)>
        ensures { MatchOption result (NoBlockAfter self.now at.change at.offset) (λ r. IsNextBlock self.now at.change at.offset r.0 r.1) }
    {
        let (first, length) = self.blocks.next_after(&CutAt { at })?;
        if first.at.change != at.change {
            return None;
        }
        let past = first.at.offset + length.len;
        Some((first.at.offset, past))
    }

    /// The first vertex of the next block.
    fn first_of_next(&self, at: Point) -> Option<(u32, u32)>
        ensures { MatchOption result (NoBlockAfter self.now at.change at.offset) (λ r. IsFirstOfNext self.now at.change at.offset r.0 r.1) }
    {
        let (first, past) = self.next_block(at)?;
        let end = self.end_in(
            Point {
                change: at.change,
                offset: first,
            },
            past,
        );
        Some((first, end))
    }

    /// The next cut of the change above this position and below that one.
    fn next_cut_below(&self, at: Point, past: u32) -> Option<u32>
        ensures { MatchOption result ((k : ℕ) → at.offset < k → k < past → is_counted self.now at.change k ≡ false) (λ o. IsNextCut self.now at.change at.offset o × (o < past)) }
    {
        let cut = self.next_cut(at)?;
        if past <= cut {
            return None;
        }
        Some(cut)
    }

    /// The first vertex from this position on, which a block has.
    fn next_inside(&self, at: Point, first: u32, past: u32) -> Option<(u32, u32)>
        requires { InBlock self.now at.change at.offset first past }
        ensures { MatchOption result (IsPastAll self.now at.change at.offset) (λ r. IsNextVertex self.now at.change at.offset r.0 r.1) }
    {
        let _ = &self.counts;
        if first == at.offset {
            let end = self.end_in(at, past);
            return Some((at.offset, end));
        }
        if self.count(at) != 0 {
            let end = self.end_in(at, past);
            return Some((at.offset, end));
        }
        if let Some(cut) = self.next_cut_below(at, past) {
            let end = self.end_in(
                Point {
                    change: at.change,
                    offset: cut,
                },
                past,
            );
            return Some((cut, end));
        }
        self.first_of_next(at)
    }

    /// The first vertex from this position on, which no block has.
    fn next_outside(&self, at: Point) -> Option<(u32, u32)>
        requires { InNoBlock self.now at.change at.offset }
        ensures { MatchOption result (IsPastAll self.now at.change at.offset) (λ r. IsNextVertex self.now at.change at.offset r.0 r.1) }
    {
        self.first_of_next(at)
    }

    /// The range of the first vertex of the change that begins at `from` or after it, without its end; None exactly where none does.
    /// It takes no memory.
    pub fn next(&self, change: Name, from: u32) -> Option<(u32, u32)>
        ensures { MatchOption result (IsPastAll self.now change from) (λ r. IsNextVertex self.now change from r.0 r.1) }
    {
        let at = Point {
            change,
            offset: from,
        };
        match self.block_of(at) {
            Some((first, past)) => self.next_inside(at, first, past),
            None => self.next_outside(at),
        }
    }
    /// Whether no block has a position of the change. It takes no memory.
    pub fn is_free_of(&self, change: Name) -> bool
        ensures { IsTrue result ↔ ((at : ℕ) → InNoBlock self.now change at) }
    {
        self.next(change, 0).is_none()
    }
}
