//! Operations on cuts. A point is two numbers, its change and its position.
//!
//! | Line | Answer |
//! |---|---|
//! | `cblock POINT LENGTH` | adds a block; `no` where a block has one of its positions, or it is empty or longer than 64 |
//! | `cunblock POINT` | takes the block away that begins there; `no` where none does |
//! | `cadd POINT`, `cremove POINT` | one cut more, or one less; `no` where there is none |
//! | `ccount POINT` | the count |
//! | `cvertex POINT`, `cnext POINT` | the vertex, as `range START END`, or `none` |

ghost use Rattle.std.specs.Prelude.{◌≡◌, ◌<◌, ◌≤◌, ◌^◌, ◌+◌, ℕ, IsTrue};
ghost use Rattle.pj_cuts.specs.Counted.{length_at, InNoBlock};

use crate::operations::numbers::{number, point, put_done, put_range, put_word};
use pj_change::Point;
use pj_cuts::Cuts;
use pj_pmap::{Memory, Steps};
use pj_scan::Scan;
use std::alloc::Global;
use std::mem;
use std::sync::ledger::Ledger;

/// A table of cuts.
#[derive(Drop)]
pub struct CutCases {
    cuts: Cuts,
}

/// Whether no block has a position from `first` up to `past`.
fn is_free(cuts: &Cuts, first: Point, past: u32) -> bool
    ensures { IsTrue result → (at : ℕ) → first.offset ≤ at → at < past → InNoBlock cuts.now first.change at }
{
    for offset in first.offset..past {
        let at = Point {
            change: first.change,
            offset,
        };
        if cuts.block_of(at).is_some() {
            return false;
        }
    }
    true
}

/// Whether a block begins there.
fn begins(cuts: &Cuts, first: Point) -> bool
    ensures { IsTrue result → 0 < length_at cuts.now first }
{
    match cuts.block_of(first) {
        Some((start, _)) => start == first.offset,
        None => false,
    }
}

impl CutCases {
    pub fn empty() -> CutCases {
        CutCases {
            cuts: Cuts::empty(),
        }
    }

    /// The table, with none in its place.
    fn give_up(&mut self) -> Cuts
        ensures { result ≡ self.old.cuts }
    {
        mem::replace(&mut self.cuts, Cuts::empty())
    }

    /// Adds a block, if it may come, and says whether it may.
    fn add_block<L: Ledger>(
        &mut self,
        alloc: Global,
        first: Point,
        length: u32,
        steps: &mut Steps<L>,
    ) -> Result<bool, Memory> {
        if length == 0 || length > 64 || first.offset > 1_000_000 {
            return Ok(false);
        }
        if !is_free(&self.cuts, first, first.offset + length) {
            return Ok(false);
        }
        self.cuts = self.give_up().add_block(alloc, first, length, steps)?;
        Ok(true)
    }

    /// Takes the block away that begins there, if there is one, and says whether there is.
    fn remove_block<L: Ledger>(
        &mut self,
        alloc: Global,
        first: Point,
        steps: &mut Steps<L>,
    ) -> Result<bool, Memory> {
        if !begins(&self.cuts, first) {
            return Ok(false);
        }
        self.cuts = self.give_up().remove_block(alloc, first, steps)?;
        Ok(true)
    }

    /// Takes a cut away, if there is one, and says whether there is.
    fn remove<L: Ledger>(
        &mut self,
        alloc: Global,
        at: Point,
        steps: &mut Steps<L>,
    ) -> Result<bool, Memory> {
        if self.cuts.count(at) == 0 {
            return Ok(false);
        }
        self.cuts = self.give_up().remove(alloc, at, steps)?;
        Ok(true)
    }

    pub fn answer<L: Ledger>(
        &mut self,
        alloc: Global,
        word: &[u8],
        line: &mut Scan,
        steps: &mut Steps<L>,
        out: &mut Vec<u8>,
    ) -> Result<(), Memory> {
        let at = point(line);
        match word {
            b"block" => {
                let length = number(line);
                put_done(out, self.add_block(alloc, at, length, steps)?)
            }
            b"unblock" => put_done(out, self.remove_block(alloc, at, steps)?),
            b"add" => {
                self.cuts = self.give_up().add(alloc, at, steps)?;
                put_word(out, b"ok")
            }
            b"remove" => put_done(out, self.remove(alloc, at, steps)?),
            b"count" => {
                let text = format!(in alloc; "count {}\n", self.cuts.count(at))?;
                out.extend_from_slice(text.as_bytes())?;
                Ok(())
            }
            b"vertex" => put_range(alloc, out, self.cuts.vertex_of(at)),
            b"next" => put_range(alloc, out, self.cuts.next(at.change, at.offset)),
            _ => Ok(()),
        }
    }
}
