//! The outline of a list of changes, and that with a change more or less.

ghost use Rattle.std.specs.Prelude.{◌≡◌, ◌+◌, ◌*◌, ◌≤◌, IfOk, length, List, [], ◌∷◌, ◌++◌};
ghost use Rattle.pj_change.specs.declared.change.Record.{Record};
ghost use Rattle.pj_change.specs.Lawful.{IsLawful, Follows};
ghost use Rattle.pj_cuts.specs.CutsOf.{all_cut_points};
ghost use Rattle.pj_edges.specs.OwnRows.{rows_of};
ghost use Rattle.pj_outline.specs.OutlineOf.{IsOutlineOf, MayTake, MayLose};

use crate::inner::{inner_rows, inside, uncut};
use pj_change::Record;
use pj_cuts::{Cuts, cut_points};
use pj_edges::{EdgeRows, own_rows};
use pj_pmap::{Memory, Steps};
use std::alloc::Global;
use std::sync::ledger::Ledger;

/// Where the text of a channel is cut, and which edges it has.
pub struct Outline {
    pub cuts: Cuts,
    pub edges: EdgeRows,
}

/// Written out and not derived: whoever lets go of one cites this proof, and proves nothing anew of its parts.
impl Drop for Outline {
    fn drop(self) {
        let Outline {
            cuts: _cuts,
            edges: _edges,
        } = self;
    }
}

impl Outline {
    /// That of no change. It takes no memory.
    pub fn empty() -> Outline
        ensures { IsOutlineOf [] result }
    {
        Outline {
            cuts: Cuts::empty(),
            edges: EdgeRows::empty(),
        }
    }

    /// The same outline for a second owner, in constant time.
    pub fn share(&self) -> Result<Outline, Memory>
        ensures { IfOk result (λ o. o ≡ self.now) }
    {
        Ok(Outline {
            cuts: self.cuts.share()?,
            edges: self.edges.share()?,
        })
    }

    /// The outline of a lawful list with a change that may follow it.
    ///
    /// A step for each hunk, at most three for each cut, and two for each row that the change gives by itself.
    pub fn with_change<L: Ledger>(
        self,
        alloc: Global,
        record: &Record,
        steps: &mut Steps<L>,
    ) -> Result<Outline, Memory>
        requires { MayTake self «record».now }
        ensures set { IfOk result (λ o. (list : List Record) → IsLawful list → Follows list «record».now → IsOutlineOf list self → IsOutlineOf (list ++ «record».now ∷ []) o) }
        ensures cost { steps.new ≤ steps.old + (length «record».now.change.hunks + 3 * length (all_cut_points «record».now) + 2 * length (rows_of «record».now)) }
    {
        let Outline { cuts, edges } = self;
        let points = cut_points(alloc, record)?;
        let fresh = uncut(alloc, &cuts, points.as_slice())?;
        let cuts = cuts.with_change(alloc, record, steps)?;
        let parts = inside(alloc, &cuts, fresh.as_slice())?;
        let inner = inner_rows(alloc, parts.as_slice())?;
        let own = own_rows(alloc, record)?;
        let parted = edges.with_rows(alloc, inner.as_slice(), steps)?;
        let edges = parted.with_rows(alloc, own.as_slice(), steps)?;
        Ok(Outline { cuts, edges })
    }

    /// The outline of a lawful list without a change that no other one of it needs.
    ///
    /// A step for each hunk, at most three for each cut, and two for each row that the change gives by itself.
    pub fn without_change<L: Ledger>(
        self,
        alloc: Global,
        record: &Record,
        steps: &mut Steps<L>,
    ) -> Result<Outline, Memory>
        requires { MayLose self «record».now }
        ensures set { IfOk result (λ o. (before after : List Record) → IsLawful (before ++ «record».now ∷ after) → IsLawful (before ++ after) →
            IsOutlineOf (before ++ «record».now ∷ after) self → IsOutlineOf (before ++ after) o) }
        ensures cost { steps.new ≤ steps.old + (length «record».now.change.hunks + 3 * length (all_cut_points «record».now) + 2 * length (rows_of «record».now)) }
    {
        let Outline { cuts, edges } = self;
        let points = cut_points(alloc, record)?;
        let parts = inside(alloc, &cuts, points.as_slice())?;
        let cuts = cuts.without_change(alloc, record, steps)?;
        let gone = uncut(alloc, &cuts, parts.as_slice())?;
        let inner = inner_rows(alloc, gone.as_slice())?;
        let own = own_rows(alloc, record)?;
        let joined = edges.without_rows(alloc, inner.as_slice(), steps)?;
        let edges = joined.without_rows(alloc, own.as_slice(), steps)?;
        Ok(Outline { cuts, edges })
    }
}
