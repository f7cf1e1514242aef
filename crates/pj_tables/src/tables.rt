//! All tables of a list of changes, held together.

ghost use Rattle.std.specs.Prelude.{◌≡◌, ◌+◌, ◌*◌, ◌≤◌, ◌↔◌, IfOk, [], ◌∷◌, ◌++◌};
ghost use Rattle.std.specs.Arc.{arc_value};
ghost use Rattle.pj_change.specs.ContestCounts.{pairs_with};
ghost use Rattle.pj_change.specs.Lawful.{Follows, IsLawful};
ghost use Rattle.pj_change.specs.PseudoRows.{IsPseudoRow};
ghost use Rattle.pj_change.specs.Weight.{weight};
ghost use Rattle.pj_cuts.specs.CutsOf.{AreCutsOf};
ghost use Rattle.pj_states.specs.OfSets.{AreVersionsOf};
ghost use Rattle.pj_contest.specs.Contests.{AreHitsInOrder, IsContestsOf};
ghost use Rattle.pj_dead.specs.Pseudo as dead;
ghost use Rattle.pj_dead.specs.declared.row.PseudoRow.{PseudoRow as RowValue};
ghost use Rattle.pj_deps.specs.Dependents.{AreDepsOf};
ghost use Rattle.pj_edges.specs.OwnRows.{AreRowsOf};
ghost use Rattle.pj_outline.specs.OutlineOf.{IsOutlineOf};
ghost use Rattle.pj_tree.specs.TreeOf.{IsTreeOf};
ghost use Rattle.pj_view.specs.SetGraph.{graph_of};
ghost use Rattle.pj_view.specs.TouchedRows.{IsTouchedBy};
ghost use Rattle.pj_tables.specs.TablesOf.{AreTables};

use crate::application::{
    contests_with, deps_with, list_with, names_with, outline_with, pseudo_with, versions_with,
};
use pj_apply::Held;
use pj_change::{Memory, Record};
use pj_contest::{Contests, HunkAt};
use pj_cuts::Cuts;
use pj_dead::Pseudo;
use pj_dead::laws::rows_are_pseudo_rows;
use pj_deps::Deps;
use pj_edges::EdgeRows;
use pj_names::Tree;
use pj_names::laws::no_change_has_no_name;
use pj_outline::Outline;
use pj_pmap::Steps;
use pj_states::Versions;
use pj_view::laws::{graphs_are_views, graphs_are_whole, no_change_has_no_row};
use pj_view::{SetView, Touched};
use std::alloc::Global;
use std::marker::Model;
use std::sync::Arc;
use std::sync::ledger::Ledger;

/// The tables of a lawful list of changes. Other tables may share parts of them, which stay as they are whatever becomes of these.
///
/// Contracts see the list of the records.
pub struct Tables {
    pub(crate) list: Arc<Held>,
    pub(crate) outline: Arc<Outline>,
    pub(crate) versions: Arc<Versions>,
    pub(crate) contests: Arc<Contests>,
    pub(crate) deps: Arc<Deps>,
    pub(crate) names: Arc<Tree>,
    pub(crate) pseudo: Arc<Pseudo>,
}

/// Written out and not derived: whoever lets go of one cites this proof, and proves nothing anew of its parts.
impl Drop for Tables {
    fn drop(self) {
        let Tables {
            list: _list,
            outline: _outline,
            versions: _versions,
            contests: _contests,
            deps: _deps,
            names: _names,
            pseudo: _pseudo,
        } = self;
    }
}

impl Model for Tables {
    ghost use Rattle.std.specs.Prelude.{List};
    ghost use Rattle.std.specs.Arc.{arc_value};
    ghost use Rattle.pj_change.specs.declared.change.Record.{Record};
    ghost use Rattle.pj_tables.specs.TablesOf.{AreTables};

    ghost Value = { List Record };

    ghost view = { λ t. arc_value t.list };

    ghost invariant = { λ t. AreTables (arc_value t.list) (arc_value t.outline) (arc_value t.versions) (arc_value t.contests) (arc_value t.deps) (arc_value t.names) (arc_value t.pseudo) };
}

impl Tables {
    /// The tables of no change.
    pub fn empty(alloc: Global) -> Result<Tables, Memory>
        ensures { IfOk result (λ t. t ≡ []) }
    {
        no_change_has_no_name();
        no_change_has_no_row();
        let list = Arc::new(alloc, Held::empty())?;
        let outline = Arc::new(alloc, Outline::empty())?;
        let versions = Arc::new(alloc, Versions::empty())?;
        let contests = Arc::new(alloc, Contests::empty())?;
        let deps = Arc::new(alloc, Deps::empty())?;
        let names = Arc::new(alloc, Tree::empty())?;
        let pseudo = Arc::new(alloc, Pseudo::empty())?;
        Ok(Tables::of(list, outline, versions, contests, deps, names, pseudo))
    }

    /// The same tables for a second owner, in constant time. It takes no memory.
    pub fn share(&self) -> Result<Tables, Memory>
        ensures { IfOk result (λ t. t ≡ self.now) }
    {
        Ok(Tables {
            list: Arc::try_clone(&self.list)?,
            outline: Arc::try_clone(&self.outline)?,
            versions: Arc::try_clone(&self.versions)?,
            contests: Arc::try_clone(&self.contests)?,
            deps: Arc::try_clone(&self.deps)?,
            names: Arc::try_clone(&self.names)?,
            pseudo: Arc::try_clone(&self.pseudo)?,
        })
    }

    /// The tables of this list, which these parts are. It takes no memory.
    pub fn of(
        list: Arc<Held>,
        outline: Arc<Outline>,
        versions: Arc<Versions>,
        contests: Arc<Contests>,
        deps: Arc<Deps>,
        names: Arc<Tree>,
        pseudo: Arc<Pseudo>,
    ) -> Tables
        requires { AreTables (arc_value list) (arc_value outline) (arc_value versions) (arc_value contests) (arc_value deps) (arc_value names) (arc_value pseudo) }
        ensures { result ≡ arc_value list }
    {
        Tables {
            list,
            outline,
            versions,
            contests,
            deps,
            names,
            pseudo,
        }
    }

    /// The tables of the list with the change behind it, which contests these hunks of the list and touches this there. `held` is the
    /// change as the list is to hold it.
    pub(crate) fn followed_by<L: Ledger>(
        self,
        alloc: Global,
        change: &Record,
        held: &Arc<Record>,
        hits: &[HunkAt],
        touched: &Touched,
        steps: &mut Steps<L>,
    ) -> Result<Tables, Memory>
        requires held { arc_value held.now ≡ change.now }
        requires follows { Follows self change.now }
        requires hits { AreHitsInOrder self change.now hits.now }
        requires touched { IsTouchedBy self change.now touched.now }
        ensures list { IfOk result (λ t. t ≡ self ++ change.now ∷ []) }
        ensures cost { steps.new ≤ steps.old + (22 * weight change.now + 4 * pairs_with self change.now + 3) }
    {
        let Tables {
            list,
            outline,
            versions,
            contests,
            deps,
            names,
            pseudo,
        } = self;
        let before: &Held = &list;
        let contests = contests_with(alloc, before, contests, change, hits, steps)?;
        let names = names_with(alloc, before, &names, change, steps)?;
        let outline = outline_with(alloc, before, outline, change, steps)?;
        let versions = versions_with(alloc, before, versions, change, steps)?;
        let deps = deps_with(alloc, before, deps, change, steps)?;
        let list = list_with(alloc, list, held, steps)?;
        let pseudo = pseudo_with(
            alloc, pseudo, touched, &list, &outline, &versions, &contests,
        )?;
        Ok(Tables::of(list, outline, versions, contests, deps, names, pseudo))
    }

    /// The changes, in their order.
    pub fn list(&self) -> &Held
        ensures same { result.now ≡ self.now }
        ensures lawful { IsLawful self.now }
    {
        &self.list
    }

    /// Where the text of the list is cut, and which edges it has.
    pub fn outline(&self) -> &Outline
        ensures { IsOutlineOf self.now result.now }
    {
        &self.outline
    }

    /// Where the text of the list is cut, counted, and the blocks that are cut.
    pub fn cuts(&self) -> &Cuts
        ensures { AreCutsOf self.now result.now }
    {
        let outline = self.outline();
        &outline.cuts
    }

    /// The edges of the list, without their statuses.
    pub fn edges(&self) -> &EdgeRows
        ensures { AreRowsOf self.now result.now }
    {
        let outline = self.outline();
        &outline.edges
    }

    /// What the hunks of the list delete and revive, with the surviving versions.
    pub fn versions(&self) -> &Versions
        ensures { AreVersionsOf self.now result.now }
    {
        &self.versions
    }

    /// Which `delete` hunks of the list are contested, and by how many changes.
    pub fn contests(&self) -> &Contests
        ensures { IsContestsOf self.now result.now }
    {
        &self.contests
    }

    /// Which changes the list has, and who needs whom.
    pub fn deps(&self) -> &Deps
        ensures { AreDepsOf self.now result.now }
    {
        &self.deps
    }

    /// The names and the inodes of the list.
    pub fn names(&self) -> &Tree
        ensures { IsTreeOf self.now result.now }
    {
        &self.names
    }

    /// The rows that join live text across dead text: the pseudo rows of the list.
    pub fn pseudo(&self) -> &Pseudo
        ensures rows { dead.AreRowsOf (graph_of self.now) result.now }
        ensures pseudo { (row : RowValue) → dead.HasRow result.now row ↔ IsPseudoRow self.now row.least row.source row.target }
    {
        rows_are_pseudo_rows();
        graphs_are_whole();
        graphs_are_views();
        let _list = self.list();
        &self.pseudo
    }

    /// The text of the list and the inodes of its files as a graph. It takes no memory.
    pub fn view(&self) -> SetView<'_>
        ensures { result ≡ self.now }
    {
        let list = self.list();
        SetView::of(list, self.outline(), self.versions(), self.contests())
    }
}
