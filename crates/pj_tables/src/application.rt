//! The tables with one change more.

ghost use Rattle.std.specs.Prelude.{◌≡◌, ◌+◌, ◌*◌, ◌≤◌, IfOk, false, List, length, [], ◌∷◌, ◌++◌};
ghost use Rattle.std.specs.Arc.{arc_value};
ghost use Rattle.pj_change.specs.declared.change.Record.{Record as RecordValue};
ghost use Rattle.pj_change.specs.Lawful.{is_held, Follows, IsLawful};
ghost use Rattle.pj_change.specs.ContestCounts.{pairs_with};
ghost use Rattle.pj_apply.specs.StepBounds.{change_bound};
ghost use Rattle.pj_cuts.specs.CutsOf.{all_cut_points};
ghost use Rattle.pj_edges.specs.OwnRows.{rows_of};
ghost use Rattle.pj_outline.specs.OutlineOf.{IsOutlineOf};
ghost use Rattle.pj_states.specs.Given.{change_steps};
ghost use Rattle.pj_states.specs.OfSets.{AreVersionsOf};
ghost use Rattle.pj_contest.specs.Contests.{AreHits, AreHitsInOrder, IsContestsOf};
ghost use Rattle.pj_contest.specs.Given.{size_of};
ghost use Rattle.pj_deps.specs.Dependents.{AreDepsOf};
ghost use Rattle.pj_tree.specs.TreeOf.{IsTreeOf};
ghost use Rattle.pj_dead.specs.Pseudo.{AreRowsOf};
ghost use Rattle.pj_view.specs.Parts.{AreParts};
ghost use Rattle.pj_view.specs.SetGraph.{graph_of};
ghost use Rattle.pj_view.specs.Touched.{HasOneMore};
ghost use Rattle.pj_view.specs.TouchedRows.{IsTouchedBy};

use crate::parts::owned;
use crate::tables::Tables;
use pj_apply::{Held, HeldPeers};
use pj_change::{Memory, Record};
use pj_contest::laws::contests_are_of_the_set;
use pj_contest::{Contests, HunkAt};
use pj_dead::Pseudo;
use pj_deps::Deps;
use pj_names::{Tree, with_change};
use pj_outline::Outline;
use pj_pmap::Steps;
use pj_states::Versions;
use pj_states::laws::nothing_is_said_by_others;
use pj_view::{SetView, Touched, rows_with, touched_by};
use std::alloc::Global;
use std::sync::Arc;
use std::sync::ledger::Ledger;

/// The hunks of the list that a change contests which is to follow it, each once, in order.
fn hits_of(alloc: Global, tables: &Tables, change: &Record) -> Result<Vec<HunkAt>, Memory>
    requires { Follows tables.now change.now }
    ensures { IfOk result (λ hits. AreHitsInOrder tables.now change.now hits.items) }
{
    let list = tables.list();
    let peers = list.peers();
    let hits = tables.contests().hits(alloc, change, &peers);
    let HeldPeers { held: _ } = peers;
    hits
}

/// What a change that is to follow the list, of which it contests these hunks, touches there.
fn touched_in(
    alloc: Global,
    tables: &Tables,
    change: &Record,
    contested: &[HunkAt],
) -> Result<Touched, Memory>
    requires follows { Follows tables.now change.now }
    requires contested { AreHits tables.now change.now contested.now }
    ensures { IfOk result (IsTouchedBy tables.now change.now) }
{
    touched_by(alloc, &tables.view(), change, contested)
}

/// The contested hunks of the list with the change behind it, from those of the list, of which it contests these.
pub(crate) fn contests_with<L: Ledger>(
    alloc: Global,
    list: &Held,
    contests: Arc<Contests>,
    change: &Record,
    hits: &[HunkAt],
    steps: &mut Steps<L>,
) -> Result<Arc<Contests>, Memory>
    requires lawful { IsLawful list.now }
    requires follows { Follows list.now change.now }
    requires table { IsContestsOf list.now (arc_value contests) }
    requires hits { AreHitsInOrder list.now change.now hits.now }
    ensures set { IfOk result (λ p. IsContestsOf (list.now ++ change.now ∷ []) (arc_value p)) }
    ensures cost { steps.new ≤ steps.old + 4 * (size_of change.now + pairs_with list.now change.now) }
{
    contests_are_of_the_set();
    let before = owned(contests)?;
    let peers = list.peers();
    let contests = before.with(alloc, change, &peers, hits, steps);
    let HeldPeers { held: _ } = peers;
    let contests = contests?;
    let shared = Arc::new(alloc, contests)?;
    Ok(shared)
}

/// The names and the inodes of that list.
pub(crate) fn names_with<L: Ledger>(
    alloc: Global,
    list: &Held,
    names: &Tree,
    change: &Record,
    steps: &mut Steps<L>,
) -> Result<Arc<Tree>, Memory>
    requires lawful { IsLawful list.now }
    requires follows { Follows list.now change.now }
    requires table { IsTreeOf list.now names.now }
    ensures set { IfOk result (λ p. IsTreeOf (list.now ++ change.now ∷ []) (arc_value p)) }
    ensures cost { steps.new ≤ steps.old + 2 * length change.now.change.hunks }
{
    let peers = list.peers();
    let names = with_change(alloc, names, change, &peers, steps);
    let HeldPeers { held: _ } = peers;
    let names = names?;
    let shared = Arc::new(alloc, names)?;
    Ok(shared)
}

/// The cuts and the edges of that list.
pub(crate) fn outline_with<L: Ledger>(
    alloc: Global,
    _list: &Held,
    outline: Arc<Outline>,
    change: &Record,
    steps: &mut Steps<L>,
) -> Result<Arc<Outline>, Memory>
    requires lawful { IsLawful _list.now }
    requires follows { Follows _list.now change.now }
    requires table { IsOutlineOf _list.now (arc_value outline) }
    ensures set { IfOk result (λ p. IsOutlineOf (_list.now ++ change.now ∷ []) (arc_value p)) }
    ensures cost { steps.new ≤ steps.old + (length change.now.change.hunks + 3 * length (all_cut_points change.now) + 2 * length (rows_of change.now)) }
{
    let before = owned(outline)?;
    let outline = before.with_change(alloc, change, steps)?;
    let shared = Arc::new(alloc, outline)?;
    Ok(shared)
}

/// What the hunks of that list delete and revive.
pub(crate) fn versions_with<L: Ledger>(
    alloc: Global,
    _list: &Held,
    versions: Arc<Versions>,
    change: &Record,
    steps: &mut Steps<L>,
) -> Result<Arc<Versions>, Memory>
    requires follows { Follows _list.now change.now }
    requires table { AreVersionsOf _list.now (arc_value versions) }
    ensures set { IfOk result (λ p. AreVersionsOf (_list.now ++ change.now ∷ []) (arc_value p)) }
    ensures cost { steps.new ≤ steps.old + change_steps change.now }
{
    nothing_is_said_by_others();
    let before = owned(versions)?;
    let versions = before.with_change(alloc, change, steps)?;
    let shared = Arc::new(alloc, versions)?;
    Ok(shared)
}

/// Which changes that list has, and who needs whom.
pub(crate) fn deps_with<L: Ledger>(
    alloc: Global,
    _list: &Held,
    deps: Arc<Deps>,
    change: &Record,
    steps: &mut Steps<L>,
) -> Result<Arc<Deps>, Memory>
    requires table { AreDepsOf _list.now (arc_value deps) }
    ensures set { IfOk result (λ p. AreDepsOf (_list.now ++ change.now ∷ []) (arc_value p)) }
    ensures cost { steps.new ≤ steps.old + (1 + length change.now.change.needs) }
{
    let before = owned(deps)?;
    let deps = before.with(alloc, change, steps)?;
    let shared = Arc::new(alloc, deps)?;
    Ok(shared)
}

/// The list with the change behind it, where none of its name is there.
pub(crate) fn list_with<L: Ledger>(
    alloc: Global,
    list: Arc<Held>,
    change: &Arc<Record>,
    steps: &mut Steps<L>,
) -> Result<Arc<Held>, Memory>
    requires { is_held (arc_value list) (arc_value change.now).name ≡ false }
    ensures same { IfOk result (λ p. arc_value p ≡ arc_value list ++ arc_value change.now ∷ []) }
    ensures cost { steps.new ≤ steps.old + 2 }
{
    let before = owned(list)?;
    let list = before.with(alloc, change, steps)?;
    let shared = Arc::new(alloc, list)?;
    Ok(shared)
}

/// The pseudo rows of this list, of which these are tables, from those of a list without a change and what the change touches there.
pub(crate) fn pseudo_with(
    alloc: Global,
    pseudo: Arc<Pseudo>,
    touched: &Touched,
    list: &Held,
    outline: &Outline,
    versions: &Versions,
    contests: &Contests,
) -> Result<Arc<Pseudo>, Memory>
    requires { AreParts list.now outline.now versions.now contests.now }
    ensures { IfOk result (λ p. (S : List RecordValue) (c : RecordValue) → IsLawful S → HasOneMore S list.now c → IsTouchedBy S c touched.now →
        AreRowsOf (graph_of S) (arc_value pseudo) → AreRowsOf (graph_of list.now) (arc_value p)) }
{
    let with = SetView::of(list, outline, versions, contests);
    let before = owned(pseudo)?;
    let pseudo = rows_with(alloc, before, touched, &with)?;
    let shared = Arc::new(alloc, pseudo)?;
    Ok(shared)
}

/// The tables of the list with this change at its end: it is not held, its needs are, and each of its hunks has its context.
///
/// The tables are given up, and changed where they lie, as far as nobody else has them: who keeps them shares them before.
/// At most 64 steps for each hunk, reference, need and name under a `by` of the change, for each pair of a contested hunk and a
/// change that contests it that it brings, and for the change itself.
pub fn applied<L: Ledger>(
    alloc: Global,
    tables: Tables,
    change: &Arc<Record>,
    steps: &mut Steps<L>,
) -> Result<Tables, Memory>
    requires { Follows tables (arc_value change.now) }
    ensures list { IfOk result (λ t. t ≡ tables ++ arc_value change.now ∷ []) }
    ensures cost { steps.new ≤ steps.old + change_bound tables (arc_value change.now) }
{
    let added: &Record = change;
    let hits = hits_of(alloc, &tables, added)?;
    let touched = touched_in(alloc, &tables, added, &hits)?;
    tables.followed_by(alloc, added, change, &hits, &touched, steps)
}
