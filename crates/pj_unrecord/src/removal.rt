//! Each table of a list without one change, and all of them together.

ghost use Rattle.std.specs.Prelude.{◌≡◌, ◌+◌, ◌*◌, ◌≤◌, IfOk, Some, length};
ghost use Rattle.std.specs.Arc.{arc_value};
ghost use Rattle.pj_change.specs.Lawful.{record_of};
ghost use Rattle.pj_change.specs.Unrecord as fewer;
ghost use Rattle.pj_change.specs.Unrecord.{MayLeave};
ghost use Rattle.pj_change.specs.Weight.{weight};
ghost use Rattle.pj_change.specs.ContestCounts.{pairs_with};
ghost use Rattle.pj_apply.specs.StepBounds.{unrecord_bound};
ghost use Rattle.pj_cuts.specs.CutsOf.{all_cut_points};
ghost use Rattle.pj_edges.specs.OwnRows.{rows_of};
ghost use Rattle.pj_outline.specs.OutlineOf.{IsOutlineOf};
ghost use Rattle.pj_states.specs.Given.{change_steps};
ghost use Rattle.pj_states.specs.OfSets.{AreVersionsOf};
ghost use Rattle.pj_contest.specs.Contests.{AreHits, AreHitsInOrder, IsContestsOf};
ghost use Rattle.pj_contest.specs.Given.{size_of};
ghost use Rattle.pj_deps.specs.Dependents.{AreDepsOf};
ghost use Rattle.pj_tree.specs.TreeOf.{IsTreeOf};
ghost use Rattle.pj_dead.specs.Pseudo.{AreRowsOf};
ghost use Rattle.pj_view.specs.Parts.{AreParts};
ghost use Rattle.pj_view.specs.SetGraph.{graph_of};
ghost use Rattle.pj_view.specs.Touched.{HasOneMore};

use pj_apply::{Held, HeldPeers};
use pj_change::{Memory, Record};
use pj_contest::laws::contests_are_of_the_set;
use pj_contest::{Contests, HunkAt};
use pj_dead::Pseudo;
use pj_deps::Deps;
use pj_name::Name;
use pj_names::{Tree, without_change};
use pj_outline::Outline;
use pj_pmap::Steps;
use pj_states::Versions;
use pj_tables::Tables;
use pj_view::{SetView, rows_without};
use std::alloc::Global;
use std::sync::Arc;
use std::sync::ledger::Ledger;

/// The cuts and the edges of this list, which has the changes of `tables` but for this one.
fn outline_without<L: Ledger>(
    alloc: Global,
    tables: &Tables,
    change: &Record,
    list: &Held,
    steps: &mut Steps<L>,
) -> Result<Arc<Outline>, Memory>
    requires there { record_of tables.now change.now.name ≡ Some change.now }
    requires free { MayLeave tables.now change.now.name }
    requires list { list.now ≡ fewer.without tables.now change.now.name }
    ensures set { IfOk result (λ p. IsOutlineOf list.now (arc_value p)) }
    ensures cost { steps.new ≤ steps.old + (length change.now.change.hunks + 3 * length (all_cut_points change.now) + 2 * length (rows_of change.now)) }
{
    let _before = tables.list();
    let before = tables.outline().share()?;
    let outline = before.without_change(alloc, change, steps)?;
    let shared = Arc::new(alloc, outline)?;
    Ok(shared)
}

/// What the hunks of this list delete and revive.
fn versions_without<L: Ledger>(
    alloc: Global,
    tables: &Tables,
    change: &Record,
    list: &Held,
    steps: &mut Steps<L>,
) -> Result<Arc<Versions>, Memory>
    requires there { record_of tables.now change.now.name ≡ Some change.now }
    requires free { MayLeave tables.now change.now.name }
    requires list { list.now ≡ fewer.without tables.now change.now.name }
    ensures set { IfOk result (λ p. AreVersionsOf list.now (arc_value p)) }
    ensures cost { steps.new ≤ steps.old + change_steps change.now }
{
    let _before = tables.list();
    let before = tables.versions().share()?;
    let versions = before.without_change(alloc, change, steps)?;
    let shared = Arc::new(alloc, versions)?;
    Ok(shared)
}

/// The hunks of this list that the change contests, each once, in order.
fn hits_of(
    alloc: Global,
    tables: &Tables,
    change: &Record,
    list: &Held,
) -> Result<Vec<HunkAt>, Memory>
    requires there { record_of tables.now change.now.name ≡ Some change.now }
    requires free { MayLeave tables.now change.now.name }
    requires list { list.now ≡ fewer.without tables.now change.now.name }
    ensures { IfOk result (λ hits. AreHitsInOrder list.now change.now hits.items) }
{
    contests_are_of_the_set();
    let _before = tables.list();
    let peers = list.peers();
    let hits = tables.contests().hits_without(alloc, change, &peers);
    let HeldPeers { held: _ } = peers;
    hits
}

/// The contested hunks of this list, of which the change contests these.
fn contests_without<L: Ledger>(
    alloc: Global,
    tables: &Tables,
    change: &Record,
    list: &Held,
    hits: &[HunkAt],
    steps: &mut Steps<L>,
) -> Result<Arc<Contests>, Memory>
    requires there { record_of tables.now change.now.name ≡ Some change.now }
    requires free { MayLeave tables.now change.now.name }
    requires list { list.now ≡ fewer.without tables.now change.now.name }
    requires hits { AreHitsInOrder list.now change.now hits.now }
    ensures set { IfOk result (λ p. IsContestsOf list.now (arc_value p)) }
    ensures cost { steps.new ≤ steps.old + 4 * (size_of change.now + pairs_with list.now change.now) }
{
    contests_are_of_the_set();
    let _before = tables.list();
    let before = tables.contests().share()?;
    let peers = list.peers();
    let contests = before.without(alloc, change, &peers, hits, steps);
    let HeldPeers { held: _ } = peers;
    let contests = contests?;
    let shared = Arc::new(alloc, contests)?;
    Ok(shared)
}

/// The names and the inodes of this list.
fn names_without<L: Ledger>(
    alloc: Global,
    tables: &Tables,
    change: &Record,
    list: &Held,
    steps: &mut Steps<L>,
) -> Result<Arc<Tree>, Memory>
    requires there { record_of tables.now change.now.name ≡ Some change.now }
    requires free { MayLeave tables.now change.now.name }
    requires list { list.now ≡ fewer.without tables.now change.now.name }
    ensures set { IfOk result (λ p. IsTreeOf list.now (arc_value p)) }
    ensures cost { steps.new ≤ steps.old + 2 * length change.now.change.hunks }
{
    let _before = tables.list();
    let peers = list.peers();
    let names = without_change(alloc, tables.names(), change, &peers, steps);
    let HeldPeers { held: _ } = peers;
    let names = names?;
    let shared = Arc::new(alloc, names)?;
    Ok(shared)
}

/// Which changes this list has, and who needs whom.
fn deps_without<L: Ledger>(
    alloc: Global,
    tables: &Tables,
    change: &Record,
    list: &Held,
    steps: &mut Steps<L>,
) -> Result<Arc<Deps>, Memory>
    requires there { record_of tables.now change.now.name ≡ Some change.now }
    requires free { MayLeave tables.now change.now.name }
    requires list { list.now ≡ fewer.without tables.now change.now.name }
    ensures set { IfOk result (λ p. AreDepsOf list.now (arc_value p)) }
    ensures cost { steps.new ≤ steps.old + (1 + length change.now.change.needs) }
{
    let _before = tables.list();
    let before = tables.deps().share()?;
    let deps = before.without(alloc, change, steps)?;
    let shared = Arc::new(alloc, deps)?;
    Ok(shared)
}

/// The pseudo rows of this list, which has the changes of `tables` but for this one, and of which these are tables. The change contests
/// these hunks of it.
fn pseudo_without(
    alloc: Global,
    tables: &Tables,
    change: &Record,
    list: &Held,
    outline: &Outline,
    versions: &Versions,
    contests: &Contests,
    contested: &[HunkAt],
) -> Result<Arc<Pseudo>, Memory>
    requires more { HasOneMore list.now tables.now change.now }
    requires contested { AreHits list.now change.now contested.now }
    requires parts { AreParts list.now outline.now versions.now contests.now }
    ensures { IfOk result (λ p. AreRowsOf (graph_of list.now) (arc_value p)) }
{
    let without = SetView::of(list, outline, versions, contests);
    let before = tables.pseudo().share()?;
    let pseudo = rows_without(alloc, before, &tables.view(), &without, change, contested)?;
    let shared = Arc::new(alloc, pseudo)?;
    Ok(shared)
}

/// The tables of this list, which has the changes of `tables` but for this one.
fn tables_without<L: Ledger>(
    alloc: Global,
    tables: &Tables,
    change: &Record,
    list: Arc<Held>,
    steps: &mut Steps<L>,
) -> Result<Tables, Memory>
    requires there { record_of tables.now change.now.name ≡ Some change.now }
    requires free { MayLeave tables.now change.now.name }
    requires list { arc_value list ≡ fewer.without tables.now change.now.name }
    ensures list { IfOk result (λ t. t ≡ arc_value list) }
    ensures cost { steps.new ≤ steps.old + (22 * weight change.now + 4 * pairs_with (arc_value list) change.now + 1) }
{
    let _before = tables.list();
    let left = &*list;
    let hits = hits_of(alloc, tables, change, left)?;
    let outline = outline_without(alloc, tables, change, left, steps)?;
    let versions = versions_without(alloc, tables, change, left, steps)?;
    let contests = contests_without(alloc, tables, change, left, &hits, steps)?;
    let names = names_without(alloc, tables, change, left, steps)?;
    let deps = deps_without(alloc, tables, change, left, steps)?;
    let pseudo = pseudo_without(
        alloc, tables, change, left, &outline, &versions, &contests, &hits,
    )?;
    Ok(Tables::of(list, outline, versions, contests, deps, names, pseudo))
}

/// The tables of the list without the change of this name, which is there and which no change of the list needs.
///
/// At most 64 steps for each hunk, reference, need and name under a `by` of the change, for each pair of a contested hunk and a
/// change that contests it that goes with it, and for the change itself.
pub fn removed<L: Ledger>(
    alloc: Global,
    tables: &Tables,
    name: Name,
    steps: &mut Steps<L>,
) -> Result<Tables, Memory>
    requires { MayLeave tables.now name }
    ensures list { IfOk result (λ t. t ≡ fewer.without tables.now name) }
    ensures cost { steps.new ≤ steps.old + unrecord_bound tables.now name }
{
    let Some(change) = tables.list().get(name) else {
        return tables.share();
    };
    let before = tables.list().share()?;
    let left = before.without(alloc, name, steps)?;
    let shared = Arc::new(alloc, left)?;
    let all = tables_without(alloc, tables, change, shared, steps)?;
    Ok(all)
}
