//! Lists of changes that come and go, with their tables of needs and of contests.

ghost use Rattle.std.specs.Prelude.{◌≡◌, [], ◌∷◌, ◌++◌, false, IfOk, IfSome, IsTrue, List, Contains};
ghost use Rattle.std.specs.Arc.{arc_value};
ghost use Rattle.pj_name.specs.declared.name.Name.{Name as NameValue};
ghost use Rattle.pj_change.specs.declared.change.Record.{Record as RecordValue};
ghost use Rattle.pj_change.specs.Lawful.{is_held};
ghost use Rattle.pj_change.specs.Unrecord as fewer;
ghost use Rattle.pj_change.specs.Unrecord.{IsHolder};
ghost use Rattle.pj_deps.specs.Dependents.{AreDepsOf};
ghost use Rattle.pj_contest.specs.Contests.{AreHitsInOrder, IsContestsOf, IsFree};
ghost use Rattle.test_tables.specs.Histories.{AreTables};

use pj_apply::{Held, HeldPeers};
use pj_change::Record;
use pj_contest::Contests;
use pj_contest::laws::contests_are_of_the_set;
use pj_deps::Deps;
use pj_name::Name;
use pj_pmap::{Memory, Steps};
use pj_ranges::HunkAt;
use std::alloc::Global;
use std::marker::Model;
use std::sync::Arc;
use std::sync::ledger::Ledger;

/// A list of changes, which of them need which, and the table of its contests.
///
/// Contracts see the list of the records.
#[derive(Drop)]
pub struct History {
    held: Arc<Held>,
    needs: Arc<Deps>,
    contests: Arc<Contests>,
}

impl Model for History {
    ghost use Rattle.std.specs.Prelude.{List};
    ghost use Rattle.std.specs.Arc.{arc_value};
    ghost use Rattle.pj_change.specs.declared.change.Record.{Record};
    ghost use Rattle.test_tables.specs.Histories.{AreTables};

    ghost Value = { List Record };

    ghost view = { λ h. arc_value h.held };

    ghost invariant = { λ h. AreTables (arc_value h.held) (arc_value h.needs) (arc_value h.contests) };
}

/// Whether no held change needs the one of this name.
fn is_unneeded(needs: &Deps, name: Name) -> bool
    ensures { IsTrue result → (S : List RecordValue) → AreDepsOf S needs.now → (holder : NameValue) → IsHolder S name holder → ⊥ }
{
    match needs.holder(name) {
        None => true,
        Some(_) => false,
    }
}

/// Whether the change needs no change of its own name.
fn is_apart(change: &Record) -> bool
    ensures { IsTrue result → Contains change.now.change.needs change.now.name → ⊥ }
{
    !change.change.needs.items().contains(&change.name)
}

/// The list with the change at its end.
fn held_with<L: Ledger>(
    alloc: Global,
    history: &History,
    change: &Arc<Record>,
    steps: &mut Steps<L>,
) -> Result<Arc<Held>, Memory>
    requires { is_held history.now (arc_value change.now).name ≡ false }
    ensures { IfOk result (λ held. arc_value held ≡ history.now ++ arc_value change.now ∷ []) }
{
    let held = history.held().share()?.with(alloc, change, steps)?;
    let shared = Arc::new(alloc, held)?;
    Ok(shared)
}

/// Which changes of that list need which.
fn needs_with<L: Ledger>(
    alloc: Global,
    history: &History,
    change: &Record,
    steps: &mut Steps<L>,
) -> Result<Arc<Deps>, Memory>
    ensures { IfOk result (λ needs. AreDepsOf (history.now ++ change.now ∷ []) (arc_value needs)) }
{
    let needs = history.needs().share()?.with(alloc, change, steps)?;
    let shared = Arc::new(alloc, needs)?;
    Ok(shared)
}

/// The hunks of the changes that this one contests.
fn hits_with(alloc: Global, history: &History, change: &Record) -> Result<Vec<HunkAt>, Memory>
    requires fresh { is_held history.now change.now.name ≡ false }
    requires free { IsFree history.now change.now }
    ensures { IfOk result (λ hits. AreHitsInOrder history.now change.now hits.items) }
{
    let peers = history.held().peers();
    let hits = history.contests().hits(alloc, change, &peers);
    let HeldPeers { held: _ } = peers;
    hits
}

/// The contests of that list.
fn contests_with<L: Ledger>(
    alloc: Global,
    history: &History,
    change: &Record,
    steps: &mut Steps<L>,
) -> Result<Arc<Contests>, Memory>
    requires fresh { is_held history.now change.now.name ≡ false }
    requires free { IsFree history.now change.now }
    ensures { IfOk result (λ contests. IsContestsOf (history.now ++ change.now ∷ []) (arc_value contests)) }
{
    // The order of a list does not matter where its names are distinct, as is told with its length.
    contests_are_of_the_set();
    let held = history.held();
    let _length = held.len();
    let hits = hits_with(alloc, history, change)?;
    let given = history.contests().share()?;
    let peers = held.peers();
    let contests = given.with(alloc, change, &peers, &hits, steps);
    let HeldPeers { held: _ } = peers;
    let contests = contests?;
    let shared = Arc::new(alloc, contests)?;
    Ok(shared)
}

/// The list without the change of this name.
fn held_without<L: Ledger>(
    alloc: Global,
    history: &History,
    name: Name,
    steps: &mut Steps<L>,
) -> Result<Arc<Held>, Memory>
    requires { IsTrue (is_held history.now name) }
    ensures { IfOk result (λ held. arc_value held ≡ fewer.without history.now name) }
{
    let held = history.held().share()?.without(alloc, name, steps)?;
    let shared = Arc::new(alloc, held)?;
    Ok(shared)
}

/// Which changes need which, with a change less.
fn needs_without<L: Ledger>(
    alloc: Global,
    needs: &Deps,
    change: &Record,
    steps: &mut Steps<L>,
) -> Result<Arc<Deps>, Memory>
    ensures { IfOk result (λ left. (before after : List RecordValue) → is_held (before ++ after) change.now.name ≡ false → AreDepsOf (before ++ change.now ∷ after) needs.now → AreDepsOf (before ++ after) (arc_value left)) }
{
    let needs = needs.share()?.without(alloc, change, steps)?;
    let shared = Arc::new(alloc, needs)?;
    Ok(shared)
}

/// The hunks of the others that a change contests, of which the others are these.
fn hits_without(
    alloc: Global,
    contests: &Contests,
    left: &Held,
    change: &Record,
) -> Result<Vec<HunkAt>, Memory>
    requires set { IsContestsOf (change.now ∷ left.now) contests.now }
    requires fresh { is_held left.now change.now.name ≡ false }
    requires free { IsFree left.now change.now }
    ensures { IfOk result (λ hits. AreHitsInOrder left.now change.now hits.items) }
{
    let peers = left.peers();
    let hits = contests.hits_without(alloc, change, &peers);
    let HeldPeers { held: _ } = peers;
    hits
}

/// The contests with a change less, of which the others are these.
fn contests_without<L: Ledger>(
    alloc: Global,
    contests: &Contests,
    left: &Held,
    change: &Record,
    steps: &mut Steps<L>,
) -> Result<Arc<Contests>, Memory>
    requires set { IsContestsOf (change.now ∷ left.now) contests.now }
    requires fresh { is_held left.now change.now.name ≡ false }
    requires free { IsFree left.now change.now }
    ensures { IfOk result (λ contests. IsContestsOf left.now (arc_value contests)) }
{
    let hits = hits_without(alloc, contests, left, change)?;
    let given = contests.share()?;
    let peers = left.peers();
    let contests = given.without(alloc, change, &peers, &hits, steps);
    let HeldPeers { held: _ } = peers;
    let contests = contests?;
    let shared = Arc::new(alloc, contests)?;
    Ok(shared)
}

impl History {
    /// No change.
    pub fn empty(alloc: Global) -> Result<History, Memory> {
        let held = Arc::new(alloc, Held::empty())?;
        let needs = Arc::new(alloc, Deps::empty())?;
        let contests = Arc::new(alloc, Contests::empty())?;
        Ok(History::of(held, needs, contests))
    }

    /// The history of this list, whose tables these are.
    fn of(held: Arc<Held>, needs: Arc<Deps>, contests: Arc<Contests>) -> History
        requires { AreTables (arc_value held) (arc_value needs) (arc_value contests) }
        ensures { result ≡ arc_value held }
    {
        History {
            held,
            needs,
            contests,
        }
    }

    /// The changes.
    fn held(&self) -> &Held
        ensures { result.now ≡ self.now }
    {
        &self.held
    }

    /// Which of them need which.
    fn needs(&self) -> &Deps
        ensures { AreDepsOf self.now result.now }
    {
        &self.needs
    }

    /// The contests of the changes.
    pub fn contests(&self) -> &Contests
        ensures { IsContestsOf self.now result.now }
    {
        &self.contests
    }

    /// The contests with the change too, or `None` where it is held, or a change that is held or itself needs it.
    pub fn tried<L: Ledger>(
        &self,
        alloc: Global,
        change: &Record,
        steps: &mut Steps<L>,
    ) -> Result<Option<Arc<Contests>>, Memory>
        ensures table { IfOk result (λ contests. IfSome contests (λ table. IsContestsOf (self.now ++ change.now ∷ []) (arc_value table))) }
        ensures fresh { IfOk result (λ contests. IfSome contests (λ _. is_held self.now change.now.name ≡ false)) }
    {
        if self.held().get(change.name).is_some() {
            return Ok(None);
        }
        if !is_unneeded(self.needs(), change.name) {
            return Ok(None);
        }
        if !is_apart(change) {
            return Ok(None);
        }
        let contests = contests_with(alloc, self, change, steps)?;
        Ok(Some(contests))
    }

    /// The history with the change too, where the contests with it are these.
    pub fn with<L: Ledger>(
        &self,
        alloc: Global,
        change: &Arc<Record>,
        contests: Arc<Contests>,
        steps: &mut Steps<L>,
    ) -> Result<History, Memory>
        requires fresh { is_held self.now (arc_value change.now).name ≡ false }
        requires table { IsContestsOf (self.now ++ arc_value change.now ∷ []) (arc_value contests) }
    {
        let needs = needs_with(alloc, self, change, steps)?;
        let held = held_with(alloc, self, change, steps)?;
        Ok(History::of(held, needs, contests))
    }

    /// The history without the change of this name, or `None` where it is not held, or one that is held needs it.
    pub fn without<L: Ledger>(
        &self,
        alloc: Global,
        name: Name,
        steps: &mut Steps<L>,
    ) -> Result<Option<History>, Memory> {
        let list = self.held();
        let needs = self.needs();
        let Some(change) = list.get(name) else {
            return Ok(None);
        };
        if !is_unneeded(needs, name) {
            return Ok(None);
        }
        // The order of a list does not matter where its names are distinct, as is told with its length.
        contests_are_of_the_set();
        let _length = list.len();
        let left = held_without(alloc, self, name, steps)?;
        let contests = contests_without(alloc, self.contests(), &left, change, steps)?;
        let needs = needs_without(alloc, needs, change, steps)?;
        Ok(Some(History::of(left, needs, contests)))
    }
}
