//! The table of held changes and of their needs, and the least names that are found in it.

ghost use Rattle.std.specs.Prelude.{◌≡◌, ◌+◌, ◌≤◌, ◌&&◌, ◌||◌, not, false, IsTrue, IfOk, MatchOption, ◌⊎◌, ◌↔◌, map, length, List, [], ◌∷◌, ◌++◌, Contains, Some, find};
ghost use Rattle.std.specs.List.{list_all};
ghost use Rattle.pj_name.specs.declared.name.Name.{Name as NameValue};
ghost use Rattle.pj_name.specs.Name.{same_name};
ghost use Rattle.pj_change.specs.declared.change.Record.{Record as RecordValue};
ghost use Rattle.pj_change.specs.Lawful.{is_held};
ghost use Rattle.pj_change.specs.Least.{IsLeast};
ghost use Rattle.pj_change.specs.Apply.{IsMissing};
ghost use Rattle.pj_change.specs.Unrecord.{IsHolder};
ghost use Rattle.pj_pmap.specs.Pairs.{IsRising};
ghost use Rattle.pj_deps.specs.Dependents.{pair, holder_cmp, has_change, has_pair, Brings, IsLacking, IsAfter, IsHolderAfter, AreDepsOf};

use crate::keys::{HeldBy, HeldName};
use pj_change::Record;
use pj_name::Name;
use pj_pmap::{Memory, PMap, Steps};
use pj_rows::{Here, with_keys, without_keys};
use std::alloc::Global;
use std::marker::Model;
use std::sync::ledger::Ledger;

/// Which changes are held, and which of them need which. A table that changes is given up: whoever keeps it shares it before.
///
/// Contracts see the pairs of both maps.
pub struct Deps {
    held: PMap<HeldName, Here>,
    holders: PMap<HeldBy, Here>,
}

/// Written out and not derived: whoever lets go of one cites this proof, and proves nothing anew of its parts.
impl Drop for Deps {
    fn drop(self) {
        let Deps {
            held: _held,
            holders: _holders,
        } = self;
    }
}

impl Model for Deps {
    ghost use Rattle.pj_deps.specs.Dependents.{Dependents, AreRising};

    ghost Value = { Dependents };

    ghost view = { λ d. record { held = d.held; holders = d.holders } };

    ghost invariant = { λ d. AreRising d.held d.holders };
}

/// The pairs of the needs of a change and the change.
fn pairs_of(alloc: Global, record: &Record) -> Result<Vec<HeldBy>, Memory>
    ensures { IfOk result (λ pairs. pairs.items ≡ map (λ need. pair need «record».now.name) «record».now.change.needs) }
{
    let holder = record.name;
    let mut pairs = Vec::new(alloc);
    for need in record.change.needs.items() {
        pairs.push(HeldBy {
            need: *need,
            holder,
        })?;
    }
    Ok(pairs)
}

impl Deps {
    /// No change. It takes no memory.
    pub fn empty() -> Deps
        ensures held { result.held ≡ [] }
        ensures holders { result.holders ≡ [] }
        ensures set { AreDepsOf [] result }
    {
        Deps {
            held: PMap::empty(),
            holders: PMap::empty(),
        }
    }

    /// The same table for a second owner, in constant time.
    pub fn share(&self) -> Result<Deps, Memory>
        ensures { IfOk result (λ d. d ≡ self.now) }
    {
        Ok(Deps {
            held: self.held.share()?,
            holders: self.holders.share()?,
        })
    }

    /// Each pair of a need and a held change that has it. It takes no memory.
    pub fn holders(&self) -> &PMap<HeldBy, Here>
        ensures same { result.now ≡ self.now.holders }
        ensures rising { IsRising holder_cmp self.now.holders }
    {
        &self.holders
    }

    /// The table with this change too. One step, and one for each need.
    pub fn with<L: Ledger>(
        self,
        alloc: Global,
        record: &Record,
        steps: &mut Steps<L>,
    ) -> Result<Deps, Memory>
        ensures held { IfOk result (λ d. (name : NameValue) → has_change d name ≡ (same_name «record».now.name name || has_change self name)) }
        ensures holders { IfOk result (λ d. (need holder : NameValue) → IsTrue (has_pair d need holder) ↔ (Brings «record».now need holder ⊎ IsTrue (has_pair self need holder))) }
        ensures set { IfOk result (λ d. (S : List RecordValue) → AreDepsOf S self → AreDepsOf (S ++ «record».now ∷ []) d) }
        ensures cost { steps.new ≤ steps.old + (1 + length «record».now.change.needs) }
    {
        let pairs = pairs_of(alloc, record)?;
        let name = HeldName { name: record.name };
        let Deps { held, holders } = self;
        let held = held.into_with(alloc, name, Here, steps)?;
        let holders = with_keys(alloc, holders, &pairs, steps)?;
        // Lengths are told of rising keys alone.
        let _len = holders.len();
        Ok(Deps { held, holders })
    }

    /// The table without this change. One step, and one for each need.
    pub fn without<L: Ledger>(
        self,
        alloc: Global,
        record: &Record,
        steps: &mut Steps<L>,
    ) -> Result<Deps, Memory>
        ensures held { IfOk result (λ d. (name : NameValue) → has_change d name ≡ (not (same_name «record».now.name name) && has_change self name)) }
        ensures holders { IfOk result (λ d. (need holder : NameValue) → IsTrue (has_pair d need holder) ↔ ((Brings «record».now need holder → ⊥) × IsTrue (has_pair self need holder))) }
        ensures set { IfOk result (λ d. (before after : List RecordValue) → is_held (before ++ after) «record».now.name ≡ false → AreDepsOf (before ++ «record».now ∷ after) self → AreDepsOf (before ++ after) d) }
        ensures cost { steps.new ≤ steps.old + (1 + length «record».now.change.needs) }
    {
        let pairs = pairs_of(alloc, record)?;
        let name = HeldName { name: record.name };
        let Deps { held, holders } = self;
        let held = held.into_without(alloc, &name, steps)?;
        let holders = without_keys(alloc, holders, &pairs, steps)?;
        // Lengths are told of rising keys alone.
        let _len = holders.len();
        Ok(Deps { held, holders })
    }

    /// Whether the change of this name is held.
    fn is_held(&self, name: Name) -> bool
        ensures { result ≡ has_change self.now name }
    {
        self.held.get(&HeldName { name }).is_some()
    }

    /// The first of these names that is not held.
    fn first_lacking(&self, names: &[Name]) -> Option<Name>
        ensures { result ≡ find (λ name. not (has_change self.now name)) names.now }
    {
        names.iter().copied().find(|name| !self.is_held(*name))
    }

    /// The least need of the change that is not held. It takes no memory.
    pub fn missing(&self, record: &Record) -> Option<Name>
        ensures table { MatchOption result ((name : NameValue) → IsLacking self.now «record».now name → ⊥) (IsLeast (IsLacking self.now «record».now)) }
        ensures set { (S : List RecordValue) → AreDepsOf S self.now → MatchOption result (IsTrue (list_all (is_held S) «record».now.change.needs)) (IsLeast (IsMissing S «record».now)) }
    {
        self.first_lacking(record.change.needs.items())
    }

    /// The least held change that needs the one of this name. It takes no memory.
    pub fn holder(&self, name: Name) -> Option<Name>
        ensures table { MatchOption result ((holder : NameValue) → IsTrue (has_pair self.now name holder) → ⊥) (IsLeast (λ holder. IsTrue (has_pair self.now name holder))) }
        ensures set { (S : List RecordValue) → AreDepsOf S self.now → MatchOption result ((holder : NameValue) → IsHolder S name holder → ⊥) (IsLeast (IsHolder S name)) }
    {
        let least = Name::least();
        let pair = HeldBy {
            need: name,
            holder: least,
        };
        match self.holders.get(&pair) {
            Some(_) => Some(least),
            None => self.holder_above(pair),
        }
    }

    /// The least held change above `after` that needs the one of this name; without `after`, the least of all.
    /// It takes no memory.
    pub fn next_holder(&self, name: Name, after: Option<Name>) -> Option<Name>
        ensures table { MatchOption result ((holder : NameValue) → IsHolderAfter self.now name after holder → ⊥) (IsLeast (IsHolderAfter self.now name after)) }
        ensures set { (S : List RecordValue) → AreDepsOf S self.now → MatchOption result ((holder : NameValue) → IsHolder S name holder × IsAfter after holder → ⊥) (IsLeast (λ holder. IsHolder S name holder × IsAfter after holder)) }
    {
        match after {
            Some(holder) => self.holder_above(HeldBy { need: name, holder }),
            None => self.holder(name),
        }
    }

    /// The least held change above that of the pair that has its need.
    fn holder_above(&self, pair: HeldBy) -> Option<Name>
        ensures { MatchOption result ((holder : NameValue) → IsHolderAfter self.now pair.need (Some pair.holder) holder → ⊥) (IsLeast (IsHolderAfter self.now pair.need (Some pair.holder))) }
    {
        let (next, _) = self.holders.next_after(&pair)?;
        if next.need != pair.need {
            return None;
        }
        Some(next.holder)
    }
}
