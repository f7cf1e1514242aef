//! The needs of an inverse: the change itself, and each change whose text or name it deletes.
ghost use Rattle.std.specs.Prelude.{◌≡◌, ◌≤◌, ◌↔◌, ◌++◌, ◌∷◌, [], ℕ, List, length, Contains, All, IsTrue, IfOk, OnOk};
ghost use Rattle.pj_change.specs.declared.hunk.Hunk.{Hunk as HunkOf};
ghost use Rattle.pj_change.specs.declared.limits.TheConstants.{MOST_NEEDS as most_needs};
ghost use Rattle.pj_change.specs.Inverse.{AreInverseNeeds, IsUndoable, IsFirstWithoutInverse};

use crate::refusal::InverseRefusal;
use pj_change::{Hunk, MOST_NEEDS, Memory, Names, Record, numbered};
use pj_name::Name;
use std::alloc::Global;
use std::collections::BTreeSet;

/// Whether the hunk is of a kind that can be undone.
fn is_undoable(hunk: &Hunk) -> bool
    ensures { IsTrue result ↔ IsUndoable hunk.now }
{
    match hunk {
        Hunk::File { .. } | Hunk::Dir { .. } | Hunk::NameOf { .. } | Hunk::Insert { .. } => true,
        Hunk::Delete { owner, by, .. } => by.items() == [*owner].as_slice(),
        Hunk::Order { .. } | Hunk::Revive { .. } => false,
    }
}

/// Adds the change whose text or name the hunk deletes, if it deletes any.
fn add_deleted(needs: &mut BTreeSet<Name>, record: &Record, hunk: &Hunk) -> Result<(), Memory>
    requires { Contains «record».now.change.hunks hunk.now }
    ensures { OnOk result ((before : List HunkOf) → AreInverseNeeds «record».now before needs.old.keys
        → AreInverseNeeds «record».now (before ++ hunk.now ∷ []) needs.new.keys) }
{
    if let Hunk::Delete { owner, .. } = hunk {
        needs.insert(numbered(record, *owner))?;
    }
    Ok(())
}

/// The names of the set, in order.
fn listed(alloc: Global, names: &BTreeSet<Name>) -> Result<Names, Memory>
    ensures { IfOk result (λ list. list ≡ names.now.keys) }
{
    let list = names.iter().copied().collect(alloc)?;
    Ok(Names::of(list))
}

/// The needs of the change's inverse, or the first hunk without an inverse.
pub(crate) fn inverse_needs(alloc: Global, record: &Record) -> Result<Names, InverseRefusal>
    ensures needs { IfOk result (λ needs. AreInverseNeeds «record».now «record».now.change.hunks needs) }
    ensures few { IfOk result (λ needs. length needs ≤ most_needs) }
    ensures undoable { OnOk result (All IsUndoable «record».now.change.hunks) }
    ensures none { OnOk result ((k : ℕ) → IsFirstWithoutInverse «record».now k → ⊥) }
    ensures hunk { (k : ℕ) → result ≡ Err (InverseRefusal.Hunk k) → IsFirstWithoutInverse «record».now k }
{
    let mut needs = BTreeSet::new(alloc);
    needs.insert(record.name)?;
    for (number, hunk) in record.change.hunks.items().iter().enumerate() {
        if !is_undoable(hunk) {
            return Err(InverseRefusal::Hunk(number as u32));
        }
        add_deleted(&mut needs, record, hunk)?;
        if needs.len() > MOST_NEEDS {
            return Err(InverseRefusal::Hunk(number as u32));
        }
    }
    Ok(listed(alloc, &needs)?)
}
