//! Look-ups of changes by name.

ghost use Rattle.std.specs.Prelude.{◌≡◌, not, find, IsTrue, IfOk, OnOk, [], ◌∷◌, ◌++◌};
ghost use Rattle.std.specs.List.{filter_map, list_all};
ghost use Rattle.std.specs.Arc.{arc_value};
ghost use Rattle.pj_change.specs.Context as context;
ghost use Rattle.pj_change.specs.Lawful.{is_held, record_of, needs_of};
ghost use Rattle.pj_change.specs.Shared.{records};

use pj_apply::Held;
use pj_change::{Memory, Record};
use pj_context::check;
use pj_name::Name;
use std::alloc::Global;
use std::sync::Arc;

/// Whether a change has this name.
pub fn is_held(held: &Held, name: Name) -> bool
    ensures { result ≡ is_held held.now name }
{
    held.get(name).is_some()
}

/// The first of these names that no change has.
pub fn first_missing(held: &Held, names: &[Name]) -> Option<Name>
    ensures { result ≡ find (λ n. not (is_held held.now n)) names.now }
{
    names.iter().copied().find(|name| !is_held(held, *name))
}

/// Puts the change at the end of the list.
pub fn push_share(list: &mut Vec<Arc<Record>>, change: &Arc<Record>) -> Result<(), Memory>
    ensures { OnOk result (records list.new.items ≡ records list.old.items ++ arc_value change.now ∷ []) }
{
    list.push(Arc::try_clone(change)?)?;
    Ok(())
}

/// The changes of those of these names that are held, in the order of the names.
fn find_each(alloc: Global, held: &Held, names: &[Name]) -> Result<Vec<Arc<Record>>, Memory>
    ensures { IfOk result (λ found. records found.items ≡ filter_map (record_of held.now) names.now) }
{
    let mut found = Vec::with_capacity(alloc, names.len())?;
    for &name in names {
        if let Some(change) = held.get(name) {
            push_share(&mut found, change)?;
        }
    }
    Ok(found)
}

/// The number of the first hunk whose context does not hold, where the needs of the change are held.
pub fn first_broken(alloc: Global, held: &Held, record: &Record) -> Result<Option<u32>, Memory>
    requires { IsTrue (list_all (is_held held.now) «record».now.change.needs) }
    ensures { IfOk result (λ hunk. context.first_broken «record».now (needs_of held.now «record».now) ≡ hunk) }
{
    let needs = find_each(alloc, held, record.change.needs.items())?;
    match check(record, &needs) {
        Ok(()) => Ok(None),
        Err(missing) => Ok(Some(missing.hunk)),
    }
}
