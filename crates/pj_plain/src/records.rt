//! Lists of shared records: look-ups, and new lists that share the records.

ghost use Rattle.std.specs.Prelude.{◌≡◌, [], ◌∷◌, ◌++◌, not, find, map, IsTrue, IfOk, OnOk, MatchOption, None, Some};
ghost use Rattle.std.specs.List.{filter_map, list_all};
ghost use Rattle.std.specs.Arc.{arc_value};
ghost use Rattle.pj_change.specs.Lawful.{is_held, record_of, needs_of};
ghost use Rattle.pj_change.specs.Context as context;
ghost use Rattle.pj_change.specs.Union as joined;
ghost use Rattle.pj_change.specs.Shared.{records};
ghost use Rattle.pj_change.specs.Unrecord as fewer;
ghost use Rattle.pj_change.specs.Unrecord.{IsHolder};
ghost use Rattle.pj_change.specs.Least.{IsLeast};

use pj_change::Record;
use pj_context::check;
use pj_name::Name;
use std::alloc::{AllocError, Global};
use std::sync::Arc;

/// The first record of this name.
pub fn find(list: &[Arc<Record>], name: Name) -> Option<&Arc<Record>>
    ensures { MatchOption result (record_of (records list.now) name ≡ None) (λ r. record_of (records list.now) name ≡ Some (arc_value r.now)) }
{
    list.iter().find(|record| record.name == name)
}

/// Whether a record has this name.
pub fn is_held(list: &[Arc<Record>], name: Name) -> bool
    ensures { result ≡ is_held (records list.now) name }
{
    list.iter().any(|record| record.name == name)
}

/// The first of these names that no record has.
pub fn first_missing(list: &[Arc<Record>], names: &[Name]) -> Option<Name>
    ensures { result ≡ find (λ n. not (is_held (records list.now) n)) names.now }
{
    names.iter().copied().find(|name| !is_held(list, *name))
}

/// The names of the records.
pub fn names_of(alloc: Global, list: &[Arc<Record>]) -> Result<Vec<Name>, AllocError>
    ensures { IfOk result (λ names. names.items ≡ map (λ r. r.name) (records list.now)) }
{
    list.iter().map(|record| record.name).collect(alloc)
}

/// The least name of a change that needs the one of this name.
pub fn least_holder(list: &[Arc<Record>], name: Name) -> Option<Name>
    ensures { MatchOption result ((holder : Name) → IsHolder (records list.now) name holder → ⊥) (IsLeast (IsHolder (records list.now) name)) }
{
    list.iter()
        .filter(|record| record.change.needs.items().contains(&name))
        .map(|record| record.name)
        .min()
}

/// The same records.
pub fn share_all(alloc: Global, list: &[Arc<Record>]) -> Result<Vec<Arc<Record>>, AllocError>
    ensures { IfOk result (λ copy. records copy.items ≡ records list.now) }
{
    Vec::from_clones(alloc, list)
}

/// Puts the record at the end of the list.
pub fn push_share(list: &mut Vec<Arc<Record>>, record: &Arc<Record>) -> Result<(), AllocError>
    ensures { OnOk result (records list.new.items ≡ records list.old.items ++ arc_value «record».now ∷ []) }
{
    list.push(Arc::try_clone(record)?)?;
    Ok(())
}

/// The records of those of these names that are held, in the order of the names.
fn find_each(
    alloc: Global,
    list: &[Arc<Record>],
    names: &[Name],
) -> Result<Vec<Arc<Record>>, AllocError>
    ensures { IfOk result (λ found. records found.items ≡ filter_map (record_of (records list.now)) names.now) }
{
    let mut found = Vec::with_capacity(alloc, names.len())?;
    for &name in names {
        if let Some(record) = find(list, name) {
            push_share(&mut found, record)?;
        }
    }
    Ok(found)
}

/// The number of the first hunk whose context does not hold, where the needs of the change are held.
pub fn first_broken(
    alloc: Global,
    list: &[Arc<Record>],
    record: &Record,
) -> Result<Option<u32>, AllocError>
    requires { IsTrue (list_all (is_held (records list.now)) «record».now.change.needs) }
    ensures { IfOk result (λ hunk. context.first_broken «record».now (needs_of (records list.now) «record».now) ≡ hunk) }
{
    let needs = find_each(alloc, list, record.change.needs.items())?;
    match check(record, &needs) {
        Ok(()) => Ok(None),
        Err(missing) => Ok(Some(missing.hunk)),
    }
}

/// The records, and this one at the end.
pub fn with(
    alloc: Global,
    list: &[Arc<Record>],
    record: &Arc<Record>,
) -> Result<Vec<Arc<Record>>, AllocError>
    ensures { IfOk result (λ more. records more.items ≡ records list.now ++ arc_value «record».now ∷ []) }
{
    let mut more = share_all(alloc, list)?;
    push_share(&mut more, record)?;
    Ok(more)
}

/// The records but those of this name.
pub fn without(
    alloc: Global,
    list: &[Arc<Record>],
    name: Name,
) -> Result<Vec<Arc<Record>>, AllocError>
    ensures { IfOk result (λ left. records left.items ≡ fewer.without (records list.now) name) }
{
    let mut left = Vec::new(alloc);
    for record in list {
        if record.name != name {
            push_share(&mut left, record)?;
        }
    }
    Ok(left)
}

/// The records of one list, and then those of the other whose names it lacks.
pub fn union(
    alloc: Global,
    list: &[Arc<Record>],
    other: &[Arc<Record>],
) -> Result<Vec<Arc<Record>>, AllocError>
    ensures { IfOk result (λ both. records both.items ≡ joined.union (records list.now) (records other.now)) }
{
    let mut both = share_all(alloc, list)?;
    for record in other {
        if !is_held(list, record.name) {
            push_share(&mut both, record)?;
        }
    }
    Ok(both)
}
