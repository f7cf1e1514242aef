//! The members of a list, each once, in order.

ghost use Rattle.std.specs.Prelude.{◌≡◌, ◌↔◌, Contains, IfOk};
ghost use Rattle.std.specs.List.Sorted.{IsStrictlySortedBy};
ghost use Rattle.pj_contest.specs.Sorting.{IsTight};

use pj_rows::Memory;
use std::alloc::Global;
use std::collections::BTreeSet;

/// The set of some keys.
fn set_of<K: Ord + Copy>(alloc: Global, all: &[K]) -> Result<BTreeSet<K>, Memory>
    requires { IsTight K.cmp }
    ensures { IfOk result (λ set. (x : K) → Contains set.keys x ↔ Contains all.now x) }
{
    let mut set = BTreeSet::new(alloc);
    for key in all {
        set.insert(*key)?;
    }
    Ok(set)
}

/// The keys of a set, in order.
fn listed<K: Ord + Copy>(alloc: Global, set: &BTreeSet<K>) -> Result<Vec<K>, Memory>
    ensures same { IfOk result (λ v. v.items ≡ set.now.keys) }
    ensures sorted { IfOk result (λ v. IsStrictlySortedBy K.cmp v.items) }
{
    let keys: Vec<K> = set.iter().copied().collect(alloc)?;
    Ok(keys)
}

/// The members of a list, each once, in order.
pub fn distinct<K: Ord + Copy>(alloc: Global, all: &[K]) -> Result<Vec<K>, Memory>
    requires { IsTight K.cmp }
    ensures same { IfOk result (λ v. (x : K) → Contains v.items x ↔ Contains all.now x) }
    ensures sorted { IfOk result (λ v. IsStrictlySortedBy K.cmp v.items) }
{
    let set = set_of(alloc, all)?;
    let keys = listed(alloc, &set)?;
    Ok(keys)
}
