//! Counts above 0: some keys counted once more, or once less.

ghost use Rattle.std.specs.Prelude.{◌≡◌, ◌+◌, ◌≤◌, ◌<◌, [], ◌∷◌, IfOk, length};
ghost use Rattle.pj_rows.specs.Keys.{number_at, times, AllCounted};

use crate::values::Count;
use pj_pmap::{Memory, PMap, Share, Steps};
use std::alloc::Global;
use std::sync::ledger::Ledger;

/// The count beside the key, or 0.
pub fn count_at<K: Ord + Share>(map: &PMap<K, Count>, key: &K) -> u128
    ensures { result ≡ number_at K.cmp key.now map.now }
{
    match map.get(key) {
        Some(count) => count.count,
        None => 0,
    }
}

/// The map with one more at the key. One step.
///
/// A count has room for `u128::MAX`; past that memory is wanted.
pub fn raised<K: Ord + Share + Copy, L: Ledger>(
    alloc: Global,
    map: PMap<K, Count>,
    key: &K,
    steps: &mut Steps<L>,
) -> Result<PMap<K, Count>, Memory>
    requires plain { (k : K) → K.shown k ≡ k }
    requires counted { AllCounted K.cmp map }
    ensures counts { IfOk result (λ m. (q : K) → number_at K.cmp q m ≡ number_at K.cmp q map + times K.cmp q (key.now ∷ [])) }
    ensures counted { IfOk result (λ m. AllCounted K.cmp m) }
    ensures cost { steps.new ≤ steps.old + 1 }
{
    let old = count_at(&map, key);
    if old == u128::MAX {
        return Err(Memory);
    }
    let now = map.into_with(alloc, *key, Count { count: old + 1 }, steps)?;
    Ok(now)
}

/// The map with one less at the key. One step.
pub fn lowered<K: Ord + Share + Copy, L: Ledger>(
    alloc: Global,
    map: PMap<K, Count>,
    key: &K,
    steps: &mut Steps<L>,
) -> Result<PMap<K, Count>, Memory>
    requires plain { (k : K) → K.shown k ≡ k }
    requires counted { AllCounted K.cmp map }
    requires there { 0 < number_at K.cmp key.now map }
    ensures counts { IfOk result (λ m. (q : K) → number_at K.cmp q m + times K.cmp q (key.now ∷ []) ≡ number_at K.cmp q map) }
    ensures counted { IfOk result (λ m. AllCounted K.cmp m) }
    ensures cost { steps.new ≤ steps.old + 1 }
{
    let old = count_at(&map, key);
    if old == 1 {
        let now = map.into_without(alloc, key, steps)?;
        return Ok(now);
    }
    let now = map.into_with(alloc, *key, Count { count: old - 1 }, steps)?;
    Ok(now)
}

/// The map with one more at each of these keys. One step for each.
pub fn raise_each<K: Ord + Share + Copy, L: Ledger>(
    alloc: Global,
    map: PMap<K, Count>,
    keys: &[K],
    steps: &mut Steps<L>,
) -> Result<PMap<K, Count>, Memory>
    requires plain { (k : K) → K.shown k ≡ k }
    requires counted { AllCounted K.cmp map }
    ensures counts { IfOk result (λ m. (q : K) → number_at K.cmp q m ≡ number_at K.cmp q map + times K.cmp q keys.now) }
    ensures counted { IfOk result (λ m. AllCounted K.cmp m) }
    ensures cost { steps.new ≤ steps.old + length keys.now }
{
    let mut now = map;
    for key in keys {
        now = raised(alloc, now, key, steps)?;
    }
    Ok(now)
}

/// The map with one less at each of these keys. One step for each.
pub fn lower_each<K: Ord + Share + Copy, L: Ledger>(
    alloc: Global,
    map: PMap<K, Count>,
    keys: &[K],
    steps: &mut Steps<L>,
) -> Result<PMap<K, Count>, Memory>
    requires plain { (k : K) → K.shown k ≡ k }
    requires counted { AllCounted K.cmp map }
    requires there { (q : K) → times K.cmp q keys.now ≤ number_at K.cmp q map }
    ensures counts { IfOk result (λ m. (q : K) → number_at K.cmp q m + times K.cmp q keys.now ≡ number_at K.cmp q map) }
    ensures counted { IfOk result (λ m. AllCounted K.cmp m) }
    ensures cost { steps.new ≤ steps.old + length keys.now }
{
    let mut now = map;
    for key in keys {
        now = lowered(alloc, now, key, steps)?;
    }
    Ok(now)
}
