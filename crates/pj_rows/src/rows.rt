//! Sets of keys: the keys between two, and the set with some keys more or fewer.

ghost use Rattle.std.specs.Prelude.{◌≡◌, ◌+◌, ◌≤◌, ◌&&◌, ◌||◌, not, IfOk, length};
ghost use Rattle.pj_pmap.specs.Pairs.{IsRising};
ghost use Rattle.pj_rows.specs.Keys.{has, is_among, keys_from, keys_in};

use crate::values::Here;
use pj_pmap::{Cursor, Memory, PMap, Share, Steps};
use std::alloc::Global;
use std::cmp::Ordering;
use std::sync::ledger::Ledger;

/// The least key above `above`, where it is below `below`. It takes no memory.
fn key_after<K: Ord + Share + Copy>(
    rows: &mut Cursor<'_, K, Here>,
    above: &K,
    below: &K,
) -> Option<K>
    requires { IsRising K.cmp rows.old }
    ensures same { rows.new ≡ rows.old }
    ensures next { keys_from K.cmp below.now rows.old result ≡ keys_in K.cmp above.now below.now rows.old }
{
    let (key, _) = rows.next_after(above)?;
    match key.cmp(below) {
        Ordering::Less => Some(*key),
        Ordering::Equal => None,
        Ordering::Greater => None,
    }
}

/// The keys above `above` and below `below`, in order.
pub fn keys_between<K: Ord + Share + Copy>(
    alloc: Global,
    map: &PMap<K, Here>,
    above: &K,
    below: &K,
) -> Result<Vec<K>, Memory>
    ensures same { IfOk result (λ keys. keys.items ≡ keys_in K.cmp above.now below.now map.now) }
    ensures rising { IfOk result (λ keys. IsRising K.cmp map.now) }
{
    let _len = map.len();
    let mut rows = map.cursor();
    let mut keys = Vec::new(alloc);
    let mut next = key_after(&mut rows, above, below);
    while let Some(key) = next {
        keys.push(key)?;
        next = key_after(&mut rows, &key, below);
    }
    Ok(keys)
}

/// The set with these keys too. One step for each.
pub fn with_keys<K: Ord + Share + Copy, L: Ledger>(
    alloc: Global,
    map: PMap<K, Here>,
    keys: &[K],
    steps: &mut Steps<L>,
) -> Result<PMap<K, Here>, Memory>
    requires plain { (k : K) → K.shown k ≡ k }
    ensures rows { IfOk result (λ m. (q : K) → has K.cmp q m ≡ (is_among K.cmp q keys.now || has K.cmp q map)) }
    ensures cost { steps.new ≤ steps.old + length keys.now }
{
    let mut now = map;
    for key in keys {
        now = now.into_with(alloc, *key, Here, steps)?;
    }
    Ok(now)
}

/// The set without these keys. One step for each.
pub fn without_keys<K: Ord + Share + Copy, L: Ledger>(
    alloc: Global,
    map: PMap<K, Here>,
    keys: &[K],
    steps: &mut Steps<L>,
) -> Result<PMap<K, Here>, Memory>
    requires plain { (k : K) → K.shown k ≡ k }
    ensures rows { IfOk result (λ m. (q : K) → has K.cmp q m ≡ (not (is_among K.cmp q keys.now) && has K.cmp q map)) }
    ensures cost { steps.new ≤ steps.old + length keys.now }
{
    let mut now = map;
    for key in keys {
        now = now.into_without(alloc, key, steps)?;
    }
    Ok(now)
}
