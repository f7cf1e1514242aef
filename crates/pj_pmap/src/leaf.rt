//! The leaves of a map, which hold its pairs.

ghost use Rattle.std.specs.Prelude.{◌≡◌, ℕ, suc, ◌+◌, ◌-◌, ◌<◌, ◌≤◌, List, [], ◌∷◌, ◌++◌, length, map, take, drop, IfOk, IfSome, OnOk};
ghost use Rattle.pj_pmap.specs.Pairs.{shown_pair, IsRising, IsPlace};

use crate::node::{MOST, Node, SPARSE, With, split};
use crate::share::Share;
use pj_memory::Memory;
use std::alloc::Global;
use std::cmp::Ordering;
use std::marker::Model;
use std::ops::Range;

/// Lists of no more pairs than this take only the memory that they need.
const FEW: usize = 16;

/// At least one pair and at most `MOST`, in the order of their keys.
#[derive(Drop)]
pub struct Leaf<K: Ord + Share, V: Share> {
    pairs: Vec<(K, V)>,
}

impl<K: Ord + Share, V: Share> Model for Leaf<K, V> {
    ghost use Rattle.std.specs.Prelude.{ℕ, ◌≤◌, ◌<◌, List, length, map};
    ghost use Rattle.pj_pmap.specs.Pairs.{shown_pair, IsRising};
    ghost use Rattle.pj_pmap.specs.Nodes.{IsNode};

    ghost Value = { List (K × V) };

    ghost view = { λ l. map (shown_pair V.shown) l.pairs.items };

    ghost invariant = { λ l. IsRising K.cmp (map (shown_pair V.shown) l.pairs.items) × IsNode 64 (map (shown_pair V.shown) l.pairs.items) };
}

/// Where the key's pair stands: one index, or none at the place where it would stand.
pub fn place<K: Ord + Share, V: Share>(pairs: &[(K, V)], key: &K) -> Range<usize>
    requires { IsRising K.cmp (map (shown_pair V.shown) pairs.now) }
    ensures { IsPlace K.cmp key.now (map (shown_pair V.shown) pairs.now) result.start result.end }
{
    match pairs.binary_search_by(
        |pair| -> Ordering
            ensures { result ≡ K.cmp pair.now.0 key.entry.now }
        { pair.0.cmp(key) },
    ) {
        Ok(at) => at..at + 1,
        Err(at) => at..at,
    }
}

/// Fails where one of the values can have no more owners.
fn check_values<K: Ord + Share, V: Share>(pairs: &[(K, V)]) -> Result<(), Memory> {
    for pair in pairs {
        if !pair.1.has_room() {
            return Err(Memory);
        }
    }
    Ok(())
}

/// Puts shares of the pairs at the end of the list.
fn share_pairs<K: Ord + Share, V: Share>(
    pairs: &[(K, V)],
    list: &mut Vec<(K, V)>,
) -> Result<(), Memory>
    requires { (k : K) → K.shown k ≡ k }
    ensures { OnOk result (map (shown_pair V.shown) list.new.items ≡ map (shown_pair V.shown) list.old.items ++ map (shown_pair V.shown) pairs.now) }
{
    check_values(pairs)?;
    for pair in pairs {
        list.push((pair.0.share()?, pair.1.share()?))?;
    }
    Ok(())
}

/// The capacity of a list of so many pairs. But for a few it is one for all, so that the memory of
/// the list that a change lets go, which is still in the caches, serves the next change.
fn room(pairs: usize) -> usize {
    if pairs <= FEW { pairs } else { MOST + 1 }
}

/// The pairs of both lists.
fn joined<K: Ord + Share, V: Share>(
    alloc: Global,
    before: &[(K, V)],
    after: &[(K, V)],
) -> Result<Vec<(K, V)>, Memory>
    requires { (k : K) → K.shown k ≡ k }
    ensures same { IfOk result (λ list. map (shown_pair V.shown) list.items ≡ map (shown_pair V.shown) before.now ++ map (shown_pair V.shown) after.now) }
    ensures len { IfOk result (λ list. length list.items ≡ length before.now + length after.now) }
{
    let pairs = before.len().saturating_add(after.len());
    let mut list = Vec::with_capacity(alloc, room(pairs))?;
    share_pairs(before, &mut list)?;
    share_pairs(after, &mut list)?;
    Ok(list)
}

/// The pairs with this one at the place, which is one pair or none.
fn put<K: Drop, V: Drop>(
    pairs: Vec<(K, V)>,
    place: Range<usize>,
    pair: (K, V),
) -> Result<Vec<(K, V)>, Memory>
    requires ordered { place.start ≤ place.end }
    requires within { place.end ≤ length pairs.items }
    requires one { place.start < place.end → place.end ≡ suc place.start }
    ensures { IfOk result (λ list. list.items ≡ take place.start pairs.items ++ pair ∷ drop place.end pairs.items) }
{
    let mut list = pairs;
    if place.start < place.end {
        list[place.start] = pair;
        return Ok(list);
    }
    let len = list.len();
    list.reserve_exact(room(len + 1).saturating_sub(len))?;
    list.insert(place.start, pair)?;
    Ok(list)
}

/// The pairs without those of the place, which is one pair or none.
fn cut<K: Drop, V: Drop>(pairs: Vec<(K, V)>, place: Range<usize>) -> Vec<(K, V)>
    requires ordered { place.start ≤ place.end }
    requires within { place.end ≤ length pairs.items }
    requires one { place.start < place.end → place.end ≡ suc place.start }
    ensures { result.items ≡ take place.start pairs.items ++ drop place.end pairs.items }
{
    let mut list = pairs;
    if place.start < place.end {
        list.remove(place.start);
    }
    list
}

impl<K: Ord + Share, V: Share> Node<K, V> for Leaf<K, V> {
    ghost pairs = { λ l. l };

    ghost most = { 64 };

    fn single(alloc: Global, key: K, value: V) -> Result<Leaf<K, V>, Memory> {
        let mut pairs = Vec::with_capacity(alloc, 1)?;
        pairs.push((key, value))?;
        Ok(Leaf { pairs })
    }

    fn get(&self, key: &K) -> Option<&V> {
        let place = place(&self.pairs, key);
        if place.start == place.end {
            return None;
        }
        Some(&self.pairs[place.start].1)
    }

    fn floor(&self, key: &K) -> Option<(&K, &V)> {
        let place = place(&self.pairs, key);
        if place.end == 0 {
            return None;
        }
        let pair = &self.pairs[place.end - 1];
        Some((&pair.0, &pair.1))
    }

    fn run_after(&self, key: &K) -> &[(K, V)] {
        let pairs: &[(K, V)] = &self.pairs;
        let place = place(pairs, key);
        &pairs[place.end..]
    }

    fn first_run(&self) -> &[(K, V)] {
        &self.pairs
    }

    fn least(&self) -> &K {
        &self.pairs[0].0
    }

    fn copy(&self, alloc: Global) -> Result<Leaf<K, V>, Memory> {
        let pairs: &[(K, V)] = &self.pairs;
        let mut list = Vec::with_capacity(alloc, room(pairs.len().saturating_add(1)))?;
        share_pairs(pairs, &mut list)?;
        Ok(Leaf { pairs: list })
    }

    fn with(self, alloc: Global, key: K, value: V) -> Result<With<Leaf<K, V>>, Memory> {
        let place = place(&self.pairs, &key);
        let is_new = place.start == place.end;
        let at_end = place.start == MOST;
        let list = put(self.pairs, place, (key, value))?;
        let (first, second) = split(list, MOST, at_end)?;
        let first = Leaf { pairs: first };
        let Some(second) = second else {
            return Ok(With {
                first,
                second: None,
                is_new,
            });
        };
        Ok(With {
            first,
            second: Some(Leaf { pairs: second }),
            is_new,
        })
    }

    fn without(self, alloc: Global, key: &K) -> Result<Option<Leaf<K, V>>, Memory> {
        let place = place(&self.pairs, key);
        let pairs = cut(self.pairs, place);
        if pairs.is_empty() {
            return Ok(None);
        }
        Ok(Some(Leaf { pairs }))
    }

    fn merged(&self, alloc: Global, next: &Leaf<K, V>) -> Result<Option<Leaf<K, V>>, Memory> {
        if self.pairs.len() + next.pairs.len() > SPARSE {
            return Ok(None);
        }
        let pairs = joined(alloc, &self.pairs, &next.pairs)?;
        Ok(Some(Leaf { pairs }))
    }
}
