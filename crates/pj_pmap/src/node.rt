//! What leaves and branches have in common, and what is done with lists of nodes.

ghost use Rattle.std.specs.Prelude.{◌≡◌, ◌↔◌, ℕ, suc, ◌+◌, ◌-◌, ◌<◌, ◌≤◌, List, [], ◌∷◌, ◌++◌, length, map, flat_map, take, drop, Option, Some, None, MatchOption, IfOk, IfSome, OnOk, IsTrue, option_to_list, vec_len};
ghost use Rattle.std.specs.List.{swap_remove};
ghost use Rattle.pj_pmap.specs.Pairs.{value_at, floor_of, rest_after, with_pair, without_key, shown_pair, least_of, starts_above, IsRising};
ghost use Rattle.pj_pmap.specs.Lookups.{IsRunOf};
ghost use Rattle.pj_pmap.specs.Nodes.{pairs_of, IsNode, IsNodeOrNone, AllNodes, IsLevel, IsChosen};

use crate::child::Child;
use crate::place::{Place, Taken};
use crate::share::Share;
use pj_memory::Memory;
use std::alloc::Global;

/// The most pairs of a leaf.
pub const MOST: usize = 64;

/// Two neighbouring leaves of a branch that have no more pairs than this together are merged.
pub const SPARSE: usize = 32;

/// The most nodes of a branch.
pub const WIDEST: usize = 12;

/// Two neighbouring branches that have no more nodes than this together are merged.
pub const NARROW: usize = 6;

/// A node with one pair more or another value: in two where one would have too much.
#[derive(Drop)]
pub struct With<N: Drop> {
    pub first: N,
    pub second: Option<N>,
    /// Whether the key was new.
    pub is_new: bool,
}

/// A part of a map: at least one pair, at most `most`, in the order of their keys.
pub trait Node<K: Ord + Share, V: Share>: Sized + Drop {
    ghost pairs: { Self → List (K × V) };

    ghost most: { ℕ };

    /// A node of one pair.
    fn single(alloc: Global, key: K, value: V) -> Result<Self, Memory>
        requires { (k : K) → K.shown k ≡ k }
        ensures same { IfOk result (λ node. pairs node ≡ (key, V.shown value) ∷ []) }
        ensures node { IfOk result (λ node. IsNode most (pairs node)) };

    fn get(&self, key: &K) -> Option<&V>
        ensures { MatchOption result (value_at K.cmp key.now (pairs self.now) ≡ None) (λ v. value_at K.cmp key.now (pairs self.now) ≡ Some (V.shown v.now)) };

    fn floor(&self, key: &K) -> Option<(&K, &V)>
        ensures { MatchOption result (floor_of K.cmp key.now (pairs self.now) ≡ None) (λ p. floor_of K.cmp key.now (pairs self.now) ≡ Some (p.0.now, V.shown p.1.now)) };

    /// The pairs from that of the least key above this one on, as far as one leaf has them; none where no key is above.
    fn run_after(&self, key: &K) -> &[(K, V)]
        ensures { IsRunOf (rest_after K.cmp key.now (pairs self.now)) (map (shown_pair V.shown) result.now) };

    /// The pairs of the first leaf.
    fn first_run(&self) -> &[(K, V)]
        ensures run { IsRunOf (pairs self.now) (map (shown_pair V.shown) result.now) }
        ensures some { 0 < length result.now };

    /// The least key.
    fn least(&self) -> &K
        ensures { least_of (pairs self.now) ≡ Some result.now };

    /// The same pairs for one owner, who shares what lies below.
    fn copy(&self, alloc: Global) -> Result<Self, Memory>
        requires { (k : K) → K.shown k ≡ k }
        ensures { IfOk result (λ node. pairs node ≡ pairs self.now) };

    /// The node with the pair, in two where one would have too much.
    fn with(self, alloc: Global, key: K, value: V) -> Result<With<Self>, Memory>
        requires { (k : K) → K.shown k ≡ k }
        ensures same { IfOk result (λ nodes. pairs nodes.first ++ pairs_of pairs nodes.second ≡ with_pair K.cmp key (V.shown value) (pairs self)) }
        ensures first { IfOk result (λ nodes. IsNode most (pairs nodes.first)) }
        ensures second { IfOk result (λ nodes. IsNodeOrNone pairs most nodes.second) }
        ensures new { IfOk result (λ nodes. IsTrue nodes.is_new ↔ (value_at K.cmp key (pairs self) ≡ None)) };

    /// The node without the key, or None where no pair is left.
    fn without(self, alloc: Global, key: &K) -> Result<Option<Self>, Memory>
        requires { (k : K) → K.shown k ≡ k }
        ensures same { IfOk result (λ node. pairs_of pairs node ≡ without_key K.cmp key.now (pairs self)) }
        ensures node { IfOk result (λ node. IsNodeOrNone pairs most node) };

    /// The pairs of both in one node, or None where both have too many entries together.
    fn merged(&self, alloc: Global, next: &Self) -> Result<Option<Self>, Memory>
        requires plain { (k : K) → K.shown k ≡ k }
        requires rising { IsRising K.cmp (pairs self.now ++ pairs next.now) }
        ensures same { IfOk result (λ merged. IfSome merged (λ node. pairs node ≡ pairs self.now ++ pairs next.now)) }
        ensures node { IfOk result (λ merged. IsNodeOrNone pairs most merged) };
}

/// The list, in two parts where it has more than `most` entries: a full one and the rest where it
/// grew `at_end`, and else two halves.
pub fn split<T: Drop>(
    list: Vec<T>,
    most: usize,
    at_end: bool,
) -> Result<(Vec<T>, Option<Vec<T>>), Memory>
    requires halves { 2 ≤ most }
    requires some { 0 < length list.items }
    requires few { length list.items ≤ most + 1 }
    ensures same { IfOk result (λ parts. parts.0.items ++ pairs_of (λ part. part.items) parts.1 ≡ list.items) }
    ensures first { IfOk result (λ parts. IsNode most parts.0.items) }
    ensures second { IfOk result (λ parts. IsNodeOrNone (λ part. part.items) most parts.1) }
{
    let mut first = list;
    if first.len() <= most {
        return Ok((first, None));
    }
    let second = first.split_off(if at_end { most } else { most / 2 })?;
    Ok((first, Some(second)))
}

/// Fails where one of the nodes can have no more owners. It comes before any of them gets one: the waits
/// for counts that lie in no cache overlap here, and those of raising them would not.
fn check_owners<K: Ord + Share, V: Share, N: Node<K, V>>(
    children: &[Child<K, V, N>],
) -> Result<(), Memory> {
    for child in children {
        if !child.has_room() {
            return Err(Memory);
        }
    }
    Ok(())
}

/// Puts shares of the children at the end of the list.
fn share_children<K: Ord + Share, V: Share, N: Node<K, V>>(
    children: &[Child<K, V, N>],
    list: &mut Vec<Child<K, V, N>>,
) -> Result<(), Memory>
    requires { (k : K) → K.shown k ≡ k }
    ensures { OnOk result (list.new.items ≡ list.old.items ++ children.now) }
{
    for child in children {
        list.push(child.share()?)?;
    }
    Ok(())
}

/// The same nodes in a list of their own, with room for one more.
pub fn shared<K: Ord + Share, V: Share, N: Node<K, V>>(
    alloc: Global,
    nodes: &[Child<K, V, N>],
) -> Result<Vec<Child<K, V, N>>, Memory>
    requires { (k : K) → K.shown k ≡ k }
    ensures { IfOk result (λ list. list.items ≡ nodes.now) }
{
    check_owners(nodes)?;
    let mut list = Vec::with_capacity(alloc, nodes.len().saturating_add(1))?;
    share_children(nodes, &mut list)?;
    Ok(list)
}

/// Puts the child at the end of the list, if there is one.
fn push_child<K: Ord + Share, V: Share, N: Node<K, V>>(
    child: Option<Child<K, V, N>>,
    list: &mut Vec<Child<K, V, N>>,
) -> Result<(), Memory>
    ensures { OnOk result (list.new.items ≡ list.old.items ++ option_to_list child) }
{
    if let Some(child) = child {
        list.push(child)?;
    }
    Ok(())
}

/// The index of the node that the key belongs to.
fn choose<K: Ord + Share, V: Share, N: Node<K, V>>(nodes: &[Child<K, V, N>], key: &K) -> usize
    requires some { 0 < length nodes.now }
    requires level { IsLevel K.cmp (pairs_of N.pairs) N.most nodes.now }
    ensures { IsChosen K.cmp (pairs_of N.pairs) key.now nodes.now result }
{
    nodes
        .partition_point(|child| !child.starts_above(key))
        .saturating_sub(1)
}

/// A node of one pair, alone in its list.
pub fn single_in<K: Ord + Share, V: Share, N: Node<K, V>>(
    alloc: Global,
    key: K,
    value: V,
) -> Result<Vec<Child<K, V, N>>, Memory>
    requires plain { (k : K) → K.shown k ≡ k }
    ensures same { IfOk result (λ list. flat_map (pairs_of N.pairs) list.items ≡ (key, V.shown value) ∷ []) }
    ensures level { IfOk result (λ list. IsLevel K.cmp (pairs_of N.pairs) N.most list.items) }
    ensures len { IfOk result (λ list. length list.items ≡ 1) }
{
    let child = Child::new(alloc, N::single(alloc, key, value)?)?;
    let mut list = Vec::with_capacity(alloc, 1)?;
    list.push(child)?;
    Ok(list)
}

/// The value of the key, among all pairs of the nodes.
pub fn get_in<'a, K: Ord + Share, V: Share, N: Node<K, V>>(
    nodes: &'a [Child<K, V, N>],
    key: &K,
) -> Option<&'a V>
    requires some { 0 < length nodes.now }
    requires level { IsLevel K.cmp (pairs_of N.pairs) N.most nodes.now }
    ensures { MatchOption result (value_at K.cmp key.now (flat_map (pairs_of N.pairs) nodes.now) ≡ None) (λ v. value_at K.cmp key.now (flat_map (pairs_of N.pairs) nodes.now) ≡ Some (V.shown v.now)) }
{
    let at = choose(nodes, key);
    let node = nodes[at].node();
    node.get(key)
}

/// The pair of the greatest key not above this one.
pub fn floor_in<'a, K: Ord + Share, V: Share, N: Node<K, V>>(
    nodes: &'a [Child<K, V, N>],
    key: &K,
) -> Option<(&'a K, &'a V)>
    requires some { 0 < length nodes.now }
    requires level { IsLevel K.cmp (pairs_of N.pairs) N.most nodes.now }
    ensures { MatchOption result (floor_of K.cmp key.now (flat_map (pairs_of N.pairs) nodes.now) ≡ None) (λ p. floor_of K.cmp key.now (flat_map (pairs_of N.pairs) nodes.now) ≡ Some (p.0.now, V.shown p.1.now)) }
{
    let at = choose(nodes, key);
    let node = nodes[at].node();
    node.floor(key)
}

/// The pairs from that of the least key above this one on, as far as one leaf has them.
pub fn run_in<'a, K: Ord + Share, V: Share, N: Node<K, V>>(
    nodes: &'a [Child<K, V, N>],
    key: &K,
) -> &'a [(K, V)]
    requires some { 0 < length nodes.now }
    requires level { IsLevel K.cmp (pairs_of N.pairs) N.most nodes.now }
    ensures { IsRunOf (rest_after K.cmp key.now (flat_map (pairs_of N.pairs) nodes.now)) (map (shown_pair V.shown) result.now) }
{
    let at = choose(nodes, key);
    let node = nodes[at].node();
    let run = node.run_after(key);
    if !run.is_empty() || at + 1 == nodes.len() {
        return run;
    }
    let next = nodes[at + 1].node();
    next.first_run()
}

/// The nodes before, these two if there are such, and the nodes after.
pub fn spliced<K: Ord + Share, V: Share, N: Node<K, V>>(
    alloc: Global,
    before: &[Child<K, V, N>],
    first: Option<Child<K, V, N>>,
    second: Option<Child<K, V, N>>,
    after: &[Child<K, V, N>],
) -> Result<Vec<Child<K, V, N>>, Memory>
    requires { (k : K) → K.shown k ≡ k }
    ensures same { IfOk result (λ list. list.items ≡ before.now ++ option_to_list first ++ option_to_list second ++ after.now) }
    ensures len { IfOk result (λ list. length list.items ≡ length before.now + length (option_to_list first) + length (option_to_list second) + length after.now) }
{
    let mut list = Vec::new(alloc);
    list.reserve(before.len().saturating_add(after.len()).saturating_add(2))?;
    share_children(before, &mut list)?;
    push_child(first, &mut list)?;
    push_child(second, &mut list)?;
    share_children(after, &mut list)?;
    Ok(list)
}

/// The nodes, where the one at the index and the next are merged if they are sparse.
pub fn merged_at<K: Ord + Share, V: Share, N: Node<K, V>>(
    alloc: Global,
    nodes: Vec<Child<K, V, N>>,
    at: usize,
) -> Result<Vec<Child<K, V, N>>, Memory>
    requires plain { (k : K) → K.shown k ≡ k }
    requires level { IsLevel K.cmp (pairs_of N.pairs) N.most nodes.items }
    ensures same { IfOk result (λ list. flat_map (pairs_of N.pairs) list.items ≡ flat_map (pairs_of N.pairs) nodes.items) }
    ensures nodes { IfOk result (λ list. AllNodes (pairs_of N.pairs) N.most list.items) }
    ensures few { IfOk result (λ list. length list.items ≤ length nodes.items) }
{
    let list: &[Child<K, V, N>] = &nodes;
    if at >= list.len() || list.len() - at < 2 {
        return Ok(nodes);
    }
    let node = list[at].node();
    let next = list[at + 1].node();
    let Some(merged) = node.merged(alloc, next)? else {
        return Ok(nodes);
    };
    let both = Child::new(alloc, merged)?;
    let fewer = spliced(alloc, &list[..at], Some(both), None, &list[at + 2..])?;
    Ok(fewer)
}

/// The nodes, where the one at the index and its neighbours are merged if they are sparse.
fn merged_round<K: Ord + Share, V: Share, N: Node<K, V>>(
    alloc: Global,
    nodes: Vec<Child<K, V, N>>,
    at: usize,
) -> Result<Vec<Child<K, V, N>>, Memory>
    requires plain { (k : K) → K.shown k ≡ k }
    requires level { IsLevel K.cmp (pairs_of N.pairs) N.most nodes.items }
    ensures same { IfOk result (λ list. flat_map (pairs_of N.pairs) list.items ≡ flat_map (pairs_of N.pairs) nodes.items) }
    ensures nodes { IfOk result (λ list. AllNodes (pairs_of N.pairs) N.most list.items) }
    ensures few { IfOk result (λ list. length list.items ≤ length nodes.items) }
{
    let once = merged_at(alloc, nodes, at)?;
    if at == 0 {
        return Ok(once);
    }
    let twice = merged_at(alloc, once, at - 1)?;
    Ok(twice)
}

/// The list from which `swap_remove` took the element at the index, with this one in its place or with none.
fn put_back<T: Drop>(rest: Vec<T>, at: usize, element: Option<T>) -> Result<Vec<T>, Memory>
    requires { at ≤ length rest.items }
    ensures same { IfOk result (λ list. (all : List T) (d : T) → at < length all → rest.items ≡ swap_remove all at d → list.items ≡ take at all ++ option_to_list element ++ drop (at + 1) all) }
    ensures len { IfOk result (λ list. length list.items ≡ length rest.items + length (option_to_list element)) }
{
    let mut list = rest;
    if let Some(element) = element {
        let last = list.len();
        list.push(element)?;
        list.swap(at, last);
        return Ok(list);
    }
    if at < list.len() {
        let last = list.remove(at);
        list.push(last)?;
    }
    Ok(list)
}

/// The child over the node in this place, if there is one.
fn child_over<K: Ord + Share, V: Share, N: Node<K, V>>(
    alloc: Global,
    place: Place<N>,
    node: Option<N>,
) -> Result<Option<Child<K, V, N>>, Memory>
    requires { (k : K) → K.shown k ≡ k }
    ensures same { IfOk result (λ child. pairs_of (pairs_of N.pairs) child ≡ pairs_of N.pairs node) }
    ensures node { IfOk result (λ child. (most : ℕ) → IsNodeOrNone N.pairs most node → IsNodeOrNone (pairs_of N.pairs) most child) }
{
    match node {
        Some(node) => Ok(Some(Child::in_place(alloc, place, node)?)),
        None => Ok(None),
    }
}

/// The nodes from which `swap_remove` took the one at the index, with these in its place.
fn replaced<K: Ord + Share, V: Share, N: Node<K, V>>(
    rest: Vec<Child<K, V, N>>,
    at: usize,
    first: Child<K, V, N>,
    second: Option<Child<K, V, N>>,
) -> Result<Vec<Child<K, V, N>>, Memory>
    requires { at ≤ length rest.items }
    ensures { IfOk result (λ list. (all : List (Option N)) (d : Option N) → at < length all → rest.items ≡ swap_remove all at d → list.items ≡ take at all ++ first ∷ [] ++ option_to_list second ++ drop (at + 1) all) }
{
    let mut list = put_back(rest, at, Some(first))?;
    if let Some(second) = second {
        list.insert(at + 1, second)?;
    }
    Ok(list)
}

/// The nodes with the pair, and whether its key was new.
pub fn with_in<K: Ord + Share, V: Share, N: Node<K, V>>(
    alloc: Global,
    nodes: Vec<Child<K, V, N>>,
    key: K,
    value: V,
) -> Result<(Vec<Child<K, V, N>>, bool), Memory>
    requires plain { (k : K) → K.shown k ≡ k }
    requires some { 0 < length nodes.items }
    requires level { IsLevel K.cmp (pairs_of N.pairs) N.most nodes.items }
    ensures same { IfOk result (λ list. flat_map (pairs_of N.pairs) list.0.items ≡ with_pair K.cmp key (V.shown value) (flat_map (pairs_of N.pairs) nodes.items)) }
    ensures level { IfOk result (λ list. IsLevel K.cmp (pairs_of N.pairs) N.most list.0.items) }
    ensures few { IfOk result (λ list. length list.0.items ≤ length nodes.items + 1) }
    ensures new { IfOk result (λ list. IsTrue list.1 ↔ (value_at K.cmp key (flat_map (pairs_of N.pairs) nodes.items) ≡ None)) }
{
    let at = choose(&nodes, &key);
    let mut rest = nodes;
    let Taken { node, place } = rest.swap_remove(at).into_node(alloc)?;
    let With {
        first,
        second,
        is_new,
    } = node.with(alloc, key, value)?;
    let is_split = second.is_some();
    let first = Child::in_place(alloc, place, first)?;
    let second = child_over(alloc, Place::none(), second)?;
    let list = replaced(rest, at, first, second)?;
    if !is_split {
        return Ok((list, is_new));
    }
    let merged = merged_at(alloc, list, at + 1)?;
    Ok((merged, is_new))
}

/// The nodes without the key.
pub fn without_in<K: Ord + Share, V: Share, N: Node<K, V>>(
    alloc: Global,
    nodes: Vec<Child<K, V, N>>,
    key: &K,
) -> Result<Vec<Child<K, V, N>>, Memory>
    requires plain { (k : K) → K.shown k ≡ k }
    requires some { 0 < length nodes.items }
    requires level { IsLevel K.cmp (pairs_of N.pairs) N.most nodes.items }
    ensures same { IfOk result (λ list. flat_map (pairs_of N.pairs) list.items ≡ without_key K.cmp key.now (flat_map (pairs_of N.pairs) nodes.items)) }
    ensures level { IfOk result (λ list. IsLevel K.cmp (pairs_of N.pairs) N.most list.items) }
    ensures few { IfOk result (λ list. length list.items ≤ length nodes.items) }
{
    let at = choose(&nodes, key);
    let mut rest = nodes;
    let Taken { node, place } = rest.swap_remove(at).into_node(alloc)?;
    let left = child_over(alloc, place, node.without(alloc, key)?)?;
    let list = put_back(rest, at, left)?;
    let merged = merged_round(alloc, list, at)?;
    Ok(merged)
}
