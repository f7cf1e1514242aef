//! The order of the vertices of a graph, where its edges leave only one.

ghost use Rattle.std.specs.Prelude.{◌≡◌, ◌<◌, ℕ, suc, true, false, Some, length, slice_get, slice_index_or, IsTrue, IfOk, IfSome};
ghost use Rattle.pj_print.specs.OnlyOrder.{IsInverse, LeadOnward, AreJoined, IsOnlyOrder};
ghost use Rattle.pj_reach.specs.Reach.{AreEdgesBelow};

use std::alloc::{AllocError, Global};

/// The targets of the edges that leave each number.
fn targets_by_source(
    alloc: Global,
    size: u32,
    edges: &[(u32, u32)],
) -> Result<Vec<Vec<u32>>, AllocError> {
    let mut targets = Vec::with_capacity(alloc, size as usize)?;
    for _ in 0..size {
        targets.push(Vec::new(alloc))?;
    }
    for &(source, target) in edges {
        if let Some(leaving) = targets.get_mut(source as usize) {
            leaving.push(target)?;
        }
    }
    Ok(targets)
}

/// How many edges lead to each number.
fn counts_by_target(
    alloc: Global,
    size: u32,
    edges: &[(u32, u32)],
) -> Result<Vec<usize>, AllocError> {
    let mut counts = vec![in alloc; 0usize; size as usize]?;
    for &(_, target) in edges {
        if let Some(count) = counts.get_mut(target as usize) {
            *count = count.saturating_add(1);
        }
    }
    Ok(counts)
}

/// The first number to which no edge leads.
fn first_number(counts: &[usize]) -> Option<u32> {
    let number = counts.iter().position(|count| *count == 0)?;
    u32::try_from(number).ok()
}

/// Takes the edges to these targets away, and gives one to which no edge is left.
fn next_number(targets: &[u32], counts: &mut [usize]) -> Option<u32> {
    let mut next = None;
    for &target in targets {
        if let Some(count) = counts.get_mut(target as usize) {
            *count = count.saturating_sub(1);
            if *count == 0 {
                next = Some(target);
            }
        }
    }
    next
}

/// The order of the numbers, where there is only one; else any list.
fn order_of(alloc: Global, size: u32, edges: &[(u32, u32)]) -> Result<Vec<u32>, AllocError> {
    let targets = targets_by_source(alloc, size, edges)?;
    let mut counts = counts_by_target(alloc, size, edges)?;
    let mut order = Vec::with_capacity(alloc, size as usize)?;
    let mut next = first_number(&counts);
    for _ in 0..size {
        let Some(number) = next else {
            break;
        };
        order.push(number)?;
        next = match targets.get(number as usize) {
            Some(leaving) => next_number(leaving, &mut counts),
            None => None,
        };
    }
    Ok(order)
}

/// The place of each number in the order, where it has one.
fn places_in(alloc: Global, size: u32, order: &[u32]) -> Result<Vec<u32>, AllocError>
    ensures { IfOk result (λ places. length places.items ≡ size) }
{
    let mut places = vec![in alloc; 0u32; size as usize]?;
    for at in 0..size {
        if let Some(number) = order.get(at as usize) {
            if *number < size {
                places[*number as usize] = at;
            }
        }
    }
    Ok(places)
}

/// Whether the number stands at this place.
fn has_at(numbers: &[u32], at: u32, number: u32) -> bool
    ensures { IsTrue result → slice_get numbers.now at ≡ Some number }
{
    match numbers.get(at as usize) {
        Some(there) => *there == number,
        None => false,
    }
}

/// Whether the other list has each number at the place that stands at its place in the one.
fn is_inverse(size: u32, one: &[u32], other: &[u32]) -> bool
    requires { length one.now ≡ size }
    ensures { IsTrue result → IsInverse size one.now other.now }
{
    for number in 0..size {
        if !has_at(other, one[number as usize], number) {
            return false;
        }
    }
    true
}

/// Whether each edge leads to a later place.
fn lead_onward(edges: &[(u32, u32)], places: &[u32]) -> bool
    requires { AreEdgesBelow (length places.now) edges.now }
    ensures { IsTrue result → LeadOnward edges.now places.now }
{
    for edge in edges {
        if places[edge.0 as usize] >= places[edge.1 as usize] {
            return false;
        }
    }
    true
}

/// For each place whether an edge leads from it to the next one.
fn joined_to_next(
    alloc: Global,
    size: u32,
    edges: &[(u32, u32)],
    places: &[u32],
) -> Result<Vec<bool>, AllocError>
    requires graph { AreEdgesBelow size edges.now }
    requires places { length places.now ≡ size }
    ensures len { IfOk result (λ joined. length joined.items ≡ size) }
    ensures joined { IfOk result (λ joined. (at : ℕ) → slice_index_or joined.items at false ≡ true → AreJoined edges.now places.now at) }
{
    let mut joined = vec![in alloc; false; size as usize]?;
    for edge in edges {
        let at = places[edge.0 as usize];
        if at < size && places[edge.1 as usize].saturating_sub(at) == 1 {
            joined[at as usize] = true;
        }
    }
    Ok(joined)
}

/// Whether an edge leads from each place to the next one.
fn are_all_joined(size: u32, joined: &[bool]) -> bool
    requires { length joined.now ≡ size }
    ensures { IsTrue result → (at : ℕ) → suc at < size → slice_index_or joined.now at false ≡ true }
{
    for next in 1..size {
        if !joined[next as usize - 1] {
            return false;
        }
    }
    true
}

/// Whether the list is the only order that the edges leave, where these are its places.
fn is_only_order(
    alloc: Global,
    size: u32,
    edges: &[(u32, u32)],
    order: &[u32],
    places: &[u32],
) -> Result<bool, AllocError>
    requires graph { AreEdgesBelow size edges.now }
    requires places { length places.now ≡ size }
    ensures { IfOk result (λ is_only. IsTrue is_only → IsOnlyOrder edges.now size order.now) }
{
    if order.len() != size as usize {
        return Ok(false);
    }
    if !is_inverse(size, order, places) || !is_inverse(size, places, order) {
        return Ok(false);
    }
    if !lead_onward(edges, places) {
        return Ok(false);
    }
    let joined = joined_to_next(alloc, size, edges, places)?;
    Ok(are_all_joined(size, &joined))
}

/// The order of the numbers below `size`, where the edges lead onward in it and one leads from each number to the next, so that they
/// leave no other. It is found and tested in time linear in the numbers and the edges.
pub fn only_order(
    alloc: Global,
    size: u32,
    edges: &[(u32, u32)],
) -> Result<Option<Vec<u32>>, AllocError>
    requires { AreEdgesBelow size edges.now }
    ensures { IfOk result (λ found. IfSome found (λ order. IsOnlyOrder edges.now size order.items)) }
{
    let order = order_of(alloc, size, edges)?;
    let places = places_in(alloc, size, &order)?;
    if is_only_order(alloc, size, edges, &order, &places)? {
        Ok(Some(order))
    } else {
        Ok(None)
    }
}
