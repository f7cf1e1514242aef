//! The strict orders that can be laid out, each by pairs from which it follows.

ghost use Rattle.std.specs.Prelude.{◌<◌, ◌≤◌, IfOk};
ghost use Rattle.pj_reach.specs.Reach.{AreEdgesBelow};

use std::alloc::{AllocError, Global};

/// The greatest number of classes.
pub const MOST: u32 = 16_384;

/// A strict order to lay out.
#[derive(Clone, Copy)]
pub enum Order {
    /// Each class is before all greater ones.
    Chain,
    /// No class is before another.
    Antichain,
    /// An even class is before all greater ones, and an odd one before none.
    Nested,
    /// Four pairs for each class, drawn from a strict order, and what follows from them.
    Random,
}

/// The order that a word names.
pub fn order_of(word: &str) -> Option<Order> {
    match word {
        "chain" => Some(Order::Chain),
        "antichain" => Some(Order::Antichain),
        "nested" => Some(Order::Nested),
        "random" => Some(Order::Random),
        _ => None,
    }
}

/// Pairs from which an order of the classes below `size` follows.
pub fn pairs_of(alloc: Global, order: Order, size: u32) -> Result<Vec<(u32, u32)>, AllocError>
    requires { size ≤ MOST }
    ensures { IfOk result (λ pairs. AreEdgesBelow size pairs.items) }
{
    match order {
        Order::Chain => chain(alloc, size),
        Order::Antichain => Ok(Vec::new(alloc)),
        Order::Nested => nested(alloc, size),
        Order::Random => random(alloc, size),
    }
}

/// Each class and the next one.
fn chain(alloc: Global, size: u32) -> Result<Vec<(u32, u32)>, AllocError>
    ensures { IfOk result (λ pairs. AreEdgesBelow size pairs.items) }
{
    let mut pairs = Vec::new(alloc);
    for class in 1..size {
        pairs.push((class - 1, class))?;
    }
    Ok(pairs)
}

/// The greatest even class below each class, and the class.
fn nested(alloc: Global, size: u32) -> Result<Vec<(u32, u32)>, AllocError>
    ensures { IfOk result (λ pairs. AreEdgesBelow size pairs.items) }
{
    let mut pairs = Vec::new(alloc);
    for class in 1..size {
        pairs.push(((class - 1) / 2 * 2, class))?;
    }
    Ok(pairs)
}

/// The next of a row of numbers that look random.
fn next(seed: u32) -> u32 {
    seed.wrapping_mul(1_664_525).wrapping_add(1_013_904_223)
}

/// The class that has a place in the order. The places of all classes differ where `size` is a power of two,
/// as the factor is odd.
fn class_at(place: u32, size: u32) -> u32
    requires place_is_there { place < size }
    requires few { size ≤ MOST }
    ensures { result < size }
{
    (place * 6_061 + 1) % size
}

fn random(alloc: Global, size: u32) -> Result<Vec<(u32, u32)>, AllocError>
    requires { size ≤ MOST }
    ensures { IfOk result (λ pairs. AreEdgesBelow size pairs.items) }
{
    let mut pairs = Vec::new(alloc);
    let mut seed = 1;
    for _ in 0..4 * size {
        seed = next(seed);
        let one = (seed >> 16) % size;
        seed = next(seed);
        let other = (seed >> 16) % size;
        if one != other {
            pairs.push((
                class_at(one.min(other), size),
                class_at(one.max(other), size),
            ))?;
        }
    }
    Ok(pairs)
}
