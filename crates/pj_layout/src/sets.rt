//! The layout of an order, and of each set of its classes.

ghost use Rattle.std.specs.Prelude.{◌<◌, ◌≤◌, map, All, IfOk, slice_index, length};
ghost use Rattle.std.specs.List.{range_with_len};
ghost use Rattle.std.specs.Ordering.{nat_cmp};
ghost use Rattle.std.specs.List.Sorted.{IsStrictlySortedBy, IsPermutation, IsNonDecreasingBy};
ghost use Rattle.pj_bits.specs.Matrix.{size as size_of};
ghost use Rattle.pj_change.specs.Layout.{IsStrictOrder, IsLayout, AreLayouts};
ghost use Rattle.pj_layout.specs.Orders.{Before};
ghost use Rattle.pj_layout.specs.Shapes.{shape, shapes_of};

use crate::layout::Layout;
use crate::link::Link;
use crate::order::{Order, classes};
use crate::search::linked_sets;
use crate::tangle::tangle;
use pj_bits::{BitMatrix, Memory};
use pj_change::DEEPEST_LAYOUT;
use std::alloc::{AllocError, Global};

/// A class and its rank.
#[derive(Clone, Copy)]
struct Ranked {
    rank: u32,
    class: u32,
}

/// The classes by rising rank.
fn by_rank(alloc: Global, ranks: &[u32], classes: &[u32]) -> Result<Vec<u32>, AllocError>
    requires { All (λ class. class < length ranks.now) classes.now }
    ensures same { IfOk result (λ sorted. IsPermutation classes.now sorted.items) }
    ensures rising { IfOk result (λ sorted. IsNonDecreasingBy (λ class. slice_index ranks.now class) sorted.items) }
{
    let mut ranked = Vec::with_capacity(alloc, classes.len())?;
    for &class in classes {
        ranked.push(Ranked {
            rank: ranks[class as usize],
            class,
        })?;
    }
    ranked.sort_by_key(|r| r.rank)?;
    ranked.iter().map(|r| r.class).collect(alloc)
}

/// The layout of a set of classes at a depth.
#[cycle(lay)]
fn lay_set(alloc: Global, order: &Order, depth: u32, classes: &[u32]) -> Result<Layout, Memory>
    requires depth { depth ≤ DEEPEST_LAYOUT }
    requires sorted { IsStrictlySortedBy nat_cmp classes.now }
    requires inside { All (λ class. class < size_of order.now.before.now) classes.now }
    ensures { IfOk result (λ layout. IsLayout (Before order.now.before.now) depth classes.now (shape layout)) }
{
    if classes.len() == 0 {
        return Ok(Layout::Series(Vec::new(alloc)));
    }
    if classes.len() == 1 {
        return Ok(Layout::One(classes[0]));
    }
    if depth < DEEPEST_LAYOUT {
        let by_rank = by_rank(alloc, order.ranks.as_slice(), classes)?;
        let parts = linked_sets(alloc, order, Link::Unordered, by_rank.as_slice())?;
        if parts.len() > 1 {
            let layouts = lay_sets(alloc, order, depth + 1, parts.as_slice())?;
            return Ok(Layout::Series(layouts));
        }
        let parts = linked_sets(alloc, order, Link::Ordered, classes)?;
        if parts.len() > 1 {
            let layouts = lay_sets(alloc, order, depth + 1, parts.as_slice())?;
            return Ok(Layout::Sides(layouts));
        }
    }
    Ok(Layout::Tangle(tangle(alloc, order, classes)?))
}

/// The layouts of sets of classes at a depth.
#[cycle(lay)]
fn lay_sets(
    alloc: Global,
    order: &Order,
    depth: u32,
    sets: &[Vec<u32>],
) -> Result<Vec<Layout>, Memory>
    requires depth { depth ≤ DEEPEST_LAYOUT }
    requires sorted { All (λ set. IsStrictlySortedBy nat_cmp set.items) sets.now }
    requires inside { All (λ set. All (λ class. class < size_of order.now.before.now) set.items) sets.now }
    ensures { IfOk result (λ layouts. AreLayouts (Before order.now.before.now) depth (map (λ set. set.items) sets.now) (shapes_of (map shape layouts.items))) }
{
    let mut layouts = Vec::with_capacity(alloc, sets.len())?;
    for set in sets {
        layouts.push(lay_set(alloc, order, depth, set.as_slice())?)?;
    }
    Ok(layouts)
}

/// The layout of all classes of a strict order: the bit in row `a` and column `b` says whether
/// the class `a` is before the class `b`.
///
/// A set of classes is parted down to the depth `DEEPEST_LAYOUT`. At each depth the work is a constant
/// number of rows of bits for each class of a set, and for a tangle one for each binary digit of the
/// count of classes. The memory is two matrices, and a constant number of words for each class and depth.
pub fn lay(alloc: Global, before: &BitMatrix) -> Result<Layout, Memory>
    requires { IsStrictOrder (Before before.now) }
    ensures { IfOk result (λ layout. IsLayout (Before before.now) 0 (range_with_len 0 (size_of before.now)) (shape layout)) }
{
    let order = Order::of(alloc, before)?;
    let classes = classes(alloc, before.size())?;
    lay_set(alloc, &order, 0, classes.as_slice())
}
