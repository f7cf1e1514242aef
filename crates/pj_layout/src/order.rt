//! What searches ask of an order: both its directions, and the rank of each class.

ghost use Rattle.std.specs.Prelude.{◌≡◌, ◌<◌, ℕ, true, map, slice_index, IfOk};
ghost use Rattle.std.specs.List.{range_with_len};
ghost use Rattle.pj_bits.specs.Matrix.{bit, size as size_of};
ghost use Rattle.pj_change.specs.Layout.{IsStrictOrder};
ghost use Rattle.pj_layout.specs.Counts.{predecessors};
ghost use Rattle.pj_layout.specs.Orders.{Before, IsPrepared};

use crate::counts::ColumnCounts;
use pj_bits::{BitMatrix, Memory};
use std::alloc::{AllocError, Global};

/// A strict order of classes, prepared for searches.
#[derive(Drop)]
pub struct Order<'a> {
    /// The bit in row `a` and column `b` says whether the class `a` is before the class `b`.
    pub before: &'a BitMatrix,
    /// The same turned round.
    pub after: BitMatrix,
    /// How many classes are before each one.
    pub ranks: Vec<u32>,
    ghost prepared: { IsPrepared before.now after ranks.items },
}

/// All classes below a number.
pub fn classes(alloc: Global, size: u32) -> Result<Vec<u32>, AllocError>
    ensures { IfOk result (λ all. all.items ≡ range_with_len 0 size) }
{
    let mut all = Vec::with_capacity(alloc, size as usize)?;
    for class in 0..size {
        all.push(class)?;
    }
    Ok(all)
}

/// How many classes are before each one.
fn ranks(alloc: Global, before: &BitMatrix) -> Result<Vec<u32>, Memory>
    requires { IsStrictOrder (Before before.now) }
    ensures counted { IfOk result (λ ranks. let classes = range_with_len 0 (size_of before.now) in ranks.items ≡ map (predecessors before.now classes) classes) }
    ensures rising { IfOk result (λ ranks. (x y : ℕ) → bit before.now x y ≡ true → slice_index ranks.items x < slice_index ranks.items y) }
{
    let size = before.size();
    let classes = classes(alloc, size)?;
    let counts = ColumnCounts::of(alloc, before, classes.as_slice())?;
    let mut ranks = Vec::with_capacity(alloc, size as usize)?;
    for class in 0..size {
        ranks.push(counts.get(class))?;
    }
    Ok(ranks)
}

impl<'a> Order<'a> {
    /// Prepares an order.
    pub fn of(alloc: Global, before: &'a BitMatrix) -> Result<Order<'a>, Memory>
        requires { IsStrictOrder (Before before.now) }
        ensures { IfOk result (λ order. order.before.now ≡ before.now) }
    {
        let after = before.transposed(alloc)?;
        let ranks = ranks(alloc, before)?;
        Ok(Order {
            before,
            after,
            ranks,
        })
    }
}
