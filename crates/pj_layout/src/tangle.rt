//! The order of the classes in a tangle.

ghost use Rattle.std.specs.Prelude.{◌≡◌, ◌<◌, ◌↔◌, ℕ, true, All, Contains, IfOk};
ghost use Rattle.std.specs.Ordering.{nat_cmp};
ghost use Rattle.std.specs.List.Sorted.{IsStrictlySortedBy};
ghost use Rattle.pj_bits.specs.Matrix.{size as size_of};
ghost use Rattle.pj_bits.specs.Row.{has, size as columns};
ghost use Rattle.pj_change.specs.Layout.{IsTangle};
ghost use Rattle.pj_layout.specs.Orders.{Before};

use crate::counts::ColumnCounts;
use crate::order::Order;
use pj_bits::{BitRow, Memory};
use std::alloc::Global;

/// The row that has the classes.
fn row_of(alloc: Global, size: u32, classes: &[u32]) -> Result<BitRow, Memory>
    requires { All (λ class. class < size) classes.now }
    ensures size { IfOk result (λ row. columns row ≡ size) }
    ensures classes { IfOk result (λ row. (c : ℕ) → (has row c ≡ true) ↔ Contains classes.now c) }
{
    let mut row = BitRow::new(alloc, size)?;
    for &class in classes {
        row.set(class);
    }
    Ok(row)
}

/// The classes of a set, of which the least one with none left before it is taken again and again.
pub fn tangle(alloc: Global, order: &Order, classes: &[u32]) -> Result<Vec<u32>, Memory>
    requires sorted { IsStrictlySortedBy nat_cmp classes.now }
    requires inside { All (λ class. class < size_of order.now.before.now) classes.now }
    ensures { IfOk result (λ taken. IsTangle (Before order.now.before.now) classes.now taken.items) }
{
    let size = order.before.size();
    let mut rest = row_of(alloc, size, classes)?;
    let mut counts = ColumnCounts::of(alloc, order.before, classes)?;
    let mut row = BitRow::new(alloc, size)?;
    let mut free = BitRow::new(alloc, size)?;
    let mut taken = Vec::with_capacity(alloc, classes.len())?;
    'taking: loop {
        let mut counted = BitRow::new(alloc, size)?;
        counts.lower(&mut row, &mut counted);
        rest.move_others(&mut free, &counted);
        let Some(class) = free.next(0) else {
            break 'taking
        };
        free.clear(class);
        taken.push(class)?;
        row.copy_row(order.before, class);
    }
    Ok(taken)
}
