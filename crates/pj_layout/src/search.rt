//! The sets into which links part a list of classes.

ghost use Rattle.std.specs.Prelude.{◌≡◌, ◌<◌, true, map, All, IfOk};
ghost use Rattle.pj_bits.specs.Matrix.{size as size_of};
ghost use Rattle.pj_bits.specs.Row.{has, size as columns};
ghost use Rattle.pj_layout.specs.Orders.{Before};
ghost use Rattle.pj_layout.specs.Parts.{Joins, IsTaken, ArePartsOf};

use crate::link::Link;
use crate::order::Order;
use pj_bits::{BitRow, Memory};
use std::alloc::Global;

/// Takes out of `rest` the classes that links within it join to `start`.
fn linked_set(
    alloc: Global,
    order: &Order,
    link: Link,
    rest: &mut BitRow,
    start: u32,
) -> Result<Vec<u32>, Memory>
    requires size { columns rest.old ≡ size_of order.now.before.now }
    requires start { has rest.old start ≡ true }
    ensures size { columns rest.new ≡ columns rest.old }
    ensures taken { IfOk result (λ part. IsTaken (Joins link (Before order.now.before.now)) rest.old rest.new start part.items) }
{
    let size = rest.size();
    let mut set = BitRow::new(alloc, size)?;
    let mut near = BitRow::new(alloc, size)?;
    let mut frontier = BitRow::new(alloc, size)?;
    rest.clear(start);
    frontier.set(start);
    while let Some(class) = frontier.next(0) {
        frontier.clear(class);
        set.set(class);
        near.copy_row(order.before, class);
        near.or_row(&order.after, class);
        match link {
            Link::Ordered => rest.move_common(&mut frontier, &near),
            Link::Unordered => rest.move_others(&mut frontier, &near),
        }
    }
    set.ones(alloc)
}

/// The linked sets that make up the classes of a list, in the order of their first classes in the list.
pub fn linked_sets(
    alloc: Global,
    order: &Order,
    link: Link,
    classes: &[u32],
) -> Result<Vec<Vec<u32>>, Memory>
    requires { All (λ class. class < size_of order.now.before.now) classes.now }
    ensures { IfOk result (λ parts. ArePartsOf (Joins link (Before order.now.before.now)) classes.now (map (λ part. part.items) parts.items)) }
{
    let mut rest = BitRow::new(alloc, order.before.size())?;
    for &class in classes {
        rest.set(class);
    }
    let mut parts = Vec::new(alloc);
    for &class in classes {
        if rest.get(class) {
            parts.push(linked_set(alloc, order, link, &mut rest, class)?)?;
        }
    }
    Ok(parts)
}
