//! The names of the changes of a list, one after the other.

ghost use Rattle.std.specs.Prelude.{◌≡◌, map, IfOk};

use pj_apply::Held;
use pj_change::Memory;
use pj_name::Name;
use std::alloc::Global;

/// The names of the changes, in their order.
pub fn names_of(alloc: Global, held: &Held) -> Result<Vec<Name>, Memory>
    ensures { IfOk result (λ names. names.items ≡ map (λ r. r.name) held.now) }
{
    let mut names = Vec::new(alloc);
    let mut after = None;
    while let Some(change) = held.next(after) {
        after = Some(change.name);
        names.push(change.name)?;
    }
    Ok(names)
}
