//! Which vertices are of each class.

ghost use Rattle.std.specs.Prelude.{map, IfOk};
ghost use Rattle.pj_reach.specs.Closure.{size};
ghost use Rattle.pj_marks.specs.Grouped.{IsGrouped};

use pj_reach::Reached;
use std::alloc::{AllocError, Global};

/// The vertices of each class, by rising number.
pub fn members(alloc: Global, reached: &Reached) -> Result<Vec<Vec<u32>>, AllocError>
    ensures { IfOk result (λ found. IsGrouped reached.now (size reached.now) (map (λ class. class.items) found.items)) }
{
    let mut members = Vec::with_capacity(alloc, reached.classes() as usize)?;
    for _ in 0..reached.classes() {
        members.push(Vec::new(alloc))?;
    }
    for at in 0..reached.size() {
        members[reached.class_of(at) as usize].push(at)?;
    }
    Ok(members)
}
