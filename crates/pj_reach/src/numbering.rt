//! The numbers that the classes of a graph get.

ghost use Rattle.std.specs.Prelude.{◌≡◌, ◌<◌, ◌^◌, ℕ, length, slice_index, IfOk};
ghost use Rattle.pj_reach.specs.Numbering.{IsNumbering};

use std::alloc::{AllocError, Global};

/// The classes with their numbers.
#[derive(Drop)]
pub struct Numbering {
    /// The class of each vertex.
    pub class_of: Vec<u32>,
    /// How many classes there are.
    pub classes: u32,
}

/// Numbers the trees in the order of their least vertices.
pub fn number(alloc: Global, tree_of: &[u32]) -> Result<Numbering, AllocError>
    requires small { length tree_of.now < 2 ^ 32 }
    requires few { (v : ℕ) → v < length tree_of.now → slice_index tree_of.now v < length tree_of.now }
    ensures { IfOk result (λ n. IsNumbering (length tree_of.now) tree_of.now n.class_of.items n.classes) }
{
    let mut number_of: Vec<Option<u32>> = vec![in alloc; None; tree_of.len()]?;
    let mut class_of = Vec::with_capacity(alloc, tree_of.len())?;
    let mut classes = 0;
    for &tree in tree_of {
        match number_of[tree as usize] {
            Some(class) => class_of.push(class)?,
            None => {
                number_of[tree as usize] = Some(classes);
                class_of.push(classes)?;
                classes += 1;
            }
        }
    }
    Ok(Numbering { class_of, classes })
}
