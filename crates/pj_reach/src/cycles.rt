//! Which classes have an edge within them.

ghost use Rattle.std.specs.Prelude.{◌≡◌, ◌<◌, ◌↔◌, ℕ, length, slice_index, slice_index_or, false, true, IfOk};
ghost use Rattle.pj_reach.specs.Reach.{AreEdgesBelow};
ghost use Rattle.pj_reach.specs.Cycles.{HasInnerEdge};

use std::alloc::{AllocError, Global};

/// For each class whether an edge leads from a member to a member.
pub fn inner_edges(
    alloc: Global,
    edges: &[(u32, u32)],
    class_of: &[u32],
    classes: u32,
) -> Result<Vec<bool>, AllocError>
    requires graph { AreEdgesBelow (length class_of.now) edges.now }
    requires in_range { (v : ℕ) → v < length class_of.now → slice_index class_of.now v < classes }
    ensures len { IfOk result (λ inner. length inner.items ≡ classes) }
    ensures inner { IfOk result (λ inner. (class : ℕ) → class < classes → (slice_index_or inner.items class false ≡ true) ↔ HasInnerEdge edges.now class_of.now class) }
{
    let mut inner = vec![in alloc; false; classes as usize]?;
    for edge in edges {
        let class = class_of[edge.0 as usize];
        if class == class_of[edge.1 as usize] {
            inner[class as usize] = true;
        }
    }
    Ok(inner)
}
