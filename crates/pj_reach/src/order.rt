//! Which classes come before which, as a matrix.

ghost use Rattle.std.specs.Prelude.{◌≡◌, ◌<◌, length, IfOk};
ghost use Rattle.pj_bits.specs.Matrix.{size as size_of};
ghost use Rattle.pj_reach.specs.Reach.{AreEdgesBelow};
ghost use Rattle.pj_reach.specs.Links.{IsLinked};
ghost use Rattle.pj_reach.specs.Classes.{IsCondensed};
ghost use Rattle.pj_reach.specs.Orders.{HasClasses, IsSound, KeepsDone, IsDoneAt, IsDoneBehind, IsOrdered};

use crate::links::Links;
use crate::traversal::Forest;
use pj_bits::{BitMatrix, Memory};
use std::alloc::Global;

/// Puts into the row of a vertex's class what lies behind the edges that leave the vertex.
/// The rows of the classes to which they lead are full.
fn follow(
    edges: &[(u32, u32)],
    links: &Links,
    class_of: &[u32],
    classes: u32,
    vertex: u32,
    before: &mut BitMatrix,
)
    requires graph { AreEdgesBelow (length class_of.now) edges.now }
    requires linked { IsLinked (length class_of.now) edges.now links.now.last.items links.now.earlier.items }
    requires classes { HasClasses (length class_of.now) edges.now class_of.now classes }
    requires vertex_in { vertex < length class_of.now }
    requires size { size_of before.old ≡ classes }
    requires sound { IsSound (length class_of.now) edges.now class_of.now before.old }
    requires full { IsDoneBehind (length class_of.now) edges.now class_of.now before.old vertex }
    ensures size { size_of before.new ≡ classes }
    ensures sound { IsSound (length class_of.now) edges.now class_of.now before.new }
    ensures kept { KeepsDone (length class_of.now) edges.now class_of.now before.old before.new }
    ensures done { IsDoneAt (length class_of.now) edges.now class_of.now before.new vertex }
{
    let class = class_of[vertex as usize];
    let mut next = links.last[vertex as usize];
    while let Some(edge) = next {
        let other = class_of[edges[edge].1 as usize];
        if other != class {
            before.set(class, other);
            before.or_row(class, other);
        }
        next = links.earlier[edge];
    }
}

/// The strict order between classes, from the vertices listed tree by tree, where edges lead to no earlier tree.
pub fn order(
    alloc: Global,
    edges: &[(u32, u32)],
    links: &Links,
    trees: &Forest,
    class_of: &[u32],
    classes: u32,
) -> Result<BitMatrix, Memory>
    requires graph { AreEdgesBelow (length class_of.now) edges.now }
    requires linked { IsLinked (length class_of.now) edges.now links.now.last.items links.now.earlier.items }
    requires classes { HasClasses (length class_of.now) edges.now class_of.now classes }
    requires trees { IsCondensed (length class_of.now) edges.now trees.now.tree_of.items trees.now.finished.items }
    ensures size { IfOk result (λ before. size_of before ≡ classes) }
    ensures order { IfOk result (λ before. IsOrdered (length class_of.now) edges.now class_of.now before) }
{
    let mut before = BitMatrix::new(alloc, classes)?;
    for place in (0..trees.finished.len()).rev() {
        follow(
            edges,
            links,
            class_of,
            classes,
            trees.finished[place],
            &mut before,
        );
    }
    Ok(before)
}
