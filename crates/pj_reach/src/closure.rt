//! The whole way from the edges of a graph to its closure.

ghost use Rattle.std.specs.Prelude.{◌≡◌, IfOk};
ghost use Rattle.pj_reach.specs.Reach.{AreEdgesBelow};
ghost use Rattle.pj_reach.specs.Closure.{size, HasStrongClasses, IsNumberedByLeast, HasCyclicClasses, HasOrder, HasStrictOrder};

use crate::classes::condense;
use crate::cycles::inner_edges;
use crate::links::link;
use crate::numbering::number;
use crate::order::order;
use crate::reached::Reached;
use pj_bits::Memory;
use std::alloc::Global;

/// The strong classes of the graph on the numbers below `n` with these edges, and the strict order between them.
/// Loops, repeats and cycles may be among the edges, in any order.
///
/// The work is linear in the numbers and the edges, and one row of `n` bits for each edge between classes.
/// The memory is one matrix of at most `n` rows and columns, and a few words for each number and each edge.
pub fn close(alloc: Global, n: u32, edges: &[(u32, u32)]) -> Result<Reached, Memory>
    requires { AreEdgesBelow n edges.now }
    ensures size { IfOk result (λ r. size r ≡ n) }
    ensures classes { IfOk result (HasStrongClasses edges.now) }
    ensures numbers { IfOk result (IsNumberedByLeast edges.now) }
    ensures cyclic { IfOk result (HasCyclicClasses edges.now) }
    ensures order { IfOk result (HasOrder edges.now) }
    ensures strict { IfOk result HasStrictOrder }
{
    let links = link(alloc, n, edges)?;
    let trees = condense(alloc, n, edges, &links)?;
    let numbering = number(alloc, trees.tree_of.as_slice())?;
    let class_of = numbering.class_of.as_slice();
    let cyclic = inner_edges(alloc, edges, class_of, numbering.classes)?;
    let before = order(alloc, edges, &links, &trees, class_of, numbering.classes)?;
    let reached = Reached::of(n, before.size(), numbering.class_of, cyclic, before);
    Ok(reached)
}
