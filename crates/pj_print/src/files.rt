//! The text of a file.

ghost use Rattle.std.specs.Prelude.{◌≤◌, IfOk};
ghost use Rattle.pj_print.specs.FileParts.{IsTextOfParts};
ghost use Rattle.pj_reach.specs.Reach.{AreEdgesBelow};

use crate::in_order::write_in_order;
use crate::only_order::only_order;
use pj_layout::lay;
use pj_marks::{Memory, Texts, mark};
use pj_reach::close;
use std::alloc::Global;

/// The text of a file by the layout of its classes.
fn text_by_layout<T: Texts>(
    alloc: Global,
    size: u32,
    edges: &[(u32, u32)],
    texts: &T,
) -> Result<Vec<u8>, Memory>
    requires graph { AreEdgesBelow size edges.now }
    requires texts { size ≤ T.size texts.now }
    ensures { IfOk result (λ text. IsTextOfParts size edges.now (T.piece texts.now) text.items) }
{
    let reached = close(alloc, size, edges)?;
    let order = reached.before();
    prove!(order.size() == reached.classes());
    let layout = lay(alloc, order)?;
    mark(alloc, &layout, &reached, texts)
}

/// The text of a file with `size` live vertices, which have the numbers from 0 by their first points.
///
/// The paths of the edges say which vertex is before which: an edge may be one of the graph, or join
/// vertices across dead text. Where the vertices have only one order, in which each two neighbours are joined by an edge, they are
/// written in it straight, without a matrix.
///
/// # Errors
/// `Memory` where there was none.
pub fn file_text<T: Texts>(
    alloc: Global,
    size: u32,
    edges: &[(u32, u32)],
    texts: &T,
) -> Result<Vec<u8>, Memory>
    requires graph { AreEdgesBelow size edges.now }
    requires texts { size ≤ T.size texts.now }
    ensures { IfOk result (λ text. IsTextOfParts size edges.now (T.piece texts.now) text.items) }
{
    let found = only_order(alloc, size, edges)?;
    match found {
        Some(order) => write_in_order(alloc, &order, texts),
        None => text_by_layout(alloc, size, edges, texts),
    }
}
