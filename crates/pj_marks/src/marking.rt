//! The marking of a whole file, from its layout to its text.

ghost use Rattle.std.specs.Prelude.{◌≡◌, ◌≤◌, IfOk};
ghost use Rattle.pj_change.specs.MarkedText.{marked};
ghost use Rattle.pj_layout.specs.Shapes.{shape};
ghost use Rattle.pj_reach.specs.Closure.{size, classes};
ghost use Rattle.pj_marks.specs.Classes.{classes_of};
ghost use Rattle.pj_marks.specs.Names.{NamesBelow};

use crate::classes::Classes;
use crate::marker::Marker;
use crate::texts::Texts;
use pj_layout::Layout;
use pj_reach::{Memory, Reached};
use std::alloc::Global;

/// The marked text of a file: a layout of its classes, the classes that were reached, and the text of each vertex.
///
/// The work is linear in the vertices, the layout and the bytes, and the recursion as deep as the layout.
/// Beside the text it keeps a list for each class and a number for each vertex.
///
/// # Errors
/// `Memory` where there was none.
pub fn mark<T: Texts>(
    alloc: Global,
    layout: &Layout,
    reached: &Reached,
    texts: &T,
) -> Result<Vec<u8>, Memory>
    requires named { NamesBelow (classes reached.now) (shape layout.now) }
    requires texts { size reached.now ≤ T.size texts.now }
    ensures { IfOk result (λ bytes. bytes.items ≡ marked (classes_of (T.piece texts.now) reached.now) (shape layout.now)) }
{
    let classes = Classes::new(alloc, reached, texts)?;
    let mut marker = Marker::new(alloc);
    classes.put_layout(layout, &mut marker)?;
    marker.close_run()?;
    Ok(marker.into_bytes())
}
