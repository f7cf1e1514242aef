//! The texts of the files of a list of changes.

ghost use Rattle.std.specs.Prelude.{IfOk};
ghost use Rattle.pj_change.specs.FileText.{IsFileText};
ghost use Rattle.pj_dead.specs.Pseudo.{AreRowsOf};
ghost use Rattle.pj_output.specs.LiveText.{AreLiveText};
ghost use Rattle.pj_view.specs.SetGraph.{graph_of};

use crate::live_text::{LiveVertex, live_list};
use crate::pairs::pairs_of;
use crate::pieces::Pieces;
use pj_change::Point;
use pj_dead::Pseudo;
use pj_print::{Memory, joined_text};
use pj_tables::Tables;
use std::alloc::Global;
use std::marker::Brand;

/// The text of a file.
pub fn text_of(
    alloc: Global,
    tables: &Tables,
    pseudo: &Pseudo,
    entries: &[LiveVertex],
    inode: Point,
) -> Result<Vec<u8>, Memory>
    requires rows { AreRowsOf (graph_of tables.now) pseudo.now }
    requires text { AreLiveText tables.now entries.now }
    ensures { IfOk result (λ text. IsFileText tables.now inode text.items) }
{
    let _list = tables.list();
    let live = live_list(alloc, tables, entries, inode)?;
    let Ok(_) = u32::try_from(live.len()) else {
        return Err(Memory);
    };
    let pairs = pairs_of(alloc, tables, pseudo, &live)?;
    let pieces = Pieces {
        tables,
        live: &live,
    };
    joined_text::<Brand, Pieces>(alloc, &live, &pairs, &pieces)
}
