//! The walk of a list of changes.

ghost use Rattle.std.proofs.Props.{props};
ghost use Rattle.std.specs.Prelude.{IfOk};
ghost use Rattle.std.specs.List.Sorted.{IsStrictlySortedBy};
ghost use Rattle.pj_change.specs.Walk.{IsWalk};
ghost use Rattle.pj_output.specs.LiveText.{live_cmp, AreLiveText};

use crate::live_text::{LiveVertex, text_in};
use pj_change::{Memory, Point, Status, Walk};
use pj_tables::Tables;
use pj_tree::Lives;
use std::alloc::Global;

/// What is live in a list of changes: its tables, and its live text file by file.
#[derive(Drop)]
struct Living<'a> {
    tables: &'a Tables,
    entries: &'a [LiveVertex],
    ghost sorted: { IsStrictlySortedBy live_cmp entries.now } by { Prim.hlevel props },
}

impl Lives for Living<'_> {
    ghost use Rattle.std.specs.List.{list_any};
    ghost use Rattle.pj_change.specs.Status as state;
    ghost use Rattle.pj_output.specs.LiveText.{is_of};

    ghost status = { λ s p. state.status_of s.tables.now p };

    ghost live = { λ s inode. list_any (is_of inode) s.entries.now };

    fn name(&self, at: Point) -> Status {
        self.tables.status(at)
    }

    fn content(&self, inode: Point) -> bool {
        text_in(self.entries, inode).len() > 0
    }
}

/// The walk of the list, whose live text this is.
pub fn walk_of(alloc: Global, tables: &Tables, entries: &[LiveVertex]) -> Result<Walk, Memory>
    requires { AreLiveText tables.now entries.now }
    ensures { IfOk result (IsWalk tables.now) }
{
    let _list = tables.list();
    let living = Living { tables, entries };
    tables.names().walk(alloc, &living)
}
