//! A graph with its pseudo rows, and what they become with a later graph.

ghost use Rattle.std.specs.Prelude.{IfOk, IsTrue};
ghost use Rattle.pj_dead.specs.Touched.{IsKept};
ghost use Rattle.test_tables.specs.States.{AreOwnRows, shown};

use crate::dead::kept::is_kept;
use crate::dead::table::Table;
use pj_change::Point;
use pj_dead::{Memory, Pseudo};
use std::alloc::Global;

/// A graph and its rows.
#[derive(Drop)]
pub struct State {
    pub table: Table,
    pub rows: Pseudo,
}

impl State {
    /// No vertex, and so no row.
    pub fn empty(alloc: Global) -> State
        ensures { AreOwnRows result }
    {
        State {
            table: Table::none(alloc),
            rows: Pseudo::empty(),
        }
    }

    /// Whether the dead vertices of this graph and of the later one differ only where they have a touched point.
    pub fn is_kept_in(
        &self,
        alloc: Global,
        after: &Table,
        touched: &[Point],
    ) -> Result<bool, Memory>
        ensures { IfOk result (λ kept. IsTrue kept → IsKept (shown self.now.table) (shown after.now) touched.now × IsKept (shown after.now) (shown self.now.table) touched.now) }
    {
        if !is_kept(alloc, &self.table, after, touched)? {
            return Ok(false);
        }
        let kept = is_kept(alloc, after, &self.table, touched)?;
        Ok(kept)
    }

    /// The later graph with its rows, where the dead vertices of the two differ only where they have a touched point.
    pub fn refreshed(self, alloc: Global, after: Table, touched: &[Point]) -> Result<State, Memory>
        requires rows { AreOwnRows self }
        requires there { IsKept (shown self.table) (shown after) touched.now }
        requires back { IsKept (shown after) (shown self.table) touched.now }
        ensures { IfOk result AreOwnRows }
    {
        let rows = self.rows.refresh(alloc, &self.table, &after, touched)?;
        Ok(State { table: after, rows })
    }
}
