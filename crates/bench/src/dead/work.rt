//! What is timed: making the rows of a board, and refreshing them.

ghost use Rattle.std.specs.Prelude.{IfOk};
ghost use Rattle.pj_dead.specs.Pseudo.{AreRowsOf};
ghost use Rattle.bench.specs.Boards.{graph_of};

use crate::dead::board::Board;
use pj_dead::{Memory, Pseudo};
use std::alloc::Global;

/// The rows of a board, from those of one without vertices.
pub fn build(alloc: Global, board: &Board) -> Result<Pseudo, Memory>
    ensures { IfOk result (λ rows. AreRowsOf (graph_of board.now.shape board.now.middle board.now.last) rows) }
{
    let none = Board::none();
    let touched = board.points(alloc)?;
    Pseudo::empty().refresh(alloc, &none, board, &touched)
}

/// The rows of a board after one point was touched as often as asked.
pub fn refresh(alloc: Global, board: &Board, rows: Pseudo, times: u32) -> Result<Pseudo, Memory>
    requires { AreRowsOf (graph_of board.now.shape board.now.middle board.now.last) rows }
    ensures { IfOk result (λ rows. AreRowsOf (graph_of board.now.shape board.now.middle board.now.last) rows) }
{
    let mut rows = rows;
    let touched = [board.touched()];
    for _ in 0..times {
        rows = rows.refresh(alloc, board, board, &touched)?;
    }
    Ok(rows)
}
