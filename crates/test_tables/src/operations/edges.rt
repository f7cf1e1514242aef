//! Operations on rows of edges. A ROW is seven numbers: 0 for the root or 1 for a point, the change and position of the source, those
//! of the target, the label (0 block, 1 folder, 2 order) and the introducer.
//!
//! | Line | Answer |
//! |---|---|
//! | `ewith ROW`, `ewithout ROW` | puts the row in, or takes it out |
//! | `ehas ROW` | `yes` or `no` |
//! | `eout ROW` | the rows of its source, in order, a line each, and then those after this row, and `end` behind both |
//! | `einto ROW` | the same by its target |

use crate::operations::numbers::{name, number, point, put, put_name, put_word};
use pj_change::{EdgeRow, Label, Place, Point};
use pj_edges::EdgeRows;
use pj_pmap::{Memory, Steps};
use pj_scan::Scan;
use std::alloc::Global;
use std::mem;
use std::sync::ledger::Ledger;

/// How many rows are written at most.
const MOST: u32 = 10_000;

/// A set of rows.
#[derive(Drop)]
pub struct EdgeCases {
    edges: EdgeRows,
}

/// The row that the line writes.
fn row(line: &mut Scan) -> EdgeRow {
    let kind = number(line);
    let at = point(line);
    let target = point(line);
    let label = match number(line) {
        0 => Label::Block,
        1 => Label::Folder,
        _ => Label::Order,
    };
    let introducer = name(line);
    EdgeRow {
        source: match kind {
            0 => Place::Root,
            _ => Place::At(at),
        },
        target,
        label,
        introducer,
    }
}

fn put_point(alloc: Global, out: &mut Vec<u8>, at: Point) -> Result<(), Memory> {
    put_name(alloc, out, at.change)?;
    put(alloc, out, at.offset)
}

fn put_row(alloc: Global, out: &mut Vec<u8>, row: EdgeRow) -> Result<(), Memory> {
    out.extend_from_slice(b"row")?;
    if let Place::At(source) = row.source {
        put_point(alloc, out, source)?;
    }
    put_point(alloc, out, row.target)?;
    put(
        alloc,
        out,
        match row.label {
            Label::Block => 0,
            Label::Folder => 1,
            Label::Order => 2,
        },
    )?;
    put_name(alloc, out, row.introducer)?;
    out.push(b'\n')?;
    Ok(())
}

impl EdgeCases {
    pub fn empty() -> EdgeCases {
        EdgeCases {
            edges: EdgeRows::empty(),
        }
    }

    /// The rows, with none in their place.
    fn give_up(&mut self) -> EdgeRows {
        mem::replace(&mut self.edges, EdgeRows::empty())
    }

    /// This row, and those of its source after it.
    fn put_out(
        &self,
        alloc: Global,
        out: &mut Vec<u8>,
        first: Option<EdgeRow>,
    ) -> Result<(), Memory> {
        let mut next = first;
        for _ in 0..MOST {
            let Some(row) = next else {
                break;
            };
            put_row(alloc, out, row)?;
            next = self.edges.next_out(row.source, Some(row));
        }
        put_word(out, b"end")
    }

    /// This row, and those of its target after it.
    fn put_into(
        &self,
        alloc: Global,
        out: &mut Vec<u8>,
        first: Option<EdgeRow>,
    ) -> Result<(), Memory> {
        let mut next = first;
        for _ in 0..MOST {
            let Some(row) = next else {
                break;
            };
            put_row(alloc, out, row)?;
            next = self.edges.next_into(row.target, Some(row));
        }
        put_word(out, b"end")
    }

    pub fn answer<L: Ledger>(
        &mut self,
        alloc: Global,
        word: &[u8],
        line: &mut Scan,
        steps: &mut Steps<L>,
        out: &mut Vec<u8>,
    ) -> Result<(), Memory> {
        let row = row(line);
        match word {
            b"with" => {
                self.edges = self.give_up().with(alloc, row, steps)?;
                put_word(out, b"ok")
            }
            b"without" => {
                self.edges = self.give_up().without(alloc, &row, steps)?;
                put_word(out, b"ok")
            }
            b"has" => put_word(out, if self.edges.has(row) { b"yes" } else { b"no" }),
            b"out" => {
                self.put_out(alloc, out, self.edges.next_out(row.source, None))?;
                self.put_out(alloc, out, self.edges.next_out(row.source, Some(row)))
            }
            b"into" => {
                self.put_into(alloc, out, self.edges.next_into(row.target, None))?;
                self.put_into(alloc, out, self.edges.next_into(row.target, Some(row)))
            }
            _ => Ok(()),
        }
    }
}
