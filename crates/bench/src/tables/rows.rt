//! The tables of a channel, and which rows are added to each.

use crate::tables::numbers::{name_of, point_of};
use crate::tables::table::Table;
use pj_change::{Bytes, Change, EdgeRow, Hunks, Label, Names, Place, Point, Record, Version};
use pj_cuts::Cuts;
use pj_deps::Deps;
use pj_edges::EdgeRows;
use pj_name::Name;
use pj_pmap::{Memory, Steps};
use pj_states::{Deletion, HunkAt, Versions};
use pj_text::write;
use std::alloc::Global;
use std::sync::ledger::Ledger;

/// A cut before one more point.
impl Table for Cuts {
    type Row = Point;

    fn none() -> Cuts {
        Cuts::empty()
    }

    fn row(_alloc: Global, number: u32) -> Result<Point, Memory> {
        Ok(point_of(number))
    }

    fn with_row<L: Ledger>(
        self,
        alloc: Global,
        row: &Point,
        steps: &mut Steps<L>,
    ) -> Result<Cuts, Memory> {
        self.add(alloc, *row, steps)
    }

    fn has_row(&self, row: &Point) -> bool {
        self.count(*row) == 1
    }
}

/// An edge from one more point to another.
impl Table for EdgeRows {
    type Row = EdgeRow;

    fn none() -> EdgeRows {
        EdgeRows::empty()
    }

    fn row(_alloc: Global, number: u32) -> Result<EdgeRow, Memory> {
        Ok(EdgeRow {
            source: Place::At(point_of(number)),
            target: point_of(number.wrapping_mul(7)),
            label: Label::Block,
            introducer: name_of(number),
        })
    }

    fn with_row<L: Ledger>(
        self,
        alloc: Global,
        row: &EdgeRow,
        steps: &mut Steps<L>,
    ) -> Result<EdgeRows, Memory> {
        self.with(alloc, *row, steps)
    }

    fn has_row(&self, row: &EdgeRow) -> bool {
        self.has(*row)
    }
}

/// The list of one name.
fn one_name(alloc: Global, name: Name) -> Result<Names, Memory> {
    let mut names = Vec::new(alloc);
    names.push(name)?;
    Ok(Names::of(names))
}

/// A change that needs the change of this number, with no hunk.
fn change_on(alloc: Global, number: u32) -> Result<Change, Memory> {
    let message = Bytes::of(Vec::from_slice(alloc, b"m")?);
    let author = Bytes::of(Vec::from_slice(alloc, b"a")?);
    let needs = one_name(alloc, name_of(number))?;
    let knows = Names::of(Vec::new(alloc));
    let hunks = Hunks::of(Vec::new(alloc));
    let change = Change::of(1, message, author, number, needs, knows, hunks);
    change.ok_or(Memory)
}

/// One more change, with one need.
impl Table for Deps {
    type Row = Record;

    fn none() -> Deps {
        Deps::empty()
    }

    fn row(alloc: Global, number: u32) -> Result<Record, Memory> {
        let change = change_on(alloc, number)?;
        let text = Bytes::of(write(alloc, &change)?);
        Ok(Record::of(text, change))
    }

    fn with_row<L: Ledger>(
        self,
        alloc: Global,
        row: &Record,
        steps: &mut Steps<L>,
    ) -> Result<Deps, Memory> {
        self.with(alloc, row, steps)
    }

    fn has_row(&self, row: &Record) -> bool {
        match row.change.needs.items() {
            [need, ..] => self.holder(*need) == Some(row.name),
            [] => false,
        }
    }
}

/// The change whose text is deleted.
fn owner() -> Name {
    Name::of([7; 32])
}

/// One more deletion of two positions of one long text, by the change of a number.
impl Table for Versions {
    type Row = u32;

    fn none() -> Versions {
        Versions::empty()
    }

    fn row(_alloc: Global, number: u32) -> Result<u32, Memory> {
        Ok(number % 1_000_000_000)
    }

    fn with_row<L: Ledger>(
        self,
        alloc: Global,
        row: &u32,
        steps: &mut Steps<L>,
    ) -> Result<Versions, Memory> {
        let change = name_of(*row);
        let start = row.saturating_mul(2).min(4_000_000_000);
        if self.get(HunkAt { change, hunk: 0 }).is_some() {
            return Ok(self);
        }
        let op = Deletion {
            owner: owner(),
            start,
            end: start + 2,
            by: one_name(alloc, owner())?,
            alive: false,
        };
        self.add(alloc, change, 0, op, steps)
    }

    fn has_row(&self, row: &u32) -> bool {
        let at = Point {
            change: owner(),
            offset: row.saturating_mul(2),
        };
        let deleted = Version::Deleted {
            change: name_of(*row),
            hunk: 0,
        };
        self.surviving(at, None) == Some(deleted)
    }
}
