//! What the tables say of their list.

use crate::lists::answer::{
    put_change, put_cut, put_pair, put_range, put_row, put_version, put_word,
};
use pj_change::{EdgeRow, Label, Place, Point, Record};
use pj_cuts::CutAt;
use pj_deps::HeldBy;
use pj_edges::{IntoRow, OutRow};
use pj_name::Name;
use pj_tables::Tables;
use std::alloc::{AllocError, Global};

/// How many lines a question is answered by at most.
const MOST: u32 = 1_000_000;

/// What is before each other point, or is the first one.
fn least_point() -> Point {
    Point {
        change: Name::least(),
        offset: 0,
    }
}

/// What is before each other row, or is the first one.
fn least_row() -> EdgeRow {
    EdgeRow {
        source: Place::Root,
        target: least_point(),
        label: Label::Block,
        introducer: Name::least(),
    }
}

/// Writes each point before which cuts stand, with their count.
pub fn put_cuts(alloc: Global, tables: &Tables, out: &mut Vec<u8>) -> Result<(), AllocError> {
    let counts = tables.cuts().counts();
    let mut after = CutAt { at: least_point() };
    for _ in 0..MOST {
        let Some((cut, count)) = counts.next_after(&after) else {
            break;
        };
        after = *cut;
        put_cut(alloc, out, after.at, count.count)?;
    }
    put_word(out, b"end")
}

/// Writes the rows of edges by source.
fn put_by_source(alloc: Global, tables: &Tables, out: &mut Vec<u8>) -> Result<(), AllocError> {
    let rows = tables.edges().by_source();
    let mut after = OutRow { row: least_row() };
    for _ in 0..MOST {
        let Some((row, _)) = rows.next_after(&after) else {
            break;
        };
        after = *row;
        put_row(alloc, out, after.row)?;
    }
    put_word(out, b"end")
}

/// Writes the rows of edges by target.
fn put_by_target(alloc: Global, tables: &Tables, out: &mut Vec<u8>) -> Result<(), AllocError> {
    let rows = tables.edges().by_target();
    let mut after = IntoRow { row: least_row() };
    for _ in 0..MOST {
        let Some((row, _)) = rows.next_after(&after) else {
            break;
        };
        after = *row;
        put_row(alloc, out, after.row)?;
    }
    put_word(out, b"end")
}

/// Writes the rows of edges by source, and then by target.
pub fn put_rows(alloc: Global, tables: &Tables, out: &mut Vec<u8>) -> Result<(), AllocError> {
    put_by_source(alloc, tables, out)?;
    put_by_target(alloc, tables, out)
}

/// Writes each need with each change that has it.
pub fn put_pairs(tables: &Tables, out: &mut Vec<u8>) -> Result<(), AllocError> {
    let pairs = tables.deps().holders();
    let mut after = HeldBy {
        need: Name::least(),
        holder: Name::least(),
    };
    for _ in 0..MOST {
        let Some((pair, _)) = pairs.next_after(&after) else {
            break;
        };
        after = *pair;
        put_pair(out, after.need, after.holder)?;
    }
    put_word(out, b"end")
}

/// Writes the vertex of text that has the point.
pub fn put_vertex(
    alloc: Global,
    tables: &Tables,
    at: Point,
    out: &mut Vec<u8>,
) -> Result<(), AllocError> {
    put_range(alloc, out, tables.cuts().vertex_of(at))
}

/// Writes the surviving versions of the point.
pub fn put_surviving(
    alloc: Global,
    tables: &Tables,
    at: Point,
    out: &mut Vec<u8>,
) -> Result<(), AllocError> {
    let mut next = tables.surviving(at, None);
    for _ in 0..MOST {
        let Some(version) = next else {
            break;
        };
        put_version(alloc, out, version)?;
        next = tables.surviving(at, Some(version));
    }
    put_word(out, b"end")
}

/// Writes the vertices of the text of the change.
pub fn put_vertices(
    alloc: Global,
    tables: &Tables,
    change: Name,
    out: &mut Vec<u8>,
) -> Result<(), AllocError> {
    let cuts = tables.cuts();
    let mut from = 0;
    for _ in 0..MOST {
        let Some((start, end)) = cuts.next(change, from) else {
            break;
        };
        put_range(alloc, out, Some((start, end)))?;
        from = end;
    }
    put_word(out, b"end")
}

/// Writes the least need of the change that is not there.
pub fn put_missing(tables: &Tables, change: &Record, out: &mut Vec<u8>) -> Result<(), AllocError> {
    put_change(out, tables.deps().missing(change))
}

/// Writes each change that needs this one, and then the least of them.
pub fn put_holders(tables: &Tables, change: Name, out: &mut Vec<u8>) -> Result<(), AllocError> {
    let deps = tables.deps();
    let mut next = deps.next_holder(change, None);
    for _ in 0..MOST {
        let Some(holder) = next else {
            break;
        };
        put_change(out, Some(holder))?;
        next = deps.next_holder(change, Some(holder));
    }
    put_word(out, b"end")?;
    put_change(out, deps.holder(change))
}
