//! What is timed: adding rows to tables, and looking them up.

use crate::tables::table::Table;
use pj_pmap::{Memory, Steps};
use std::alloc::Global;
use std::sync::ledger::Ledger;

/// As many tables as asked, each with the rows of the numbers from 0 up to `rows`.
pub fn build<T: Table, L: Ledger>(
    alloc: Global,
    count: u32,
    rows: u32,
    steps: &mut Steps<L>,
) -> Result<Vec<T>, Memory> {
    let mut tables = Vec::new(alloc);
    for _ in 0..count {
        let mut table = T::none();
        for number in 0..rows {
            let row = T::row(alloc, number)?;
            table = table.with_row(alloc, &row, steps)?;
        }
        tables.push(table)?;
    }
    Ok(tables)
}

/// The rows of the numbers from `start` up to `end`.
pub fn rows_of<T: Table>(alloc: Global, start: u32, end: u32) -> Result<Vec<T::Row>, Memory> {
    let mut rows = Vec::new(alloc);
    for number in start..end {
        rows.push(T::row(alloc, number)?)?;
    }
    Ok(rows)
}

/// The table with the rows too.
fn with_rows<T: Table, L: Ledger>(
    alloc: Global,
    mut table: T,
    rows: &[T::Row],
    steps: &mut Steps<L>,
) -> Result<T, Memory> {
    for row in rows {
        table = table.with_row(alloc, row, steps)?;
    }
    Ok(table)
}

/// The tables, each with the rows too.
pub fn put<T: Table, L: Ledger>(
    alloc: Global,
    tables: Vec<T>,
    rows: &[T::Row],
    steps: &mut Steps<L>,
) -> Result<Vec<T>, Memory> {
    let mut larger = Vec::new(alloc);
    for table in tables {
        larger.push(with_rows(alloc, table, rows, steps)?)?;
    }
    Ok(larger)
}

/// How many of the rows are found in the tables.
pub fn look_up<T: Table>(tables: &[T], rows: &[T::Row]) -> u64 {
    let mut found = 0u64;
    for table in tables {
        for row in rows {
            found = found.wrapping_add(u64::from(table.has_row(row)));
        }
    }
    found
}
