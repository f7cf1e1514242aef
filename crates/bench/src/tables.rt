//! Adds rows to tables and looks them up. The words are the table, `cuts`, `edges`, `deps` or `versions`, how many tables there are,
//! how many rows each of them has, and how many more are added and looked up. It prints a line after each part.

ghost use Rattle.std.specs.Prelude.{◌≡◌, ◌<◌};

mod numbers;
mod rows;
mod table;
mod work;

use crate::words::Words;
use anyhow::{Context, Result, anyhow};
use pj_cuts::Cuts;
use pj_deps::Deps;
use pj_edges::EdgeRows;
use pj_pmap::Steps;
use pj_states::Versions;
use std::marker::Brand;
use std::sync::ledger::{Blank, Ledger};
use table::{Kind, Table};
use work::{build, look_up, put, rows_of};

/// The parts, with a line after each.
fn work_through<T: Table, L: Ledger>(
    rt: &HostRuntime,
    blank: Blank,
    count: u32,
    rows: u32,
    more: u32,
) -> Result<()>
    requires name { blank.name ≡ L.name }
    requires parts { blank.parts ≡ L.parts }
    requires some { 0 < blank.parts }
{
    let alloc = rt.alloc();
    let mut steps = Steps::<L>::new(blank);
    let Ok(tables) = build::<T, L>(alloc, count, rows, &mut steps) else {
        return Err(anyhow!("out of memory"));
    };
    let Ok(others) = rows_of::<T>(alloc, rows, rows.saturating_add(more)) else {
        return Err(anyhow!("out of memory"));
    };
    println!(rt; "built")?;
    let Ok(tables) = put(alloc, tables, others.as_slice(), &mut steps) else {
        return Err(anyhow!("out of memory"));
    };
    println!(rt; "put")?;
    let found = look_up(tables.as_slice(), others.as_slice());
    println!(rt; "found {found}")?;
    Ok(())
}

/// Works on the tables of this kind.
fn work_on<L: Ledger>(
    rt: &HostRuntime,
    blank: Blank,
    table: Kind,
    count: u32,
    rows: u32,
    more: u32,
) -> Result<()>
    requires name { blank.name ≡ L.name }
    requires parts { blank.parts ≡ L.parts }
    requires some { 0 < blank.parts }
{
    match table {
        Kind::Cuts => work_through::<Cuts, L>(rt, blank, count, rows, more),
        Kind::Edges => work_through::<EdgeRows, L>(rt, blank, count, rows, more),
        Kind::Deps => work_through::<Deps, L>(rt, blank, count, rows, more),
        Kind::Versions => work_through::<Versions, L>(rt, blank, count, rows, more),
    }
}

/// Runs the benchmark of these words.
pub fn run(rt: &HostRuntime, words: &mut Words) -> Result<()> {
    let table = words.word("which table?")?;
    let count = words.number("how many tables?")?;
    let rows = words.number("how many rows?")?;
    let more = words.number("how many more?")?;
    let table = Kind::named(table.as_str()).context("there is no such table")?;
    work_on::<Brand>(rt, Blank::new(1), table, count, rows, more)
}
