//! Maps from keys of two parts to values with an owner in them.

ghost use Rattle.std.specs.Prelude.{◌≡◌, ◌<◌};

use pj_pmap::{Memory, PMap, Share, Steps};
use std::alloc::{AllocError, Global};
use std::marker::Brand;
use std::sync::Arc;
use std::sync::ledger::{Blank, Ledger};

/// A key of two parts.
#[derive(Clone, Copy, Debug, PartialEq, Eq, PartialOrd, Ord)]
pub struct Place {
    file: u32,
    offset: u32,
}

impl Share for Place {
    ghost shown = { λ p. p };

    fn share(&self) -> Result<Place, Memory> {
        Ok(*self)
    }
}

/// A value with an owner in it.
#[derive(Drop)]
pub struct Row {
    text: Arc<u64>,
    length: u32,
}

impl Share for Row {
    ghost use Rattle.std.specs.Ptr.{null_ptr};
    ghost use Rattle.std.specs.Arc.{arc_value};

    ghost shown = { λ r. record r { text = record { ptr = null_ptr; value = arc_value r.text } } };

    fn share(&self) -> Result<Row, Memory> {
        Ok(Row {
            text: self.text.share()?,
            length: self.length,
        })
    }
}

fn place_at(offset: u32) -> Place {
    Place { file: 1, offset }
}

fn row_of(alloc: Global, length: u32) -> Result<Row, AllocError> {
    Ok(Row {
        text: Arc::new(alloc, 7)?,
        length,
    })
}

/// The length of a row, or 0 where there is none.
fn length_of(row: Option<&Row>) -> u32 {
    match row {
        Some(row) => row.length,
        None => 0,
    }
}

/// The length of a pair's row, or 0 where there is none.
fn length_in(pair: Option<(&Place, &Row)>) -> u32 {
    match pair {
        Some((_, row)) => row.length,
        None => 0,
    }
}

/// How many pairs there are, and the lengths at 1, at or below 1, and above 0.
fn lengths(map: &PMap<Place, Row>) -> [u128; 4] {
    [
        map.len(),
        u128::from(length_of(map.get(&place_at(1)))),
        u128::from(length_in(map.floor(&place_at(1)))),
        u128::from(length_in(map.next_after(&place_at(0)))),
    ]
}

/// A share through the trait alone.
fn shared<S: Share>(value: &S) -> Result<S, Memory> {
    value.share()
}

/// The rows of 10, 11 and 12 at 0, 1 and 2.
fn three_rows<L: Ledger>(alloc: Global, steps: &mut Steps<L>) -> Result<PMap<Place, Row>, Memory> {
    let mut map = PMap::empty();
    for offset in 0..3 {
        map = map.into_with(alloc, place_at(offset), row_of(alloc, offset + 10)?, steps)?;
    }
    Ok(map)
}

/// The lengths of three rows; then with 99 at 1; then without it; and then without the row at 0.
fn worked<L: Ledger>(alloc: Global, blank: Blank) -> Result<[[u128; 4]; 4], Memory>
    requires name { blank.name ≡ L.name }
    requires parts { blank.parts ≡ L.parts }
    requires some { 0 < blank.parts }
{
    let mut steps = Steps::<L>::new(blank);
    let three = three_rows(alloc, &mut steps)?;
    let changed = three.with(alloc, place_at(1), row_of(alloc, 99)?, &mut steps)?;
    let fewer = changed.without(alloc, &place_at(1), &mut steps)?;
    let last = shared(&fewer)?.into_without(alloc, &place_at(0), &mut steps)?;
    Ok([
        lengths(&three),
        lengths(&changed),
        lengths(&fewer),
        lengths(&last),
    ])
}

/// What the maps show, a line for each.
pub fn told(alloc: Global) -> Result<String, Memory> {
    let [three, changed, fewer, last] = worked::<Brand>(alloc, Blank::new(1))?;
    let empty = PMap::<Place, Row>::empty().is_empty();
    let told = format!(in alloc; "{three:?}\n{changed:?}\n{fewer:?}\n{last:?}\n{empty}")?;
    Ok(told)
}
