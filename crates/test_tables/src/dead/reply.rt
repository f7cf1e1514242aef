//! The replies: the rows in order, and then the targets of each source in order.

use pj_change::Point;
use pj_dead::{Memory, Pseudo, PseudoRow};
use pj_name::Name;
use std::alloc::Global;

/// Writes the line of a row.
pub fn title(out: &mut Vec<u8>, title: &[u8]) -> Result<(), Memory> {
    out.extend_from_slice(b"row ")?;
    out.extend_from_slice(title)?;
    out.push(b'\n')?;
    Ok(())
}

/// Writes a word on a line.
pub fn word(out: &mut Vec<u8>, word: &str) -> Result<(), Memory> {
    out.extend_from_slice(word.as_bytes())?;
    out.push(b'\n')?;
    Ok(())
}

/// Writes a point with a space before it: the letter of its change, a dot and its position.
fn point(alloc: Global, out: &mut Vec<u8>, point: Point) -> Result<(), Memory> {
    out.push(b' ')?;
    out.push(point.change.bytes[0])?;
    let offset = point.offset;
    out.extend_from_slice(format!(in alloc; ".{offset}")?.as_bytes())?;
    Ok(())
}

/// What is before each row.
fn least_row() -> PseudoRow {
    let least = Point {
        change: Name::least(),
        offset: 0,
    };
    PseudoRow {
        source: least,
        target: least,
        least,
    }
}

/// Writes the rows, each with its source, its target and its least point.
pub fn rows(alloc: Global, out: &mut Vec<u8>, rows: &Pseudo) -> Result<(), Memory> {
    let mut key = least_row();
    for _ in 0..rows.rows().len() {
        let Some((row, _)) = rows.rows().next_after(&key) else {
            break;
        };
        key = *row;
        out.extend_from_slice(b"across")?;
        point(alloc, out, key.source)?;
        point(alloc, out, key.target)?;
        point(alloc, out, key.least)?;
        out.push(b'\n')?;
    }
    Ok(())
}

/// Writes the targets to which rows lead from a source, if there are any.
pub fn targets(
    alloc: Global,
    out: &mut Vec<u8>,
    rows: &Pseudo,
    source: Point,
) -> Result<(), Memory> {
    let mut target = rows.next(source, None);
    if target.is_none() {
        return Ok(());
    }
    out.extend_from_slice(b"from")?;
    point(alloc, out, source)?;
    for _ in 0..rows.rows().len() {
        let Some(at) = target else {
            break;
        };
        point(alloc, out, at)?;
        target = rows.next(source, Some(at));
    }
    out.push(b'\n')?;
    Ok(())
}
