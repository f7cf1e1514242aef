//! What a case has.

use pj_change::Memory;
use pj_name::Name;
use pj_replies::Due;
use pj_scan::Scan;
use std::alloc::Global;

/// What is due, in order, and the bytes.
#[derive(Drop)]
pub struct Case<'a> {
    pub due: Vec<Due>,
    pub bytes: &'a [u8],
}

/// The next reply that is due.
fn next_due(line: &mut Scan<'_>) -> Option<Due> {
    line.bytes(1)?;
    match line.word()? {
        b"log" => Some(Due::Log),
        b"get" => Some(Due::Get),
        b"apply" => Some(Due::Apply),
        b"put" => {
            line.bytes(1)?;
            Some(Due::Put(Name::read(line.word()?)?))
        }
        _ => None,
    }
}

/// What is due.
fn all_due(alloc: Global, line: &mut Scan<'_>) -> Result<Vec<Due>, Memory> {
    let mut all = Vec::new(alloc);
    for _ in 0..line.rest().len() {
        match next_due(line) {
            Some(due) => all.push(due)?,
            None => break,
        }
    }
    Ok(all)
}

/// The bytes behind the line, as many as it says, and the newline behind them.
fn bytes_of<'a>(scan: &mut Scan<'a>, count: u32) -> Option<&'a [u8]> {
    let bytes = scan.bytes(count)?;
    scan.line()?;
    Some(bytes)
}

/// The next case.
pub fn next_case<'a>(alloc: Global, scan: &mut Scan<'a>) -> Result<Option<Case<'a>>, Memory> {
    let Some(line) = scan.line() else {
        return Ok(None);
    };
    let mut line = Scan::new(line);
    let Some(count) = line.number() else {
        return Ok(None);
    };
    let due = all_due(alloc, &mut line)?;
    match bytes_of(scan, count) {
        Some(bytes) => Ok(Some(Case { due, bytes })),
        None => Ok(None),
    }
}
