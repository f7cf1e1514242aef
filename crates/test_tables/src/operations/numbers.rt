//! Numbers out of lines, and into them.

use pj_change::Point;
use pj_name::Name;
use pj_pmap::Memory;
use pj_scan::Scan;
use std::alloc::Global;

/// The next number of the line, behind a space; 0 where there is none.
pub fn number(line: &mut Scan) -> u32 {
    let _ = line.bytes(1);
    line.number().unwrap_or(0)
}

/// The next number, as a name: 0 for one above 255.
pub fn name(line: &mut Scan) -> Name {
    let byte = u8::try_from(number(line)).unwrap_or(0);
    Name::of([byte; 32])
}

/// The next two numbers, as a point.
pub fn point(line: &mut Scan) -> Point {
    let change = name(line);
    let offset = number(line);
    Point { change, offset }
}

/// Appends a space and the number.
pub fn put(alloc: Global, out: &mut Vec<u8>, number: u32) -> Result<(), Memory> {
    let text = format!(in alloc; " {number}")?;
    out.extend_from_slice(text.as_bytes())?;
    Ok(())
}

/// Appends a space and the number of the name.
pub fn put_name(alloc: Global, out: &mut Vec<u8>, name: Name) -> Result<(), Memory> {
    let [first, ..] = name.bytes;
    put(alloc, out, u32::from(first))
}

/// Appends a word and a newline.
pub fn put_word(out: &mut Vec<u8>, word: &[u8]) -> Result<(), Memory> {
    out.extend_from_slice(word)?;
    out.push(b'\n')?;
    Ok(())
}

/// Appends whether it was done, `ok` or `no`, and a newline.
pub fn put_done(out: &mut Vec<u8>, done: bool) -> Result<(), Memory> {
    put_word(out, if done { b"ok" } else { b"no" })
}

/// Appends a range and a newline, or `none`.
pub fn put_range(
    alloc: Global,
    out: &mut Vec<u8>,
    range: Option<(u32, u32)>,
) -> Result<(), Memory> {
    let Some((start, end)) = range else {
        return put_word(out, b"none");
    };
    out.extend_from_slice(b"range")?;
    put(alloc, out, start)?;
    put(alloc, out, end)?;
    out.push(b'\n')?;
    Ok(())
}
