//! Reads requests out of cases, in pieces of several sizes, and says what they are. A case is its length in
//! bytes on a line, the bytes, and a newline.
//!
//! For each case it writes a line for each request, a line that says how the bytes end, and an empty line. The line of a `put`
//! has the length and the SHA-256 digest of its text, and those of the others are the requests as they are spelled. The bytes
//! end with `quit`, at `idle` where nothing is left over, at `more` where less than a request is, or at `bad N` where after N
//! bytes no request could come any more.

mod reading;

use pj_change::Memory;
use pj_scan::Scan;
use reading::read;
use std::alloc::Global;

/// The sizes of the pieces beside one byte.
const SIZES: [usize; 5] = [2, 3, 7, 4_096, 1_073_741_824];

/// The bytes of the next case.
fn next_case<'a>(scan: &mut Scan<'a>) -> Option<&'a [u8]> {
    let count = scan.number()?;
    scan.line()?;
    let case = scan.bytes(count)?;
    scan.line()?;
    Some(case)
}

/// Says what the requests of a case are, and whether pieces of each size give the same.
fn answer(alloc: Global, case: &[u8], out: &mut Vec<u8>) -> Result<(), Memory> {
    let single = read(alloc, case, 1)?;
    single.write(out)?;
    for size in SIZES {
        let other = read(alloc, case, size)?;
        if !other.agrees_with(&single) {
            out.extend_from_slice(b"pieces of another size give something else\n")?;
        }
    }
    out.extend_from_slice(b"\n")?;
    Ok(())
}

/// The answers to all cases.
pub fn answers(alloc: Global, input: &[u8]) -> Result<Vec<u8>, Memory> {
    let mut scan = Scan::new(input);
    let mut out = Vec::new(alloc);
    for _ in 0..input.len() {
        match next_case(&mut scan) {
            Some(case) => answer(alloc, case, &mut out)?,
            None => break,
        }
    }
    Ok(out)
}
