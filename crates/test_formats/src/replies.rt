//! Reads replies out of cases, in pieces of several sizes, and says what they are. A case is a line with its length in bytes
//! and what is due, in order (`log`, `get`, `apply`, or `put` with the name of the text), the bytes, and a newline.
//!
//! For each case it writes a line for each reply, as the reply is spelled up to its body, and behind it, where it has a body,
//! the SHA-256 digest of this; then a line that says how the bytes end, and an empty line. The bytes end with `done` once all
//! that is due was read, at `more` where less than the next reply is there, or at `strange N` where after N bytes none could
//! come any more.

mod case;
mod reading;

use case::{Case, next_case};
use pj_change::Memory;
use pj_scan::Scan;
use reading::read;
use std::alloc::Global;

/// The sizes of the pieces beside one byte.
const SIZES: [usize; 5] = [2, 3, 7, 4_096, 1_073_741_824];

/// Says what the replies of a case are, and whether pieces of each size give the same.
fn answer(alloc: Global, case: &Case<'_>, out: &mut Vec<u8>) -> Result<(), Memory> {
    let single = read(alloc, case, 1)?;
    single.write(out)?;
    for size in SIZES {
        let other = read(alloc, case, size)?;
        if !other.agrees_with(&single) {
            out.extend_from_slice(b"pieces of another size give something else\n")?;
        }
    }
    out.extend_from_slice(b"\n")?;
    Ok(())
}

/// The answers to all cases.
pub fn answers(alloc: Global, input: &[u8]) -> Result<Vec<u8>, Memory> {
    let mut scan = Scan::new(input);
    let mut out = Vec::new(alloc);
    for _ in 0..input.len() {
        match next_case(alloc, &mut scan)? {
            Some(case) => answer(alloc, &case, &mut out)?,
            None => break,
        }
    }
    Ok(out)
}
