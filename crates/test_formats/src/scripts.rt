//! Says the length and the SHA-256 digest of each script of large runs. A large run is a line with its
//! number, how many changes it has and how many sessions.
//!
//! For each script it writes a line: the script's name, its length in bytes and its digest. A large run out of bounds has no
//! line.

use pj_change::{Bytes, Memory};
use pj_gen::{MOST_CHANGES, MOST_SESSIONS, scripts};
use pj_name::name_of;
use pj_scan::Scan;
use std::alloc::{AllocError, Global};

/// A large run.
#[derive(Clone, Copy)]
struct Run {
    number: u32,
    changes: u32,
    sessions: u32,
}

/// The next large run, within its bounds.
fn next_run(scan: &mut Scan<'_>) -> Option<Run> {
    let number = scan.number()?;
    scan.bytes(1)?;
    let changes = scan.number()?;
    scan.bytes(1)?;
    let sessions = scan.number()?;
    scan.bytes(1)?;
    Some(Run {
        number,
        changes,
        sessions,
    })
}

/// Appends the line of a script.
fn put_script(
    alloc: Global,
    out: &mut Vec<u8>,
    name: &str,
    script: &Bytes,
) -> Result<(), AllocError> {
    let bytes = script.items();
    out.extend_from_slice(format!(in alloc; "{name} {} ", bytes.len())?.as_bytes())?;
    out.extend_from_slice(&name_of(bytes).hex())?;
    out.extend_from_slice(b"\n")
}

/// Appends the lines of a large run. One that is out of bounds has none.
fn put_run(alloc: Global, out: &mut Vec<u8>, run: Run) -> Result<(), Memory> {
    let Run {
        number,
        changes,
        sessions,
    } = run;
    if changes == 0 || changes > MOST_CHANGES || sessions == 0 || sessions > MOST_SESSIONS {
        return Ok(());
    }
    let made = scripts(alloc, number, changes, sessions)?;
    put_script(alloc, out, "prelude", &made.prelude)?;
    for (session, script) in made.sessions.items().iter().enumerate() {
        let name = format!(in alloc; "session-{session}")?;
        put_script(alloc, out, name.as_str(), script)?;
    }
    put_script(alloc, out, "closing", &made.closing)?;
    Ok(())
}

/// The lines of all large runs.
pub fn answers(alloc: Global, input: &[u8]) -> Result<Vec<u8>, Memory> {
    let mut scan = Scan::new(input);
    let mut out = Vec::new(alloc);
    for _ in 0..input.len() {
        match next_run(&mut scan) {
            Some(run) => put_run(alloc, &mut out, run)?,
            None => break,
        }
    }
    Ok(out)
}
