//! Sessions in any order: each puts a file, applies it to `main`, prints `main`, and quits.
use crate::office::shown::{Finished, put_ends, put_status};
use pj_change::Memory;
use pj_machine::{Entry, Write};
use pj_scan::Scan;
use std::alloc::Global;

/// Whether among the entries is an application of this pass.
fn has_applied(entries: &[Entry], pass: u32) -> bool {
    for entry in entries {
        if let Write::Apply(_, _) = &entry.write {
            if entry.pass == pass {
                return true;
            }
        }
    }
    false
}

/// The print after these entries, where session `k` of three puts the empty file `tk`.
fn print_after(alloc: Global, entries: &[Entry]) -> Result<Vec<u8>, Memory> {
    let mut print = Vec::new(alloc);
    if has_applied(entries, 1) {
        print.extend_from_slice(b"file alive 0 t1\n\n")?;
    }
    if has_applied(entries, 2) {
        print.extend_from_slice(b"file alive 0 t2\n\n")?;
    }
    if has_applied(entries, 3) {
        print.extend_from_slice(b"file alive 0 t3\n\n")?;
    }
    Ok(print)
}

/// The places of the application and of the print, and the print, of what a session wrote.
fn places_and_print<'a>(written: &'a [u8]) -> Option<(usize, usize, &'a [u8])> {
    let mut scan = Scan::new(written);
    scan.line()?;
    scan.bytes(3)?;
    let applied = scan.number()?;
    scan.line()?;
    scan.bytes(3)?;
    let printed = scan.number()?;
    scan.bytes(1)?;
    let length = scan.number()?;
    scan.bytes(1)?;
    let print = scan.bytes(length)?;
    Some((applied as usize, printed as usize, print))
}

/// Whether the print of a session is that of its place, which is not below its own application.
fn is_right(alloc: Global, entries: &[Entry], written: &[u8]) -> Result<bool, Memory> {
    let Some((applied, printed, print)) = places_and_print(written) else {
        return Ok(false);
    };
    if printed < applied || entries.len() < printed {
        return Ok(false);
    }
    let wanted = print_after(alloc, &entries[..printed])?;
    Ok(print == wanted.as_slice())
}

/// Whether the entries of this pass are a text, and then its application.
fn puts_and_applies(entries: &[Entry], pass: u32) -> bool {
    let mut found = 0;
    for entry in entries {
        if entry.pass == pass {
            found = match (found, &entry.write) {
                (0, Write::Put(_)) => 1,
                (1, Write::Apply(_, _)) => 2,
                _ => 3,
            };
        }
    }
    found == 2
}

/// Writes the status, the ends, and of each session whether its entries and its print are right.
pub fn put_prints(alloc: Global, out: &mut Vec<u8>, finish: &Finished) -> Result<(), Memory> {
    let entries = finish.journal.items();
    put_status(out, finish.status)?;
    put_ends(out, finish.ends.items())?;
    if entries.len() == 6 {
        out.extend_from_slice(b"six entries\n")?;
    }
    for one in &finish.kept {
        if puts_and_applies(entries, one.pass) {
            out.extend_from_slice(b"a text and its application\n")?;
        }
        if is_right(alloc, entries, one.sink.written())? {
            out.extend_from_slice(b"the print of its place\n")?;
        }
    }
    Ok(())
}
