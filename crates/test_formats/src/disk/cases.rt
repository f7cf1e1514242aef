//! The cases of standard input, and what is said of them.
use crate::disk::listing::{Listing, list, put_number};
use crate::disk::runs::{appended, frame_of, stopped, torn};
use crate::disk::torn::Tear;
use pj_journal::{Frame, Memory};
use pj_scan::Scan;
use std::alloc::Global;

/// The string that is appended to what a crash left.
const NEXT: [u8; 2] = [0xab, 0xcd];

/// After so many calls a case ends at the latest.
const MOST_CALLS: u64 = 1_000;

/// The answers to all cases.
pub fn answers(alloc: Global, input: &[u8]) -> Result<Vec<u8>, Memory> {
    let mut scan = Scan::new(input);
    let mut out = Vec::new(alloc);
    for _ in 0..input.len() {
        match scan.line() {
            Some(line) => answer(alloc, line, &mut out)?,
            None => break,
        }
    }
    Ok(out)
}

// The answer to one case: the case's first word, and what is said of it.
fn answer(alloc: Global, line: &[u8], out: &mut Vec<u8>) -> Result<(), Memory> {
    let mut scan = Scan::new(line);
    let kind = scan.word().unwrap_or(b"");
    let file = bytes_of(alloc, &mut scan)?;
    let mut strings = Vec::new(alloc);
    for _ in 0..line.len() {
        let string = bytes_of(alloc, &mut scan)?;
        if string.is_empty() {
            break;
        }
        strings.push(string)?;
    }
    out.extend_from_slice(kind)?;
    out.extend_from_slice(b"\n")?;
    match kind {
        b"read" => say_list(alloc, out, &file)?,
        b"append" => say_appended(alloc, out, &file, &strings)?,
        b"stop" => say_stops(alloc, out, &file, &strings)?,
        b"tear" => say_tears(alloc, out, &file, &strings)?,
        _ => out.extend_from_slice(b"no case\n")?,
    }
    out.extend_from_slice(b"\n")?;
    Ok(())
}

// The bytes of the next word; none where it is no hex, or there is no word.
fn bytes_of(alloc: Global, scan: &mut Scan<'_>) -> Result<Vec<u8>, Memory> {
    let _ = scan.bytes(1);
    let word = scan.word().unwrap_or(b"");
    match hex::decode(alloc, word) {
        Ok(bytes) => Ok(bytes),
        Err(_) => Ok(Vec::new(alloc)),
    }
}

fn frames_of(alloc: Global, strings: &[Vec<u8>]) -> Result<Vec<Frame>, Memory> {
    let mut frames = Vec::new(alloc);
    for string in strings {
        if let Some(frame) = frame_of(alloc, string)? {
            frames.push(frame)?;
        }
    }
    Ok(frames)
}

// A line with the list of a file.
fn say_list(alloc: Global, out: &mut Vec<u8>, file: &[u8]) -> Result<(), Memory> {
    list(alloc, file)?.write(out)?;
    out.extend_from_slice(b"\n")?;
    Ok(())
}

fn say_appended(
    alloc: Global,
    out: &mut Vec<u8>,
    file: &[u8],
    strings: &[Vec<u8>],
) -> Result<(), Memory> {
    let frames = frames_of(alloc, strings)?;
    let file = appended(alloc, file, &frames)?;
    put_number(out, file.len())?;
    out.extend_from_slice(b" bytes: ")?;
    say_list(alloc, out, &file)
}

// The file with one string more.
fn with_next(alloc: Global, file: &[u8]) -> Result<Vec<u8>, Memory> {
    let mut next = Vec::new(alloc);
    next.push(Vec::from_slice(alloc, &NEXT)?)?;
    let frames = frames_of(alloc, &next)?;
    appended(alloc, file, &frames)
}

fn say_stops(
    alloc: Global,
    out: &mut Vec<u8>,
    file: &[u8],
    strings: &[Vec<u8>],
) -> Result<(), Memory> {
    let frames = frames_of(alloc, strings)?;
    for calls in 0..MOST_CALLS {
        let (count, synced) = stopped(alloc, file, &frames, calls, true)?;
        let (_, whole) = stopped(alloc, file, &frames, calls, false)?;
        put_number(out, calls as usize)?;
        out.extend_from_slice(b" calls, ")?;
        put_number(out, count)?;
        out.extend_from_slice(b" acknowledged\n  synced ")?;
        say_left(alloc, out, &synced)?;
        out.extend_from_slice(b"  whole ")?;
        say_left(alloc, out, &whole)?;
        if count == frames.len() {
            break;
        }
    }
    Ok(())
}

// The list of what is left, and the list with one string more.
fn say_left(alloc: Global, out: &mut Vec<u8>, file: &[u8]) -> Result<(), Memory> {
    list(alloc, file)?.write(out)?;
    out.extend_from_slice(b", then ")?;
    say_list(alloc, out, &with_next(alloc, file)?)
}

// How many files read as the list of before, as that with the strings, and as another.
#[derive(Clone, Copy, Debug)]
struct Tally {
    before: usize,
    after: usize,
    other: usize,
}

fn say_tears(
    alloc: Global,
    out: &mut Vec<u8>,
    file: &[u8],
    strings: &[Vec<u8>],
) -> Result<(), Memory> {
    let frames = frames_of(alloc, strings)?;
    let before = list(alloc, file)?;
    let after = list(alloc, &appended(alloc, file, &frames)?)?;
    for calls in 0..MOST_CALLS {
        let mut tally = Tally {
            before: 0,
            after: 0,
            other: 0,
        };
        let mut done = false;
        for kept in 0..16 {
            for filler in [None, Some(0), Some(1), Some(0xff)] {
                let (all, left) = torn(alloc, file, &frames, calls, Tear { kept, filler })?;
                done = all;
                count(alloc, &mut tally, &before, &after, &left)?;
            }
        }
        put_number(out, calls as usize)?;
        say_tally(out, tally)?;
        if done {
            break;
        }
    }
    Ok(())
}

// Counts a file by its list. With one string more it must have that list and the string.
fn count(
    alloc: Global,
    tally: &mut Tally,
    before: &Listing,
    after: &Listing,
    file: &[u8],
) -> Result<(), Memory> {
    let mut now = list(alloc, file)?;
    let is_before = now.is_of(&before.strings);
    let is_after = now.is_of(&after.strings);
    now.strings.push(Vec::from_slice(alloc, &NEXT)?)?;
    let goes_on = list(alloc, &with_next(alloc, file)?)?.is_of(&now.strings);
    if is_before && goes_on {
        tally.before = tally.before.saturating_add(1);
    } else if is_after && goes_on {
        tally.after = tally.after.saturating_add(1);
    } else {
        tally.other = tally.other.saturating_add(1);
    }
    Ok(())
}

fn say_tally(out: &mut Vec<u8>, tally: Tally) -> Result<(), Memory> {
    out.extend_from_slice(b" calls, ")?;
    put_number(out, tally.before)?;
    out.extend_from_slice(b" before, ")?;
    put_number(out, tally.after)?;
    out.extend_from_slice(b" after, ")?;
    put_number(out, tally.other)?;
    out.extend_from_slice(b" other\n")?;
    Ok(())
}
