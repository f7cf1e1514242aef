//! Words and numbers out of lines, and answers into them.

use pj_contest::Contests;
use pj_name::Name;
use pj_pmap::Memory;
use pj_ranges::HunkAt;
use pj_scan::Scan;
use std::alloc::Global;

/// What a line begins with.
#[derive(Clone, Copy)]
pub enum Word {
    Row,
    Text,
    With,
    Without,
    Try,
    Contested,
    Counts,
}

/// The next word, or `None` where it is no word that a line begins with.
pub fn next_word(scan: &mut Scan) -> Option<Word> {
    match scan.word()? {
        b"row" => Some(Word::Row),
        b"text" => Some(Word::Text),
        b"with" => Some(Word::With),
        b"without" => Some(Word::Without),
        b"try" => Some(Word::Try),
        b"contested" => Some(Word::Contested),
        b"counts" => Some(Word::Counts),
        _ => None,
    }
}

/// The next number of the line, behind a space; 0 where there is none.
pub fn number(line: &mut Scan) -> u32 {
    let _ = line.bytes(1);
    line.number().unwrap_or(0)
}

/// Writes a word on a line.
pub fn put_word(out: &mut Vec<u8>, word: &[u8]) -> Result<(), Memory> {
    out.extend_from_slice(word)?;
    out.push(b'\n')?;
    Ok(())
}

/// What is before each other hunk, or is the first one.
fn least_hunk() -> HunkAt {
    HunkAt {
        change: Name::least(),
        hunk: 0,
    }
}

/// Writes each contested hunk with its count.
pub fn put_counts(alloc: Global, out: &mut Vec<u8>, contests: &Contests) -> Result<(), Memory> {
    let counts = contests.counts();
    let mut after = least_hunk();
    for _ in 0..counts.len() {
        let Some((at, count)) = counts.next_after(&after) else {
            break;
        };
        after = *at;
        let digits = after.change.hex();
        out.extend_from_slice(&digits[..8])?;
        let text = format!(in alloc; ".{}x{} ", after.hunk, count.count)?;
        out.extend_from_slice(text.as_bytes())?;
    }
    put_word(out, b"end")
}
