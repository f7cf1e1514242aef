//! Histories of changes on the table of contests, line by line. What each line answers is written as soon as it is known.
//!
//! | Line | Answer |
//! |---|---|
//! | `row TITLE` | the line; a new history begins, in which no change is held |
//! | `text LENGTH`, a newline and so many bytes | one more change, numbered from 0 as they come; `no` where the bytes are no text of one |
//! | `with CHANGE` | the change is held; `no` where it is already, or one that is held needs it |
//! | `without CHANGE` | the change is held no more; `no` where it is not held, or one that is held needs it |
//! | `try CHANGE` | as `with`, but the history stays as it was |
//! | `contested CHANGE HUNK` | `yes` or `no` |
//! | `counts` | each contested hunk in order, as the first eight digits of its change, its number and its count, and `end` |
//!
//! What begins with no such word ends the cases. That the table is that of the changes that are held is kept in `History`; what the
//! calls ask for is tested before each.

ghost use Rattle.std.specs.Prelude.{◌≡◌, ◌<◌};

mod cases;
mod history;
mod lines;

use anyhow::{Result, anyhow};
use cases::Cases;
use lines::{Word, next_word};
use pj_pmap::Steps;
use pj_scan::Scan;
use std::io::Write;
use std::marker::Brand;
use std::sync::ledger::{Blank, Ledger};

/// Writes the answer to the line that begins with this word.
fn play_line<L: Ledger>(
    rt: &HostRuntime,
    cases: &mut Cases,
    word: Word,
    line: &mut Scan,
    steps: &mut Steps<L>,
) -> Result<()> {
    let mut out = Vec::new(rt.alloc());
    let Ok(()) = cases.answer(rt.alloc(), word, line, steps, &mut out) else {
        return Err(anyhow!("out of memory"));
    };
    rt.stdout().write_all(&out)?;
    Ok(())
}

/// Writes the answers to all lines.
fn play_lines<L: Ledger>(
    rt: &HostRuntime,
    input: &[u8],
    cases: &mut Cases,
    steps: &mut Steps<L>,
) -> Result<()> {
    let mut scan = Scan::new(input);
    for _ in 0..input.len() {
        let Some(word) = next_word(&mut scan) else {
            break;
        };
        play_line(rt, cases, word, &mut scan, steps)?;
        let Some(_) = scan.line() else {
            break;
        };
    }
    Ok(())
}

/// The same, with a ledger of steps of its own.
fn play_counted<L: Ledger>(rt: &HostRuntime, input: &[u8], blank: Blank) -> Result<()>
    requires name { blank.name ≡ L.name }
    requires parts { blank.parts ≡ L.parts }
    requires some { 0 < blank.parts }
{
    let Ok(mut cases) = Cases::empty(rt.alloc()) else {
        return Err(anyhow!("out of memory"));
    };
    let mut steps = Steps::<L>::new(blank);
    play_lines(rt, input, &mut cases, &mut steps)
}

/// Plays the lines, and writes what each answers.
pub fn play(rt: &HostRuntime, input: &[u8]) -> Result<()> {
    play_counted::<Brand>(rt, input, Blank::new(1))
}
