//! A session that is held at its sink while another is answered.

mod door;
mod office;
mod streams;

use crate::office::shown::{put_ends, put_status};
use crate::signals::Signals;
use crate::written::put_journal;
use door::HeldDoor;
use office::HeldOffice;
use pj_change::Memory;
use pj_machine::Limits;
use pj_serve::{Finish, run_with};
use std::alloc::Global;
use std::sync::{Arc, Wait};
use std::thread::Threads;
use streams::{HeldSink, HeldSource};

/// These words as text of their own.
fn owned(alloc: Global, words: &[&str]) -> Result<Vec<String>, Memory> {
    let mut list = Vec::new(alloc);
    for word in words {
        list.push(String::from_str(alloc, word)?)?;
    }
    Ok(list)
}

/// What the call hands back.
type Finished = Finish<HeldSource, HeldSink, HeldDoor>;

/// The call.
fn called<R: Threads + Wait + Sync>(
    rt: &R,
    alloc: Global,
    office: &mut HeldOffice,
    words: &[String],
) -> Finished {
    run_with(rt, alloc, office, words, Limits::FULL)
}

/// Writes what is shown of the call.
fn put_called(out: &mut Vec<u8>, finish: &Finished) -> Result<(), Memory> {
    put_status(out, finish.status)?;
    put_ends(out, finish.ends.items())?;
    put_journal(out, finish.journal.items())?;
    for one in &finish.kept {
        out.extend_from_slice(one.sink.written())?;
        out.push(b'\n')?;
    }
    Ok(())
}

/// Runs two sessions by these words: the second applies a change to the channel that the first prints, once the print has begun, and
/// the print goes on once that was answered. Writes the title and what they wrote.
fn held_at_its_sink<R: Threads + Wait + Sync>(
    rt: &R,
    alloc: Global,
    out: &mut Vec<u8>,
    title: &[u8],
    words: &[&str],
) -> Result<(), Memory> {
    let signals = Arc::new(alloc, Signals::new())?;
    let mut office = HeldOffice::new(alloc, Arc::try_clone(&signals)?);
    let words = owned(alloc, words)?;
    let finish = called(rt, alloc, &mut office, words.as_slice());
    out.extend_from_slice(title)?;
    put_called(out, &finish)?;
    if signals.is_late() {
        out.extend_from_slice(b"the turns ran out\n")?;
    }
    Ok(())
}

/// Runs two scripts, and two sessions each at a door of its own.
pub fn play_all<R: Threads + Wait + Sync>(rt: &R, alloc: Global) -> Result<Vec<u8>, Memory> {
    let mut out = Vec::new(alloc);
    let title = b"a session is answered while another is held at its print\n";
    held_at_its_sink(rt, alloc, &mut out, title, &["run", "first", "second"])?;
    let title = b"a session is answered while that of another worker is held at its print\n";
    let words = ["serve", "x", "--sessions", "2", "--workers", "2"];
    held_at_its_sink(rt, alloc, &mut out, title, &words)?;
    Ok(out)
}
