//! Cases of the top call over an office in memory: what the office then shows of each.

mod case;
mod fields;
mod plan;
mod prints;
pub mod shown;

use case::{Case, Kind, next_case};
use pj_change::Memory;
use pj_io::MemOffice;
use pj_machine::Limits;
use pj_scan::Scan;
use pj_serve::run_with;
use prints::put_prints;
use shown::{Finished, put_faults, put_finish};
use std::alloc::Global;
use std::sync::Wait;
use std::thread::Threads;

/// The call of a case.
fn called<R: Threads + Wait + Sync>(
    rt: &R,
    alloc: Global,
    office: &mut MemOffice,
    words: &[String],
    limits: Limits,
) -> Finished {
    run_with(rt, alloc, office, words, limits)
}

/// Writes what is shown of the call of a case.
fn put_called(
    alloc: Global,
    out: &mut Vec<u8>,
    kind: Kind,
    finish: &Finished,
) -> Result<(), Memory> {
    match kind {
        Kind::Shown | Kind::Served => put_finish(out, finish),
        Kind::Prints => put_prints(alloc, out, finish),
    }
}

/// Plays a case, and writes what is shown of it.
fn play<R: Threads + Wait + Sync>(
    rt: &R,
    alloc: Global,
    case: Case,
    out: &mut Vec<u8>,
) -> Result<(), Memory> {
    let Case {
        kind,
        title: _,
        words,
        limits,
        plan,
    } = case;
    let mut office = MemOffice::new(plan);
    let finish = called(rt, alloc, &mut office, words.as_slice(), limits);
    put_called(alloc, out, kind, &finish)?;
    put_faults(out, &office)
}

/// Writes the title of a case.
fn put_title(out: &mut Vec<u8>, title: &[u8]) -> Result<(), Memory> {
    out.extend_from_slice(title)?;
    out.push(b'\n')?;
    Ok(())
}

/// What is shown of all cases.
pub fn play_all<R: Threads + Wait + Sync>(
    rt: &R,
    alloc: Global,
    input: &[u8],
) -> Result<Vec<u8>, Memory> {
    let mut scan = Scan::new(input);
    let mut out = Vec::new(alloc);
    for _ in 0..input.len() {
        let Some(case) = next_case(alloc, &mut scan) else {
            break;
        };
        put_title(&mut out, case.title)?;
        play(rt, alloc, case, &mut out)?;
    }
    Ok(out)
}
