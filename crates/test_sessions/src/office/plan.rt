//! The plan of the office of a case.
use crate::office::fields::{bytes, number, text};
use pj_io::{Plan, Ways};
use pj_scan::Scan;
use std::alloc::Global;
use std::collections::BTreeMap;

/// The one call that fails, where it is not 0.
fn failing(alloc: Global, call: u32) -> Option<Vec<u64>> {
    let mut calls = Vec::new(alloc);
    if call > 0 {
        calls.push(u64::from(call)).ok()?;
    }
    Some(calls)
}

/// How sources and sinks behave: how many bytes a source gives at once, 0 for no bound, which of its calls fails, 0 for none,
/// and the same for a sink.
fn ways(alloc: Global, scan: &mut Scan) -> Option<Ways> {
    let most = number(scan)? as usize;
    let mut pieces = Vec::new(alloc);
    if most > 0 {
        pieces.push(most).ok()?;
    }
    let take_failing = failing(alloc, number(scan)?)?;
    let most = number(scan)? as usize;
    let piece = if most > 0 { most } else { 1_073_741_824 };
    let give_failing = failing(alloc, number(scan)?)?;
    Some(Ways {
        pieces,
        take_failing,
        piece,
        give_failing,
    })
}

/// The scripts: how many there are on a line, and for each its path on a line, and its bytes.
fn scripts(alloc: Global, scan: &mut Scan) -> Option<BTreeMap<String, Vec<u8>>> {
    let mut scripts = BTreeMap::new(alloc);
    for _ in 0..number(scan)? {
        let path = text(alloc, scan.line()?)?;
        let script = bytes(alloc, scan)?;
        scripts.insert(path, script).ok()?;
    }
    Some(scripts)
}

/// The next plan: how sources and sinks behave and which opening fails, 0 for none, on a line; the bytes of the input; and the
/// scripts.
pub fn next_plan(alloc: Global, scan: &mut Scan) -> Option<Plan> {
    let ways = ways(alloc, scan)?;
    let open_failing = failing(alloc, number(scan)?)?;
    let input = bytes(alloc, scan)?;
    let scripts = scripts(alloc, scan)?;
    Some(Plan {
        input,
        scripts,
        sessions: BTreeMap::new(alloc),
        ways,
        accept_failing: Vec::new(alloc),
        open_failing,
    })
}

/// The same plan with doors: which call of each door fails, 0 for none, on a line; the address on a line; how many sessions come to
/// it on a line, and the bytes of each.
pub fn with_doors(alloc: Global, scan: &mut Scan, mut plan: Plan) -> Option<Plan> {
    plan.accept_failing = failing(alloc, number(scan)?)?;
    let address = text(alloc, scan.line()?)?;
    let mut listed = Vec::new(alloc);
    for _ in 0..number(scan)? {
        listed.push(bytes(alloc, scan)?).ok()?;
    }
    plan.sessions.insert(address, listed).ok()?;
    Some(plan)
}
