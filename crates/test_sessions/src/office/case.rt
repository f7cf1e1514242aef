//! A case of the input.
use crate::office::fields::{number, words};
use crate::office::plan::{next_plan, with_doors};
use pj_io::Plan;
use pj_machine::Limits;
use pj_scan::Scan;
use std::alloc::Global;

/// What is written of a case.
#[derive(Clone, Copy)]
pub enum Kind {
    /// All that the office shows.
    Shown,
    /// The same, of an office with doors.
    Served,
    /// Whether each print of its sessions is that of its place, whatever their order.
    Prints,
}

/// The words of a call, under these limits, over an office with this plan.
#[derive(Drop)]
pub struct Case<'a> {
    pub kind: Kind,
    pub title: &'a [u8],
    pub words: Vec<String>,
    pub limits: Limits,
    pub plan: Plan,
}

/// The next case, or `None` where none is left or memory is wanting. On a line each stand the word `shown`, `served` or `prints`
/// with the title, the words, and the limits; then comes the plan, and behind it, for `served`, the doors.
pub fn next_case<'a>(alloc: Global, scan: &mut Scan<'a>) -> Option<Case<'a>> {
    let kind = match scan.word()? {
        b"shown" => Kind::Shown,
        b"served" => Kind::Served,
        b"prints" => Kind::Prints,
        _ => return None,
    };
    scan.bytes(1)?;
    let title = scan.line()?;
    let words = words(alloc, scan.line()?)?;
    let limits = limits(scan)?;
    let plan = next_plan(alloc, scan)?;
    let plan = match kind {
        Kind::Served => with_doors(alloc, scan, plan)?,
        Kind::Shown | Kind::Prints => plan,
    };
    Some(Case {
        kind,
        title,
        words,
        limits,
        plan,
    })
}

/// The limits: of changes, bytes, channels, entries, live vertices, and bytes of a session.
fn limits(scan: &mut Scan) -> Option<Limits> {
    let changes = number(scan)?;
    let bytes = number(scan)?;
    let channels = number(scan)?;
    let entries = number(scan)?;
    let live = number(scan)?;
    let session = number(scan)?;
    Some(Limits {
        changes: changes.min(65_536),
        bytes: u64::from(bytes.min(1_073_741_824)),
        channels: channels.min(4_096),
        entries: u64::from(entries.min(4_194_304)),
        live: live.min(16_384),
        session: u64::from(session.min(1_073_741_824)),
    })
}
