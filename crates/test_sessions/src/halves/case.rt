//! A case of the input.
use pj_machine::Limits;
use pj_scan::Scan;

/// The requests of two sessions, and what the first asks before the second begins.
#[derive(Clone, Copy)]
pub struct Case<'a> {
    pub title: &'a [u8],
    pub limits: Limits,
    pub before: &'a [u8],
    pub first: &'a [u8],
    pub second: &'a [u8],
}

/// The next case: its title, the most entries of the journal, and three times requests. Each stands on a line, and of requests
/// there is first their length on a line, then the requests and a newline.
pub fn next_case<'a>(scan: &mut Scan<'a>) -> Option<Case<'a>> {
    let title = scan.line()?;
    let entries = number(scan)?;
    let before = requests(scan)?;
    let first = requests(scan)?;
    let second = requests(scan)?;
    Some(Case {
        title,
        limits: limits(entries),
        before,
        first,
        second,
    })
}

/// A number, and the byte behind it is passed over.
fn number(scan: &mut Scan) -> Option<u32> {
    let number = scan.number()?;
    scan.bytes(1)?;
    Some(number)
}

fn requests<'a>(scan: &mut Scan<'a>) -> Option<&'a [u8]> {
    let length = number(scan)?;
    let requests = scan.bytes(length)?;
    scan.line()?;
    Some(requests)
}

/// The limits with so many entries.
fn limits(entries: u32) -> Limits {
    Limits {
        changes: 65_536,
        bytes: 1_073_741_824,
        channels: 4_096,
        entries: u64::from(entries.min(4_194_304)),
        live: 16_384,
        session: 1_073_741_824,
    }
}
