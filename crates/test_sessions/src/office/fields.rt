//! The fields of a case.
use pj_scan::Scan;
use std::alloc::Global;
use std::str::from_utf8;

/// A number, and the byte behind it is passed over.
pub fn number(scan: &mut Scan) -> Option<u32> {
    let number = scan.number()?;
    scan.bytes(1)?;
    Some(number)
}

/// These bytes as text of its own.
pub fn text(alloc: Global, bytes: &[u8]) -> Option<String> {
    let text = from_utf8(bytes).ok()?;
    String::from_str(alloc, text).ok()
}

/// The words of a line.
pub fn words(alloc: Global, line: &[u8]) -> Option<Vec<String>> {
    let mut scan = Scan::new(line);
    let mut words = Vec::new(alloc);
    for _ in 0..line.len() {
        let Some(word) = scan.word() else {
            break;
        };
        words.push(text(alloc, word)?).ok()?;
        scan.bytes(1);
    }
    Some(words)
}

/// Bytes out of pieces: how many there are on a line, and for each its length and how often it comes on a line, the piece, and
/// a newline.
pub fn bytes(alloc: Global, scan: &mut Scan) -> Option<Vec<u8>> {
    let mut bytes = Vec::new(alloc);
    for _ in 0..number(scan)? {
        let length = number(scan)?;
        let times = number(scan)?;
        let piece = scan.bytes(length)?;
        scan.line()?;
        for _ in 0..times {
            bytes.extend_from_slice(piece).ok()?;
        }
    }
    Some(bytes)
}
