//! Which numbers, lines, words and pieces are found in worked cases, and that a line is kept while the scan goes on.

use crate::Scan;

fn number(text: &[u8]) -> Option<u32> {
    Scan::new(text).number()
}

#[test]
fn numbers_below_two_to_the_32_without_leading_zeros(rt: HostRuntime) {
    assert_eq!(rt; number(b"0"), Some(0));
    assert_eq!(rt; number(b"17."), Some(17));
    assert_eq!(rt; number(b"4294967295 "), Some(4_294_967_295));
    assert_eq!(rt; number(b"4294967296"), None);
    assert_eq!(rt; number(b"1000000000000000000000000000000000000000"), None);
    assert_eq!(rt; number(b"00"), None);
    assert_eq!(rt; number(b"01"), None);
    assert_eq!(rt; number(b"+1"), None);
    assert_eq!(rt; number(b""), None);
}

/// The first two lines, of which one is kept while the other is read.
fn two_lines<'a>(scan: &mut Scan<'a>) -> Option<(&'a [u8], &'a [u8])> {
    let first = scan.line()?;
    let second = scan.line()?;
    Some((first, second))
}

#[test]
fn lines_are_kept_while_the_scan_goes_on(rt: HostRuntime) {
    let mut scan = Scan::new(b"one\n\nthree");
    let (first, second) = two_lines(&mut scan).expect(&rt, "two lines");
    assert_eq!(rt; first, b"one".as_slice());
    assert!(rt; second.is_empty());
    assert_eq!(rt; scan.place(), 5);
    assert!(rt; scan.line().is_none());
    assert_eq!(rt; scan.rest(), b"three".as_slice());
}

#[test]
fn a_word_ends_before_a_space_or_a_newline(rt: HostRuntime) {
    let mut scan = Scan::new(b"put main\n");
    assert_eq!(rt; scan.word(), Some(b"put".as_slice()));
    assert!(rt; scan.word().is_none());
    assert_eq!(rt; scan.bytes(1), Some(b" ".as_slice()));
    assert_eq!(rt; scan.word(), Some(b"main".as_slice()));
    assert_eq!(rt; scan.rest(), b"\n".as_slice());
}

#[test]
fn fewer_bytes_than_wanted(rt: HostRuntime) {
    let mut scan = Scan::new(b"abc");
    assert!(rt; scan.bytes(4).is_none());
    assert_eq!(rt; scan.bytes(3), Some(b"abc".as_slice()));
    assert_eq!(rt; scan.place(), 3);
}
