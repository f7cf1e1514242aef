//! That the name of `abc` is its digest, that only 64 lower-case digits are read as a name, and which name is the least.

use crate::{Name, name_of};

/// The digest of `abc` that FIPS 180-4 gives as its example.
const DIGITS: &[u8; 64] = b"ba7816bf8f01cfea414140de5dae2223b00361a396177a9cb410ff61f20015ad";

#[test]
fn the_name_of_abc_is_its_digest(rt: HostRuntime) {
    assert_eq!(rt; name_of(b"abc").hex().as_slice(), DIGITS.as_slice());
}

#[test]
fn a_name_is_read_from_its_digits(rt: HostRuntime) {
    assert_eq!(rt; Name::read(DIGITS), Some(name_of(b"abc")));
}

#[test]
fn upper_case_is_refused(rt: HostRuntime) {
    let digits = b"BA7816BF8F01CFEA414140DE5DAE2223B00361A396177A9CB410FF61F20015AD";
    assert_eq!(rt; Name::read(digits), None);
}

#[test]
fn other_lengths_are_refused(rt: HostRuntime) {
    assert_eq!(rt; Name::read(&DIGITS[..63]), None);
    let longer = b"ba7816bf8f01cfea414140de5dae2223b00361a396177a9cb410ff61f20015ad0";
    assert_eq!(rt; Name::read(longer), None);
}

#[test]
fn the_least_name_is_below(rt: HostRuntime) {
    assert!(rt; Name::least() < Name::of([1; 32]));
}
