//! Names and points of numbers, which have no order where the numbers rise.

use pj_change::Point;
use pj_name::Name;

/// Its bits spread over all 64 by odd factors and shifts.
fn spread(number: u32) -> u64 {
    let mut word = u64::from(number).wrapping_mul(0x9E37_79B9_7F4A_7C15);
    word ^= word >> 32;
    word.wrapping_mul(0xD6E8_FEB8_6659_FD93)
}

/// The name of a number.
pub fn name_of(number: u32) -> Name {
    let [a, b, c, d, e, f, g, h] = spread(number).to_be_bytes();
    let [i, j, k, l] = number.to_be_bytes();
    Name::of([
        a, b, c, d, e, f, g, h, i, j, k, l, i, j, k, l, a, b, c, d, e, f, g, h, i, j, k, l, i, j,
        k, l,
    ])
}

/// The point of a number.
pub fn point_of(number: u32) -> Point {
    Point {
        change: name_of(number),
        offset: number % 1_000,
    }
}
