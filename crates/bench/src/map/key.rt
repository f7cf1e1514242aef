//! What the maps have: keys of 40 bytes, and numbers under them.

ghost use Rattle.std.specs.Prelude.{◌≡◌};

use pj_pmap::{Memory, Share};

/// A key of 40 bytes.
#[derive(Clone, Copy, PartialEq, Eq, PartialOrd, Ord)]
pub struct Key {
    words: [u64; 5],
}

impl Share for Key {
    ghost shown = { λ k. k };

    fn share(&self) -> Result<Key, Memory> {
        Ok(*self)
    }
}

/// A number to be kept under a key.
#[derive(Clone, Copy)]
pub struct Number {
    pub number: u64,
}

impl Share for Number {
    ghost shown = { λ n. n };

    fn share(&self) -> Result<Number, Memory> {
        Ok(*self)
    }
}

/// The key of a number: its bits spread over all 64 by odd factors and shifts, so that keys of rising numbers have no order.
pub fn key_of(number: u64) -> Key {
    let mut word = number.wrapping_mul(0x9E37_79B9_7F4A_7C15);
    word ^= word >> 32;
    word = word.wrapping_mul(0xD6E8_FEB8_6659_FD93);
    Key {
        words: [word, number, word, number, word],
    }
}
