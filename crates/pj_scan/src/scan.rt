//! The scan, which takes lines, words, numbers and pieces one after the other.

ghost use Rattle.std.specs.Prelude.{◌≡◌, ◌↔◌, ℕ, ◌+◌, ◌≤◌, ◌<◌, List, length, take, decimal, IsNone, IfSome};
ghost use Rattle.pj_scan.specs.Scan.{Scanned, IsLine, IsNumber, IsPiece, IsWord, Lacks, Stops, advance, is_word_byte, newline, rest as left};

use crate::numeral::{leading_digits, number_of};
use memchr::{memchr, memchr2};
use std::marker::Model;

/// Bytes that are read from the front.
///
/// Contracts see all the bytes, and the place: how many are passed over. What a call lends
/// borrows from the bytes and not from the scan, so it may be kept while the scan goes on.
/// A call that finds nothing of its kind answers `None` and leaves the scan as it was.
#[derive(Drop)]
pub struct Scan<'a> {
    bytes: &'a [u8],
    place: usize,
}

impl<'a> Model for Scan<'a> {
    ghost use Rattle.std.specs.Prelude.{◌≤◌, length};
    ghost use Rattle.pj_scan.specs.Scan.{Scanned};

    ghost Value = { Scanned };

    ghost view = { λ s. record { bytes = s.bytes.now; place = s.place } };

    ghost invariant = { λ s. s.place ≤ length s.bytes.now };
}

impl<'a> Scan<'a> {
    /// A scan of these bytes from the first.
    pub fn new(bytes: &'a [u8]) -> Self
        ensures { result ≡ record { bytes = bytes.now; place = 0 } }
    {
        Scan { bytes, place: 0 }
    }

    /// The bytes that are left.
    pub fn rest(&self) -> &'a [u8]
        ensures { result.now ≡ left self.now }
    {
        &self.bytes[self.place..]
    }

    /// How many bytes are passed over.
    pub fn place(&self) -> usize
        ensures place { result ≡ self.now.place }
        ensures within { result ≤ length self.now.bytes }
    {
        self.place
    }

    /// The next line, without its newline, which is passed over too, or `None` where no newline
    /// is left.
    pub fn line(&mut self) -> Option<&'a [u8]>
        ensures line { IfSome result (λ line. IsLine (left self.old) line.now (left self.new)) }
        ensures moved { IfSome result (λ line. self.new ≡ advance self.old (length line.now + 1)) }
        ensures none { IsNone result ↔ Lacks newline (left self.old) }
        ensures unchanged { IsNone result → self.new ≡ self.old }
    {
        let length = memchr(b'\n', self.rest())?;
        let line = self.pass(length);
        self.pass(1);
        Some(line)
    }

    /// The bytes to the next space, newline or the end, or `None` where there are none. What
    /// ends the word is not passed over.
    pub fn word(&mut self) -> Option<&'a [u8]>
        ensures word { IfSome result (λ word. IsWord (left self.old) word.now (left self.new)) }
        ensures moved { IfSome result (λ word. self.new ≡ advance self.old (length word.now)) }
        ensures none { IsNone result ↔ Stops is_word_byte (left self.old) }
        ensures unchanged { IsNone result → self.new ≡ self.old }
    {
        let rest = self.rest();
        let length = memchr2(b' ', b'\n', rest).unwrap_or(rest.len());
        if length == 0 {
            return None;
        }
        Some(self.pass(length))
    }

    /// The next decimal number, or `None` where no number below 2 ^ 32 without leading zeros ends
    /// at the next byte that is no digit.
    pub fn number(&mut self) -> Option<u32>
        ensures number { IfSome result (λ n. IsNumber (left self.old) n (left self.new)) }
        ensures moved { IfSome result (λ n. self.new ≡ advance self.old (length (decimal n))) }
        ensures none { IsNone result → (n : ℕ) (behind : List ℕ) → ¬ (IsNumber (left self.old) n behind) }
        ensures unchanged { IsNone result → self.new ≡ self.old }
    {
        let digits = leading_digits(self.rest());
        let number = number_of(digits)?;
        self.pass(digits.len());
        Some(number)
    }

    /// The next `count` bytes, or `None` where fewer are left.
    pub fn bytes(&mut self, count: u32) -> Option<&'a [u8]>
        ensures piece { IfSome result (λ piece. IsPiece count (left self.old) piece.now (left self.new)) }
        ensures moved { IfSome result (λ _. self.new ≡ advance self.old count) }
        ensures none { IsNone result ↔ (length (left self.old) < count) }
        ensures unchanged { IsNone result → self.new ≡ self.old }
    {
        let count = count as usize;
        if self.rest().len() < count {
            return None;
        }
        Some(self.pass(count))
    }

    /// The next `count` bytes, which are passed over.
    fn pass(&mut self, count: usize) -> &'a [u8]
        requires { count ≤ length (left self.old) }
        ensures piece { IsPiece count (left self.old) result.now (left self.new) }
        ensures moved { self.new ≡ advance self.old count }
    {
        let (piece, _) = self.rest().split_at(count);
        self.place += count;
        piece
    }
}
