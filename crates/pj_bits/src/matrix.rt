//! The matrix of bits: single bits, whole rows, and the matrix turned round.

use crate::words::{and_not_words, or_words};
use pj_memory::Memory;
use std::alloc::Global;
use std::marker::Model;

/// A square matrix of bits. Contracts see the list of its rows.
#[derive(Drop)]
pub struct BitMatrix {
    size: u32,
    /// The words of a row.
    width: usize,
    words: Vec<u64>,
}

impl Model for BitMatrix {
    ghost use Rattle.std.specs.Prelude.{◌≡◌, ◌≤◌, ◌*◌, List, Bool, length};
    ghost use Rattle.pj_bits.specs.Words.{rows_of};

    ghost Value = { List (List Bool) };

    ghost view = { λ m. rows_of m.size m.width m.words.items };

    ghost invariant = { λ m. (length m.words.items ≡ m.size * m.width) × (m.size ≤ 64 * m.width) };
}

impl BitMatrix {
    ghost use Rattle.std.specs.Prelude.{◌≡◌, ◌≢◌, ◌+◌, ◌<◌, ◌≤◌, ℕ, false, true, ◌||◌, ◌&&◌, not, nat_eq, ◌⊎◌, length, IfOk, IsTrue};
    ghost use Rattle.std.specs.Int.{bit_at, div_ceil};
    ghost use Rattle.pj_bits.specs.Matrix.{bit, size as size_of};
    ghost use Rattle.pj_bits.specs.Row.{has};
    ghost use Rattle.pj_bits.specs.Words.{row_of};

    /// The matrix of `n` rows and columns with every bit clear. It takes about `n * n` bits of memory.
    pub fn new(alloc: Global, n: u32) -> Result<BitMatrix, Memory>
        ensures size { IfOk result (λ m. size_of m ≡ n) }
        ensures clear { IfOk result (λ m. (row column : ℕ) → bit m row column ≡ false) }
    {
        let width = (n as usize).div_ceil(64);
        let words = vec![in alloc; 0u64; n as usize * width]?;
        Ok(BitMatrix {
            size: n,
            width,
            words,
        })
    }

    /// How many rows there are, and how many columns.
    pub fn size(&self) -> u32
        ensures size { result ≡ size_of self.now }
        ensures inside { (row column : ℕ) → bit self.now row column ≡ true → (row < result) × (column < result) }
    {
        self.size
    }

    /// The bit in a row and a column, each numbered from 0.
    pub fn get(&self, row: u32, column: u32) -> bool
        requires row_is_there { row < size_of self.now }
        requires column_is_there { column < size_of self.now }
        ensures { result ≡ bit self.now row column }
    {
        let at = row as usize * self.width + column as usize / 64;
        (self.words[at] >> (column % 64)) & 1 == 1
    }

    /// Sets the bit in a row and a column.
    pub fn set(&mut self, row: u32, column: u32)
        requires row_is_there { row < size_of self.old }
        requires column_is_there { column < size_of self.old }
        ensures size { size_of self.new ≡ size_of self.old }
        ensures here { bit self.new row column ≡ true }
        ensures others { (r c : ℕ) → (r ≢ row) ⊎ (c ≢ column) → bit self.new r c ≡ bit self.old r c }
    {
        let at = row as usize * self.width + column as usize / 64;
        self.words[at] |= 1 << (column % 64);
    }

    /// Sets in the row `into` each bit that the row `from` has. They may be one row.
    pub fn or_row(&mut self, into: u32, from: u32)
        requires into_is_there { into < size_of self.old }
        requires from_is_there { from < size_of self.old }
        ensures size { size_of self.new ≡ size_of self.old }
        ensures joined { (c : ℕ) → bit self.new into c ≡ (bit self.old into c || bit self.old from c) }
        ensures others { (r c : ℕ) → r ≢ into → bit self.new r c ≡ bit self.old r c }
    {
        let width = self.width;
        or_words(
            self.words.as_mut_slice(),
            into as usize * width,
            from as usize * width,
            width,
        );
    }

    /// Clears in the row `into` each bit that the row `from` has. They may be one row.
    pub fn row_and_not(&mut self, into: u32, from: u32)
        requires into_is_there { into < size_of self.old }
        requires from_is_there { from < size_of self.old }
        ensures size { size_of self.new ≡ size_of self.old }
        ensures taken { (c : ℕ) → bit self.new into c ≡ (bit self.old into c && not (bit self.old from c)) }
        ensures others { (r c : ℕ) → r ≢ into → bit self.new r c ≡ bit self.old r c }
    {
        let width = self.width;
        and_not_words(
            self.words.as_mut_slice(),
            into as usize * width,
            from as usize * width,
            width,
        );
    }

    /// The words that hold a row.
    pub(crate) fn row(&self, row: u32) -> &[u64]
        requires { row < size_of self.now }
        ensures len { length result.now ≡ div_ceil (size_of self.now) 64 }
        ensures bits { (column : ℕ) → has (row_of (size_of self.now) result.now) column ≡ bit self.now row column }
    {
        let at = row as usize * self.width;
        &self.words[at..at + (self.size as usize).div_ceil(64)]
    }

    /// Sets in a column the bits that a word has, the first of them in the row `first`. Those past the last row are left out.
    fn set_down(&mut self, bits: u64, first: u32, column: u32)
        requires first_is_there { first < size_of self.old }
        requires column_is_there { column < size_of self.old }
        ensures size { size_of self.new ≡ size_of self.old }
        ensures here { (j : ℕ) → j < 64 → first + j < size_of self.old → bit self.new (first + j) column ≡ (bit self.old (first + j) column || nat_eq (bit_at bits j) 1) }
        ensures others { (r c : ℕ) → (c ≢ column) ⊎ (r < first) ⊎ (first + 64 ≤ r) ⊎ (size_of self.old ≤ r) → bit self.new r c ≡ bit self.old r c }
    {
        let size = self.size();
        let mut left = bits;
        while left != 0 {
            let lowest = left.trailing_zeros();
            if lowest < size - first {
                self.set(first + lowest, column);
            }
            left &= !(1 << lowest);
        }
    }

    /// The matrix turned round: each row is what its column was. The work is a step for each bit that is set.
    pub fn transposed(&self, alloc: Global) -> Result<BitMatrix, Memory>
        ensures size { IfOk result (λ m. size_of m ≡ size_of self.now) }
        ensures turned { IfOk result (λ m. (row column : ℕ) → bit m row column ≡ bit self.now column row) }
    {
        let mut turned = BitMatrix::new(alloc, self.size)?;
        for block in 0..(self.size as usize).div_ceil(64) {
            for row in 0..self.size {
                let bits = self.words[row as usize * self.width + block];
                turned.set_down(bits, block as u32 * 64, row);
            }
        }
        Ok(turned)
    }
}
