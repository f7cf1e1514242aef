//! A row of bits by itself, with what copies, joins, moves, adds and subtracts whole rows.

use crate::matrix::BitMatrix;
use crate::words::{add_words, join_words, move_common, move_others, next_bit, subtract_words};
use pj_memory::Memory;
use std::alloc::Global;
use std::marker::Model;

/// A row of bits. Contracts see the list of its bits.
#[derive(Drop)]
pub struct BitRow {
    size: u32,
    words: Vec<u64>,
}

impl Model for BitRow {
    ghost use Rattle.std.specs.Prelude.{◌≡◌, List, Bool, length};
    ghost use Rattle.std.specs.Int.{div_ceil};
    ghost use Rattle.pj_bits.specs.Words.{row_of};

    ghost Value = { List Bool };

    ghost view = { λ r. row_of r.size r.words.items };

    ghost invariant = { λ r. length r.words.items ≡ div_ceil r.size 64 };
}

impl BitRow {
    ghost use Rattle.std.specs.Prelude.{◌≡◌, ◌≢◌, ◌<◌, ◌≤◌, ℕ, false, true, ◌||◌, ◌&&◌, not, filter, IfOk, MatchOption};
    ghost use Rattle.std.specs.List.{range_with_len};
    ghost use Rattle.pj_bits.specs.Matrix.{bit, size as size_of};
    ghost use Rattle.pj_bits.specs.Row.{differ, has, size as columns};

    /// The row of `n` columns with every bit clear.
    pub fn new(alloc: Global, n: u32) -> Result<BitRow, Memory>
        ensures size { IfOk result (λ r. columns r ≡ n) }
        ensures clear { IfOk result (λ r. (column : ℕ) → has r column ≡ false) }
    {
        let words = vec![in alloc; 0u64; (n as usize).div_ceil(64)]?;
        Ok(BitRow { size: n, words })
    }

    /// How many columns there are.
    pub fn size(&self) -> u32
        ensures size { result ≡ columns self.now }
        ensures inside { (column : ℕ) → has self.now column ≡ true → column < result }
    {
        self.size
    }

    /// The bit in a column, numbered from 0.
    pub fn get(&self, column: u32) -> bool
        requires { column < columns self.now }
        ensures { result ≡ has self.now column }
    {
        (self.words[column as usize / 64] >> (column % 64)) & 1 == 1
    }

    /// Sets the bit in a column.
    pub fn set(&mut self, column: u32)
        requires { column < columns self.old }
        ensures size { columns self.new ≡ columns self.old }
        ensures here { has self.new column ≡ true }
        ensures others { (c : ℕ) → c ≢ column → has self.new c ≡ has self.old c }
    {
        self.words[column as usize / 64] |= 1 << (column % 64);
    }

    /// Clears the bit in a column.
    pub fn clear(&mut self, column: u32)
        requires { column < columns self.old }
        ensures size { columns self.new ≡ columns self.old }
        ensures here { has self.new column ≡ false }
        ensures others { (c : ℕ) → c ≢ column → has self.new c ≡ has self.old c }
    {
        self.words[column as usize / 64] &= !(1 << (column % 64));
    }

    /// The first column from `from` on whose bit is set.
    pub fn next(&self, from: u32) -> Option<u32>
        ensures { MatchOption result
            ((c : ℕ) → from ≤ c → has self.now c ≡ false)
            (λ column. (from ≤ column) × (column < columns self.now) × (has self.now column ≡ true) × ((c : ℕ) → from ≤ c → c < column → has self.now c ≡ false)) }
    {
        next_bit(self.words.as_slice(), from, self.size)
    }

    /// The columns whose bits are set, in rising order.
    pub fn ones(&self, alloc: Global) -> Result<Vec<u32>, Memory>
        ensures { IfOk result (λ ones. ones.items ≡ filter (has self.now) (range_with_len 0 (columns self.now))) }
    {
        let _size = self.size;
        let mut ones = Vec::new(alloc);
        let mut from = 0;
        while let Some(column) = self.next(from) {
            ones.push(column)?;
            from = column + 1;
        }
        Ok(ones)
    }

    /// Makes the row that of the matrix.
    pub fn copy_row(&mut self, matrix: &BitMatrix, row: u32)
        requires same_size { size_of matrix.now ≡ columns self.old }
        requires row_is_there { row < size_of matrix.now }
        ensures size { columns self.new ≡ columns self.old }
        ensures copied { (c : ℕ) → has self.new c ≡ bit matrix.now row c }
    {
        self.words.as_mut_slice().copy_from_slice(matrix.row(row));
    }

    /// Sets each bit that is set in the row of the matrix.
    pub fn or_row(&mut self, matrix: &BitMatrix, row: u32)
        requires same_size { size_of matrix.now ≡ columns self.old }
        requires row_is_there { row < size_of matrix.now }
        ensures size { columns self.new ≡ columns self.old }
        ensures joined { (c : ℕ) → has self.new c ≡ (has self.old c || bit matrix.now row c) }
    {
        join_words(self.words.as_mut_slice(), matrix.row(row));
    }

    /// Moves to the row `to` the bits that `chosen` has.
    pub fn move_common(&mut self, to: &mut BitRow, chosen: &BitRow)
        requires to_size { columns to.old ≡ columns self.old }
        requires chosen_size { columns chosen.now ≡ columns self.old }
        ensures size { columns self.new ≡ columns self.old }
        ensures to_size { columns to.new ≡ columns to.old }
        ensures kept { (c : ℕ) → has self.new c ≡ (has self.old c && not (has chosen.now c)) }
        ensures moved { (c : ℕ) → has to.new c ≡ (has to.old c || (has self.old c && has chosen.now c)) }
    {
        move_common(
            self.words.as_mut_slice(),
            to.words.as_mut_slice(),
            chosen.words.as_slice(),
        );
    }

    /// Moves to the row `to` the bits that `chosen` does not have.
    pub fn move_others(&mut self, to: &mut BitRow, chosen: &BitRow)
        requires to_size { columns to.old ≡ columns self.old }
        requires chosen_size { columns chosen.now ≡ columns self.old }
        ensures size { columns self.new ≡ columns self.old }
        ensures to_size { columns to.new ≡ columns to.old }
        ensures kept { (c : ℕ) → has self.new c ≡ (has self.old c && has chosen.now c) }
        ensures moved { (c : ℕ) → has to.new c ≡ (has to.old c || (has self.old c && not (has chosen.now c))) }
    {
        move_others(
            self.words.as_mut_slice(),
            to.words.as_mut_slice(),
            chosen.words.as_slice(),
        );
    }

    /// Adds to each column the bit that `carry` has there, and leaves in `carry` where both were set:
    /// the sum's two binary digits.
    pub fn add(&mut self, carry: &mut BitRow)
        requires { columns carry.old ≡ columns self.old }
        ensures size { columns self.new ≡ columns self.old }
        ensures carry_size { columns carry.new ≡ columns carry.old }
        ensures sum { (c : ℕ) → has self.new c ≡ differ (has self.old c) (has carry.old c) }
        ensures carried { (c : ℕ) → has carry.new c ≡ (has self.old c && has carry.old c) }
    {
        add_words(self.words.as_mut_slice(), carry.words.as_mut_slice());
    }

    /// Takes from each column the bit that `borrow` has there, and leaves in `borrow` where it was lacking.
    /// Sets in `seen` what is left.
    pub fn subtract(&mut self, borrow: &mut BitRow, seen: &mut BitRow)
        requires borrow_size { columns borrow.old ≡ columns self.old }
        requires seen_size { columns seen.old ≡ columns self.old }
        ensures size { columns self.new ≡ columns self.old }
        ensures borrow_size { columns borrow.new ≡ columns borrow.old }
        ensures seen_size { columns seen.new ≡ columns seen.old }
        ensures difference { (c : ℕ) → has self.new c ≡ differ (has self.old c) (has borrow.old c) }
        ensures borrowed { (c : ℕ) → has borrow.new c ≡ (not (has self.old c) && has borrow.old c) }
        ensures seen { (c : ℕ) → has seen.new c ≡ (has seen.old c || has self.new c) }
    {
        subtract_words(
            self.words.as_mut_slice(),
            borrow.words.as_mut_slice(),
            seen.words.as_mut_slice(),
        );
    }
}
