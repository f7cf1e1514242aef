//! Counts for the columns of a matrix, raised and lowered by whole rows.

ghost use Rattle.std.specs.Prelude.{◌≡◌, ◌+◌, ◌^◌, ◌<◌, ◌≤◌, ◌||◌, ℕ, false, not, nat_eq, All, length, IfOk};
ghost use Rattle.pj_bits.specs.Matrix.{size as size_of};
ghost use Rattle.pj_bits.specs.Row.{has, size as columns};
ghost use Rattle.pj_layout.specs.Counts.{count, digit, predecessors};

use pj_bits::{BitMatrix, BitRow, Memory};
use std::alloc::Global;

/// A count for each column, as rows of its binary digits, the lowest first.
#[derive(Drop)]
pub struct ColumnCounts {
    pub digits: Vec<BitRow>,
}

impl ColumnCounts {
    /// A count of 0 for each column, with room for counts up to `most`.
    pub fn new(alloc: Global, width: u32, most: usize) -> Result<ColumnCounts, Memory>
        requires { most < 2 ^ 63 }
        ensures room { IfOk result (λ counts. most < 2 ^ length counts.digits.items) }
        ensures width { IfOk result (λ counts. All (λ row. columns row ≡ width) counts.digits.items) }
        ensures zero { IfOk result (λ counts. (c : ℕ) → count counts.digits.items c ≡ 0) }
    {
        let mut digits = Vec::new(alloc);
        let mut limit = 1u64;
        while limit <= most as u64 {
            digits.push(BitRow::new(alloc, width)?)?;
            limit *= 2;
        }
        Ok(ColumnCounts { digits })
    }

    /// How many of the classes are before each class.
    pub fn of(alloc: Global, before: &BitMatrix, classes: &[u32]) -> Result<ColumnCounts, Memory>
        requires { All (λ class. class < size_of before.now) classes.now }
        ensures width { IfOk result (λ counts. All (λ row. columns row ≡ size_of before.now) counts.digits.items) }
        ensures counted { IfOk result (λ counts. (c : ℕ) → count counts.digits.items c ≡ predecessors before.now classes.now c) }
    {
        let width = before.size();
        let mut counts = ColumnCounts::new(alloc, width, classes.len())?;
        let mut row = BitRow::new(alloc, width)?;
        for &class in classes {
            row.copy_row(before, class);
            counts.raise(&mut row);
        }
        Ok(counts)
    }

    /// Raises the count of each column that the row has, and clears the row.
    pub fn raise(&mut self, row: &mut BitRow)
        requires width { All (λ digit. columns digit ≡ columns row.old) self.old.digits.items }
        requires room { (c : ℕ) → count self.old.digits.items c + digit (has row.old c) < 2 ^ length self.old.digits.items }
        ensures len { length self.new.digits.items ≡ length self.old.digits.items }
        ensures width { All (λ digit. columns digit ≡ columns row.old) self.new.digits.items }
        ensures row_width { columns row.new ≡ columns row.old }
        ensures raised { (c : ℕ) → count self.new.digits.items c ≡ count self.old.digits.items c + digit (has row.old c) }
        ensures cleared { (c : ℕ) → has row.new c ≡ false }
    {
        for digit in self.digits.iter_mut() {
            digit.add(row);
        }
    }

    /// Lowers the count of each column that the row has, clears the row, and adds to `counted` the columns
    /// whose count is not 0 afterwards.
    pub fn lower(&mut self, row: &mut BitRow, counted: &mut BitRow)
        requires width { All (λ digit. columns digit ≡ columns row.old) self.old.digits.items }
        requires counted_width { columns counted.old ≡ columns row.old }
        requires enough { (c : ℕ) → digit (has row.old c) ≤ count self.old.digits.items c }
        ensures len { length self.new.digits.items ≡ length self.old.digits.items }
        ensures width { All (λ digit. columns digit ≡ columns row.old) self.new.digits.items }
        ensures row_width { columns row.new ≡ columns row.old }
        ensures counted_width { columns counted.new ≡ columns counted.old }
        ensures lowered { (c : ℕ) → count self.new.digits.items c + digit (has row.old c) ≡ count self.old.digits.items c }
        ensures counted { (c : ℕ) → has counted.new c ≡ (has counted.old c || not (nat_eq (count self.new.digits.items c) 0)) }
    {
        for digit in self.digits.iter_mut() {
            digit.subtract(row, counted);
        }
    }

    /// The count of a column.
    pub fn get(&self, column: u32) -> u32
        requires width { All (λ digit. column < columns digit) self.now.digits.items }
        requires fits { count self.now.digits.items column < 2 ^ 32 }
        ensures { result ≡ count self.now.digits.items column }
    {
        let mut sum = 0;
        for place in (0..self.digits.len()).rev() {
            sum = 2 * sum + u32::from(self.digits[place].get(column));
        }
        sum
    }
}
