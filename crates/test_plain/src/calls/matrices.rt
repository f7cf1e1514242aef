//! Matrices and rows of bits.

ghost use Rattle.std.specs.Prelude.{◌≡◌, ◌<◌, IfOk};
ghost use Rattle.pj_bits.specs.Matrix.{size as size_of};

use pj_bits::{BitMatrix, BitRow, Memory};
use std::alloc::Global;

/// The bits that are set, as rows and columns.
fn bits(alloc: Global, matrix: &BitMatrix) -> Result<String, Memory> {
    let mut told = format!(in alloc; "{}:", matrix.size())?;
    for row in 0..matrix.size() {
        for column in 0..matrix.size() {
            if matrix.get(row, column) {
                told.push_str(format!(in alloc; " {row}.{column}")?.as_str())?;
            }
        }
    }
    told.push('\n')?;
    Ok(told)
}

/// Row 1 has the columns 0 and 2, row 2 the columns 2 and 1; row 0 gets those of row 1, and loses those of row 2.
fn joined(alloc: Global) -> Result<String, Memory> {
    let mut matrix = BitMatrix::new(alloc, 3)?;
    matrix.set(1, 0);
    matrix.set(1, 2);
    matrix.set(2, 2);
    matrix.set(2, 1);
    matrix.or_row(0, 1);
    matrix.row_and_not(0, 2);
    bits(alloc, &matrix)
}

/// 130 columns take three words a row, and the last word is not full.
fn wide(alloc: Global) -> Result<String, Memory> {
    let mut matrix = BitMatrix::new(alloc, 130)?;
    matrix.set(0, 129);
    matrix.or_row(129, 0);
    matrix.row_and_not(0, 129);
    bits(alloc, &matrix)
}

/// Rows 0 and 2 have column 69, and row 69 has column 2.
fn turned(alloc: Global) -> Result<String, Memory> {
    let mut matrix = BitMatrix::new(alloc, 70)?;
    matrix.set(0, 69);
    matrix.set(2, 69);
    matrix.set(69, 2);
    bits(alloc, &matrix.transposed(alloc)?)
}

/// A matrix whose row 3 has the columns 64 and 99, and whose row 4 has column 1.
fn choices(alloc: Global) -> Result<BitMatrix, Memory>
    ensures { IfOk result (λ m. size_of m ≡ 100) }
{
    let mut matrix = BitMatrix::new(alloc, 100)?;
    matrix.set(3, 64);
    matrix.set(3, 99);
    matrix.set(4, 1);
    Ok(matrix)
}

/// Of the columns 1, 64 and 99 those are moved that row 3 has, and then those that neither row 3 nor row 4 has.
fn moved(alloc: Global) -> Result<String, Memory> {
    let matrix = choices(alloc)?;
    let mut rest = BitRow::new(alloc, 100)?;
    rest.set(1);
    rest.set(64);
    rest.set(99);
    rest.set(5);
    rest.clear(5);
    let next = rest.next(2);
    let mut chosen = BitRow::new(alloc, 100)?;
    chosen.copy_row(&matrix, 3);
    let mut moved = BitRow::new(alloc, 100)?;
    rest.move_common(&mut moved, &chosen);
    chosen.or_row(&matrix, 4);
    rest.move_others(&mut moved, &chosen);
    let rest = rest.ones(alloc)?;
    let moved = moved.ones(alloc)?;
    let told = format!(in alloc; "{next:?} {rest:?} {moved:?}\n")?;
    Ok(told)
}

/// 1 and 1 is 0 with a carry; and 0 less 1 is 1 with a borrow.
fn summed(alloc: Global) -> Result<String, Memory> {
    let mut digit = BitRow::new(alloc, 2)?;
    let mut other = BitRow::new(alloc, 2)?;
    let mut seen = BitRow::new(alloc, 2)?;
    digit.set(0);
    other.set(0);
    digit.add(&mut other);
    let sum = digit.get(0);
    let carry = other.get(0);
    digit.subtract(&mut other, &mut seen);
    let digit = digit.ones(alloc)?;
    let other = other.ones(alloc)?;
    let seen = seen.ones(alloc)?;
    let told = format!(in alloc; "{sum} {carry} {digit:?} {other:?} {seen:?}")?;
    Ok(told)
}

/// What each of them shows, a line for each.
pub fn told(alloc: Global) -> Result<String, Memory> {
    let mut told = joined(alloc)?;
    told.push_str(wide(alloc)?.as_str())?;
    told.push_str(turned(alloc)?.as_str())?;
    told.push_str(moved(alloc)?.as_str())?;
    told.push_str(summed(alloc)?.as_str())?;
    Ok(told)
}
