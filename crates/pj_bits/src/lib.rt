//! Square matrices of bits and rows of bits, joined, moved, added and subtracted 64 bits at a time.
//!
//! Contract: each call of `BitMatrix` and `BitRow` is the same call on plain lists of bits.
//! Cost: a matrix of n columns takes n * n / 8 bytes; one bit takes a fixed time, a row n / 64 steps, `transposed` a step for
//! each set bit and each word.
//! Used by: `pj_reach`, `pj_layout`, `pj_print`, `calls`.
#![tactic(auto)]

mod matrix;
mod row;
mod words;

pub use matrix::BitMatrix;
pub use pj_memory::Memory;
pub use row::BitRow;
