//! From a strict order of classes to its layout: series, sides and tangles.
//!
//! Contract: `lay` gives the layout of all classes, for every strict order (`IsLayout`), and each has exactly one.
//! Cost: sets are parted at most 64 levels deep, each level with a row of n / 64 words for each class; the memory is that of
//! two matrices of n * n bits.
//! Used by: `bench_layout`, `pj_marks`, `pj_print`.
#![tactic(auto)]

mod counts;
pub mod laws;
mod layout;
mod link;
mod order;
mod search;
mod sets;
mod tangle;

pub use layout::Layout;
pub use pj_bits::Memory;
pub use sets::lay;
