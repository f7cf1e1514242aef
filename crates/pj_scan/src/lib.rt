//! Bytes that are read from the front: lines, words, decimal numbers, and pieces of a given length.
//!
//! Contract: what a call of `Scan` gives stood at the front of what was left, and just that is passed over; `None` comes
//! exactly where nothing of the kind stands there, and leaves the scan as it was.
//! Cost: a call looks at the bytes that it passes over, and takes no memory.
//! Used by: `pj_text`, `pj_wire`, `pj_words`, `bench_apply`, `bench_repo`, and all programs of cases and rows but
//! `session_cases`.

#![tactic(auto)]

mod numeral;
mod scan;

pub use scan::Scan;

#[cfg(test)]
mod tests;
