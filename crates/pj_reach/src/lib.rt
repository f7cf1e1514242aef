//! From the edges of a directed graph its strong classes and the strict order between them, and what it joins across
//! inner numbers.
//!
//! Contract: `close` gives the classes, which are cyclic, and the order, by reachability; `across` the pairs of numbers that
//! an edge or a path over inner numbers alone joins (`AreJoined`).
//! Cost: `close` takes a row of n / 64 words for each edge and n * n / 8 bytes for n classes; `across` a search for each
//! number, over the inner numbers that it reaches.
//! Used by: `bench_closure`, `bench_layout`, `pj_marks`, `pj_print`, `pj_plain`, `calls`.
#![tactic(auto)]

mod classes;
mod closure;
mod cycles;
mod joining;
mod links;
mod numbering;
mod order;
mod reached;
mod traversal;

pub use closure::close;
pub use joining::across;
pub use pj_bits::Memory;
pub use reached::Reached;
