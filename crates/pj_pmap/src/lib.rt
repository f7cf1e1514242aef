//! A sorted map whose changed copy shares what did not change.
//!
//! Contract: a `PMap` is a list of pairs sorted by key; each call is the list's own, ticks once where it changes something, and
//! leaves each other map as it was. A `Cursor` answers `next_after` as its map does.
//! Cost: a look-up takes six binary searches and no memory. `with` and `into_with` take as many, `without` and `into_without` twice
//! as many. `with` and `without` copy a leaf of at most 64 pairs and its four branches; `into_with` and `into_without`, which take the
//! old map, copy of these only what another map shares; `share` raises one count. Where the next pair stands behind the last one in
//! its leaf, a cursor takes two comparisons to the one right behind it and a binary search to one further on; else it takes a look-up.
//! Used by: `pj_rows`, `pj_cuts`, `pj_edges`, `pj_outline`, `pj_tree`, `pj_names`, `pj_plain`, `pj_apply`, `pj_deps`, `pj_ranges`,
//! `pj_dead`, `pj_contest`, `pj_states`, `pj_view`, `pj_tables`, `pj_unrecord`, `pj_output`, `pj_channel`, `pj_state`, `bench_map`,
//! `contest_cases`, `bench_apply`, `table_cases`, `bench_tables`, `table_rows`, `calls`.
#![tactic(auto)]

mod bough;
mod branch;
mod child;
mod cursor;
mod leaf;
mod map;
mod node;
mod place;
mod run;
mod share;
mod steps;
mod trunk;

pub use cursor::Cursor;
pub use map::PMap;
pub use pj_memory::Memory;
pub use share::Share;
pub use steps::Steps;
