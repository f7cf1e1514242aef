//! What tables do with maps whose keys carry the meaning.
//!
//! Contract: a map to [`Here`] is the set of its keys, and [`with_keys`], [`without_keys`] and [`keys_between`] say which keys it has
//! then; a map to [`Count`] counts its keys, with no count of 0, and [`raise_each`] and [`lower_each`] say every count after them,
//! [`raised`] and [`lowered`] after one key. A map that changes is given up: whoever keeps it shares it before.
//! Cost: one step of the map for each key that is handed in. `keys_between` takes at most a search for each leaf of the map in which it
//! finds keys, and one more; `count_at` takes no memory.
//! Used by: `pj_cuts`, `pj_edges`, `pj_outline`, `pj_deps`, `pj_ranges`, `pj_dead`, `pj_contest`, `pj_states`, `pj_view`,
//! `pj_tables`, `pj_output`.
#![tactic(auto)]

mod counts;
mod rows;
mod values;

pub use counts::{count_at, lower_each, lowered, raise_each, raised};
pub use pj_pmap::Memory;
pub use rows::{keys_between, with_keys, without_keys};
pub use values::{Count, Here};
