//! The changes of a channel, kept by name as a list that is shared in constant time.
//!
//! Contract: a `Held` is a list of changes with distinct names; each call is the list's own. A list that changes is given up: whoever
//! keeps it shares it before.
//! Cost: a look-up is one or two look-ups of a map and takes no memory; `share` raises one count; `with` takes at most two steps
//! and `without` at most three, whatever the length of the list. A step is one change of a map, by which a row comes, goes or is
//! replaced; look-ups are not counted. `change_bound`, 64 (m + c + 1) for a change of size m with c contests, bounds the steps that a
//! change takes in all tables of a list: neither look-ups nor the walk that makes the rows across dead text are among them.
//! Used by: `pj_view`, `contest_cases`, `pj_tables`, `pj_unrecord`, `pj_output`, `pj_channel`.
#![tactic(auto)]

mod held;
mod link;
mod peers;

pub use held::Held;
pub use link::{HeldName, Link};
pub use peers::HeldPeers;
