//! A channel of a repository: a lawful list of changes with its tables, which are shared in constant time.
//!
//! Contract: a `Channel` is a lawful list of changes, and each call answers as the definitions of `pj_change` say, which are
//! those of a plain channel. No call changes a channel: each gives a new one, and the old one stays as it was. Only `into_applied`
//! takes the old one: it is given up, whatever the answer is, and whoever keeps it shares it before. `tables` lends the tables of the
//! list.
//! Cost: `share` raises one count. `apply`, `into_applied` and `unrecord` take at most 64 steps for each hunk, reference, need and
//! name under a `by` of the change, for each pair of a contested hunk and a change that contests it that comes or goes, and for the
//! change itself; `pull` takes so many for each change that it adds. A step is one change of a persistent map, by which a row comes,
//! goes or is replaced. `apply` and `unrecord` copy what they change of the maps; `into_applied`, and `pull` from the second change
//! on, copy of that only what another channel shares. Look-ups are not counted, nor is the making of the rows across dead text, which
//! walks the dead sets that a change touches, as `pj_dead` and `pj_view` say. `apply` and `into_applied` look up the name and the
//! needs of the change beside, `unrecord` one change that needs it, and `uproot` two such changes for each that it takes out; none
//! goes through the list. `pull` and `agrees_with` look up each change of the other list, and `log` goes through the list. A graph
//! and a print are read off the tables, as `pj_output` says.
//! Used by: `bench_apply`, `table_rows`, `pj_state`, `pj_repo`, `repo_cases`.
#![tactic(auto)]

mod channel;
mod listing;
mod lookups;
mod one_text;
mod runs;
pub mod threads;
mod union;
mod uproot;

pub use channel::Channel;
pub use one_text::have_one_text;
pub use runs::{Replayed, replay};
