//! The tables of a lawful list of changes, and those of the list with one change more.
//!
//! Contract: a [`Tables`] is a lawful list; `list` lends its changes, and `outline`, `cuts`, `edges`, `versions`, `contests`, `deps`,
//! `names` and `pseudo` lend the tables of that list, each as its own crate defines it. `status`, `surviving` and `text_at` say of a point
//! what the list says, `view` shows its text to `pj_dead`, `vertex_of` and `vertices` give the vertices of the graph of the list at a
//! point and of a change, and `edge`, `next_out` and `next_into` its edges with their statuses. [`applied`] gives the tables of the
//! list with a change at its end. It gives up those of the list: whoever keeps them shares them before.
//! Cost: `share` raises seven counts. `applied` takes at most 64 steps for each hunk, reference, need and name under a `by` of the
//! change, for each pair of a contested hunk and a change that contests it that comes, and for the change itself. A step is one change
//! of a persistent map, by which a row comes, goes or is replaced: where it lies, as far as no other tables share it. Of tables that
//! others share, `applied` shares each part before it changes it. Look-ups are not counted, nor is the making of the rows across dead
//! text, which walks the dead sets that the change touches, as `pj_dead` and `pj_view` say; the list is not gone through. The calls
//! that lend take no memory. A look-up takes some searches; that of a vertex, or of an edge into or out of a name, goes once over the
//! hunks of a change beside.
//! Used by: `pj_unrecord`, `pj_output`, `pj_channel`, `table_rows`.
#![tactic(auto)]

mod application;
mod edges;
mod lookups;
mod parts;
mod tables;
mod vertices;

pub use application::applied;
pub use pj_change::Memory;
pub use tables::Tables;
