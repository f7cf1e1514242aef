//! Changes, and the graphs and prints of sets of changes: their types, and the definitions of what they mean.
//!
//! Contract: `Change::of` makes a change exactly where its parts keep the rules of a text; `place`, `kind_at`, `resolve` and
//! `knows` are the definitions' own; `laws` has what holds of every lawful set.
//! Cost: `place` and `kind_at` go through the hunks of one change, `knows` through its needs and knows; none takes memory.
//! Used by: all that stands above it but `bench_layout`, `bench_repo` and `pijuld`.

#![tactic(auto)]

mod change;
pub mod channel_laws;
mod disjoint;
mod graph;
mod hunk;
mod kind;
pub mod laws;
mod length;
mod limits;
mod lists;
mod operation;
mod peers;
mod point;
mod positions;
mod print;
mod references;
mod refusals;
mod row;
mod rules;
pub mod set_laws;
mod version;

pub use change::{Change, Record};
pub use graph::{Edge, Edges, Graph, Label, Status, Vertex, VertexKind, Vertices};
pub use hunk::Hunk;
pub use kind::{Deleted, Kind};
pub use limits::{
    DEEPEST_LAYOUT, MOST_BYTES_OF_VERSION_1, MOST_HUNKS, MOST_KNOWN_NAMES, MOST_LINE_BYTES,
    MOST_LIST_MEMBERS, MOST_NAME_BYTES, MOST_NEEDS, MOST_TEXT_BYTES,
};
pub use lists::{Bytes, Hunks, Names, Owners, Refs};
pub use operation::Operation;
pub use peers::Peers;
pub use pj_memory::Memory;
pub use point::{Place, Point, Ref};
pub use positions::{kind_at, made_at, place};
pub use print::{Step, StepKind, StepWord, Walk};
pub use references::{knows, numbered, resolve};
pub use refusals::{Applied, ApplyRefusal, PrintRefusal, UnrecordRefusal, UprootRefusal};
pub use row::EdgeRow;
pub use version::Version;
