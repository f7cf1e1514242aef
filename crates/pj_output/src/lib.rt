//! The graph and the print of a lawful list of changes, read off its tables alone.
//!
//! Contract: [`graph`] gives the graph of the list of the tables, and [`print_in_threads`] and [`print_serially`] its print, or the first file in
//! the order of the print that has more live vertices than a limit; all as `pj_change` defines them. The one works out the texts of
//! files, and before that the live text of all of them, side by side, the other in one thread.
//! Cost: no call goes through the changes for each status. A graph takes some searches of maps for each vertex and each edge; it finds
//! what stands at a position in the hunks of its change alone, once for each vertex and each edge of a name. A print goes once over
//! all hunks, puts the blocks of text that they make in order, and takes some searches of maps for each vertex of text. The text of a
//! file takes a search of the rows of edges for each of its live vertices, one more for each row out of it that lies in another leaf
//! than the one before, two of the rows across dead text and one more for each point to which a row leads, a search of the live vertices for each point to which a row leads, and
//! what `pj_print` takes for them. In threads a file is the work of one of them; there is one for each processor, but no more than
//! one for each two thousand vertices that are printed.
//! Used by: `pj_channel`.
#![tactic(auto)]

mod blocks;
mod edges;
mod file_text;
mod graphs;
mod in_threads;
mod live_text;
mod pairs;
mod pieces;
mod print;
mod targets;
mod vertices;
mod walk;

pub use graphs::graph;
pub use pj_print::Memory;
pub use print::{print_in_threads, print_serially};
