//! From the layout of a file to its text with conflict markers.
//!
//! A marker starts with a line `>>>>>>> n` for layouts side by side, `>>>>>>> n cycle` for the vertices of a
//! cyclic class, `>>>>>>> n tangle` for the classes of a tangle, or `>>>>>>> n zombie` for a run of zombies,
//! where the markers of a file have the numbers 1, 2, .. as they start. A line `======= n` stands between
//! each two members, and a line `<<<<<<< n` ends the marker. Before such a line comes a newline where the bytes
//! so far end without one. An open run is closed before any other marker line, before a live vertex that is no
//! zombie, and at the end of the file.
//!
//! Contract: `mark` gives the marked text of a layout, for every layout, order and texts (`marked`).
//! Cost: time and memory linear in the text and in the number of vertices.
//! Used by: `pj_print`.
#![tactic(auto)]

mod classes;
pub mod laws;
mod layouts;
mod marker;
mod marking;
mod members;
mod texts;

pub use marking::mark;
pub use pj_reach::Memory;
pub use texts::Texts;
