//! The parts of a print: the text of a file from its live vertices, and the bytes of an entry.
//!
//! Contract: `file_text` gives the text of a file from its live vertices, the edges whose paths order them, and the text of
//! each (`IsTextOfParts`); `joined_text` gives it from the pairs that any relation joins whose paths order them
//! (`IsTextOfJoined`); `bytes_of` gives the bytes of a vertex; `put_entry` appends the bytes of one entry (`entry_text`);
//! `list_vertices` puts vertices in order.
//! Cost: a file whose vertices have only one order, in which each two neighbours are joined by an edge, takes time linear in its
//! vertices, edges and bytes, which is the ordinary case; any other that of `close`, `lay` and `mark`. An entry takes time linear in
//! its bytes.
//! Used by: `pj_plain`, `pj_output`.
#![tactic(auto)]

mod entry;
mod files;
mod in_order;
mod joined;
mod listing;
mod only_order;
mod pieces;

pub use entry::put_entry;
pub use files::file_text;
pub use joined::{Joining, joined_text};
pub use listing::list_vertices;
pub use pieces::bytes_of;
pub use pj_marks::{Memory, Texts};
