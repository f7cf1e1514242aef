//! The text of a file from what joins its live text.

ghost use Rattle.std.specs.Prelude.{◌≤◌, ◌<◌, ◌^◌, length, IfOk};
ghost use Rattle.pj_change.specs.declared.graph.Vertex.{Vertex as AVertex};
ghost use Rattle.pj_print.specs.JoinedPairs.{ArePairsOf, IsTextOfJoined};

use crate::files::file_text;
use pj_change::Vertex;
use pj_marks::{Memory, Texts};
use std::alloc::Global;
use std::marker::Brand;

/// What joins live text to live text: an edge or a path across dead text, or an edge or a pseudo row.
pub trait Joining {
    ghost joins: { AVertex → AVertex → Type 0 };
}

/// Nothing, where the proof of a call names no other relation.
impl Joining for Brand {
    ghost joins = { λ u v. ⊥ };
}

/// The text of a file with this live text, which stands by first point, where these pairs of numbers are
/// joined.
///
/// # Errors
/// `Memory` where there was none.
pub fn joined_text<J: Joining, T: Texts>(
    alloc: Global,
    live: &[Vertex],
    pairs: &[(u32, u32)],
    texts: &T,
) -> Result<Vec<u8>, Memory>
    requires small { length live.now < 2 ^ 32 }
    requires pairs { ArePairsOf J.joins live.now pairs.now }
    requires texts { length live.now ≤ T.size texts.now }
    ensures { IfOk result (λ text. IsTextOfJoined J.joins live.now (T.piece texts.now) text.items) }
{
    file_text(alloc, live.len() as u32, pairs, texts)
}
