//! The texts of live vertices.

ghost use Rattle.std.specs.Prelude.{◌≡◌};
ghost use Rattle.pj_print.specs.Pieces.{bytes_in};
ghost use Rattle.pj_change.specs.Shared.{records};

use crate::records::find;
use pj_change::{Record, Status, Vertex};
use pj_print::{Memory, Texts, bytes_of};
use std::alloc::Global;
use std::sync::Arc;

/// The bytes of a vertex of the set.
fn bytes_of_set<'a>(changes: &'a [Arc<Record>], v: &Vertex) -> &'a [u8]
    ensures { result.now ≡ bytes_in (records changes.now) v.now }
{
    match find(changes, v.change) {
        Some(owner) => bytes_of(&owner.change, v),
        None => &[],
    }
}

/// Live vertices of a set of changes, by number.
#[derive(Drop)]
pub struct Pieces<'a> {
    pub changes: &'a [Arc<Record>],
    pub live: &'a [Vertex],
}

impl<'a> Texts for Pieces<'a> {
    ghost use Rattle.std.specs.Prelude.{length};
    ghost use Rattle.pj_print.specs.Pieces.{piece_at};
    ghost use Rattle.pj_change.specs.Shared.{records};

    ghost size = { λ t. length t.live.now };

    ghost piece = { λ t at. piece_at (records t.changes.now) t.live.now at };

    fn zombie(&self, at: u32) -> bool {
        self.live[at as usize].status == Status::Zombie
    }

    fn put(&self, alloc: Global, at: u32, out: &mut Vec<u8>) -> Result<(), Memory> {
        out.extend_from_slice(bytes_of_set(self.changes, &self.live[at as usize]))?;
        Ok(())
    }
}
