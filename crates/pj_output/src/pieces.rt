//! The texts of live vertices.

ghost use Rattle.std.specs.Prelude.{◌≡◌};
ghost use Rattle.pj_print.specs.Pieces.{bytes_in};

use pj_change::{Status, Vertex};
use pj_print::{Memory, Texts, bytes_of};
use pj_tables::Tables;
use std::alloc::Global;

/// The bytes of a vertex of the list.
fn bytes_of_list<'a>(tables: &'a Tables, v: &Vertex) -> &'a [u8]
    ensures { result.now ≡ bytes_in tables.now v.now }
{
    match tables.list().get(v.change) {
        Some(owner) => bytes_of(&owner.change, v),
        None => &[],
    }
}

/// Live vertices of a list of changes, by number.
#[derive(Drop)]
pub struct Pieces<'a> {
    pub tables: &'a Tables,
    pub live: &'a [Vertex],
}

impl<'a> Texts for Pieces<'a> {
    ghost use Rattle.std.specs.Prelude.{length};
    ghost use Rattle.pj_print.specs.Pieces.{piece_at};

    ghost size = { λ t. length t.live.now };

    ghost piece = { λ t at. piece_at t.tables.now t.live.now at };

    fn zombie(&self, at: u32) -> bool {
        self.live[at as usize].status == Status::Zombie
    }

    fn put(&self, alloc: Global, at: u32, out: &mut Vec<u8>) -> Result<(), Memory> {
        out.extend_from_slice(bytes_of_list(self.tables, &self.live[at as usize]))?;
        Ok(())
    }
}
