//! What is asked of the vertices of a file while it is marked.

ghost use Rattle.std.specs.Prelude.{◌≡◌, ◌++◌, ◌<◌, ℕ, OnOk, OnErr};
ghost use Rattle.pj_change.specs.MarkedText.{Piece};

use pj_reach::Memory;
use std::alloc::Global;

/// The live vertices of a file, by number: whether each is a zombie, and its bytes.
pub trait Texts {
    /// How many vertices there are.
    ghost size: { Self → ℕ };

    /// The vertex with this number.
    ghost piece: { Self → ℕ → Piece };

    /// Whether the vertex is a zombie.
    fn zombie(&self, at: u32) -> bool
        requires { at < size self.now }
        ensures { result ≡ (piece self.now at).zombie };

    /// Appends the bytes of the vertex.
    ///
    /// # Errors
    /// `Memory` where there was none. `out` is as it was.
    fn put(&self, alloc: Global, at: u32, out: &mut Vec<u8>) -> Result<(), Memory>
        requires { at < size self.now }
        ensures bytes { OnOk result (out.new.items ≡ out.old.items ++ (piece self.now at).bytes) }
        ensures unchanged { OnErr result (out.new.items ≡ out.old.items) };
}
