//! The numbers for the sources and sinks of a door or an office in memory.
ghost use Rattle.std.specs.Prelude.{◌≡◌};

use std::alloc::AllocError;
use std::marker::Model;

/// How the sources and sinks that a door or an office in memory gives behave: what `MemSource::new`
/// and `MemSink::new` take. No piece is 0.
#[derive(Drop)]
pub struct Ways {
    /// How many bytes each call of a source gives at most; the last piece serves later calls.
    pub pieces: Vec<usize>,
    /// The calls of a source that fail, counted from 1.
    pub take_failing: Vec<u64>,
    /// How many bytes each call of a sink takes at most.
    pub piece: usize,
    /// The calls of a sink that fail, counted from 1.
    pub give_failing: Vec<u64>,
}

impl Model for Ways {
    ghost use Rattle.std.specs.Prelude.{◌<◌};
    ghost use Rattle.pj_io.specs.Pieces.{AllPositive};
    ghost use Rattle.pj_io.specs.Ways.{WaysInMemory};

    ghost Value = { WaysInMemory };

    ghost view = { λ w. record {
      pieces = w.pieces.items;
      take_failing = w.take_failing.items;
      piece = w.piece;
      give_failing = w.give_failing.items;
    } };

    ghost invariant = { λ w. AllPositive w.pieces.items × (0 < w.piece) };
}

impl Clone for Ways {
    ghost is_clone = { λ ways copy. copy ≡ ways };

    fn clone(&self) -> Result<Ways, AllocError> {
        let alloc = *self.pieces.allocator();
        Ok(Ways {
            pieces: self.pieces.to_vec(alloc)?,
            take_failing: self.take_failing.to_vec(alloc)?,
            piece: self.piece,
            give_failing: self.give_failing.to_vec(alloc)?,
        })
    }
}
