//! A string as it is appended.
ghost use Rattle.std.specs.Prelude.{◌≡◌, length, IfOk};
ghost use Rattle.pj_journal.specs.Format.{framed, IsStorable};

use pj_memory::Memory;
use std::alloc::Global;
use std::marker::Model;

/// A string with the bytes that stand round it in a log, so that to append it takes no memory. Contracts see the string.
#[derive(Drop)]
pub struct Frame {
    bytes: Vec<u8>,
}

impl Model for Frame {
    ghost use Rattle.std.specs.Prelude.{ℕ, List};
    ghost use Rattle.pj_journal.specs.Frame.{framed_string, IsFrame};

    ghost Value = { List ℕ };

    ghost view = { λ f. framed_string f.bytes.items };

    ghost invariant = { λ f. IsFrame f.bytes.items };
}

impl Frame {
    /// A frame of these bytes, of which there are 1 to 16,777,230.
    ///
    /// # Errors
    /// `Memory`, where none is left for it.
    pub fn of(alloc: Global, bytes: &[u8]) -> Result<Frame, Memory>
        requires { IsStorable bytes.now }
        ensures { IfOk result (λ frame. frame ≡ bytes.now) }
    {
        let mut framed = Vec::new(alloc);
        framed.extend_from_slice(&(bytes.len() as u64).to_be_bytes())?;
        framed.extend_from_slice(bytes)?;
        framed.push(0)?;
        Ok(Frame { bytes: framed })
    }

    /// The length, the string and a closed gate.
    pub(crate) fn bytes(&self) -> &[u8]
        ensures bytes { result.now ≡ framed self.now }
        ensures storable { IsStorable self.now }
    {
        &self.bytes
    }

    /// How many bytes the string has.
    pub(crate) fn string_len(&self) -> u64
        ensures { result ≡ length self.now }
    {
        (self.bytes.len() - 9) as u64
    }
}
