//! Bytes that come in pieces and are taken from the front.
ghost use Rattle.std.specs.Prelude.{◌≡◌, ◌++◌, OnOk, OnErr};

use pj_change::Memory;
use std::alloc::Global;
use std::marker::Model;

/// Bytes. Contracts see those that were not taken.
#[derive(Drop)]
pub struct Buffer {
    bytes: Vec<u8>,
    /// How many of the bytes were taken.
    start: usize,
}

impl Model for Buffer {
    ghost use Rattle.std.specs.Prelude.{ℕ, ◌≤◌, List, length, drop};

    ghost Value = { List ℕ };

    ghost view = { λ d. drop d.start d.bytes.items };

    ghost invariant = { λ d. d.start ≤ length d.bytes.items };
}

impl Buffer {
    ghost use Rattle.std.specs.Prelude.{[], ℕ, ◌-◌, ◌≤◌, length, drop};

    /// Without any bytes. It takes no memory.
    pub fn new(alloc: Global) -> Buffer
        ensures { result ≡ [] }
    {
        Buffer {
            bytes: Vec::new(alloc),
            start: 0,
        }
    }

    /// Takes the next piece.
    ///
    /// # Errors
    /// `Memory`. Nothing is taken.
    pub fn feed(&mut self, piece: &[u8]) -> Result<(), Memory>
        ensures ok { OnOk result (self.new ≡ self.old ++ piece.now) }
        ensures err { OnErr result (self.new ≡ self.old) }
    {
        self.forget();
        self.bytes.extend_from_slice(piece)?;
        Ok(())
    }

    /// Lets go of the bytes that were taken, where they are at least as many as the others, which move to the front.
    fn forget(&mut self)
        ensures { self.new ≡ self.old }
    {
        if self.bytes.len() - self.start <= self.start {
            self.bytes.drain(..self.start);
            self.start = 0;
        }
    }

    /// The bytes that were not taken.
    pub fn left(&self) -> &[u8]
        ensures { result.now ≡ self.now }
    {
        let (_, left) = self.bytes.split_at(self.start);
        left
    }

    /// Takes bytes from the front, so that this many are left.
    pub fn keep_last(&mut self, count: usize)
        requires { count ≤ length self.old }
        ensures { self.new ≡ drop (length self.old - count) self.old }
    {
        self.start = self.bytes.len() - count;
    }
}
