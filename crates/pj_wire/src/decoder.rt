//! Requests out of bytes that come in pieces.
ghost use Rattle.std.specs.Prelude.{◌≡◌, ◌++◌, OnOk, OnErr};

use crate::buffer::Buffer;
use crate::requests::{line, put};
use crate::stage::{START, Stage};
use pj_change::{Bytes, Memory};
use pj_machine::Command;
use std::alloc::Global;
use std::marker::Model;

/// How many bytes the longest line of a request has, with its newline: `unrecord`, the name of a channel and that of a change.
const LONGEST_LINE: usize = 139;

/// Takes bytes in pieces, and gives the requests that are whole. Contracts see the bytes that are left over.
#[derive(Drop)]
pub struct Decoder {
    buffer: Buffer,
    /// How many of the bytes left over were looked at, and found to be less than a request. None of them is looked at again
    /// before all of it is there.
    seen: usize,
    /// How far the request was read with them.
    stage: Stage,
}

impl Model for Decoder {
    ghost use Rattle.std.specs.Prelude.{ℕ, List};
    ghost use Rattle.pj_wire.specs.Stages.{IsSeen};

    ghost Value = { List ℕ };

    ghost view = { λ d. d.buffer };

    ghost invariant = { λ d. IsSeen d.buffer d.seen d.stage };
}

/// What stands at the front of the bytes that are left over.
#[derive(Drop)]
pub enum Next {
    /// This request, which is left over no more.
    Message(Command),
    /// Less than a request.
    More,
    /// No request, however the bytes go on.
    Bad,
}

impl Decoder {
    ghost use Rattle.std.specs.Prelude.{[], ◌-◌, ◌≤◌, length, drop, IsTrue, ◌↔◌, IfOk};
    ghost use Rattle.pj_wire.specs.Requests.{IsPart};
    ghost use Rattle.pj_wire.specs.Takes.{Takes};

    /// Without any bytes. It takes no memory.
    pub fn new(alloc: Global) -> Decoder
        ensures { result ≡ [] }
    {
        Decoder {
            buffer: Buffer::new(alloc),
            seen: 0,
            stage: START,
        }
    }

    /// Takes the next piece.
    ///
    /// # Errors
    /// `Memory`. Nothing is taken.
    pub fn feed(&mut self, piece: &[u8]) -> Result<(), Memory>
        ensures ok { OnOk result (self.new ≡ self.old ++ piece.now) }
        ensures err { OnErr result (self.new ≡ self.old) }
    {
        self.buffer.feed(piece)
    }

    /// The next request. After `Bad` it is `Bad` again, whatever is fed.
    ///
    /// # Errors
    /// `Memory`. Nothing is given.
    pub fn next(&mut self, alloc: Global) -> Result<Next, Memory>
        ensures taken { IfOk result (Takes self.old self.new) }
        ensures err { OnErr result (self.new ≡ self.old) }
    {
        if self.is_cut() {
            return Ok(Next::More);
        }
        match line(self.buffer.left()) {
            Some((command, rest)) => {
                let count = rest.len();
                self.give(count);
                return Ok(Next::Message(command));
            }
            None => {}
        }
        if self.is_less() {
            return Ok(Next::More);
        }
        match put(self.buffer.left()) {
            Some((text, rest)) => {
                let text = Vec::from_slice(alloc, text)?;
                let count = rest.len();
                self.give(count);
                Ok(Next::Message(Command::Put(Bytes::of(text))))
            }
            None => Ok(Next::Bad),
        }
    }

    /// Whether the bytes are less than a request, where their line may be cut. Where none were looked at and no line is longer, it
    /// is not, and is read at once.
    fn is_cut(&mut self) -> bool
        ensures stays { self.new ≡ self.old }
        ensures part { IsTrue result → IsPart self.old }
    {
        if self.seen == 0 && self.buffer.left().len() >= LONGEST_LINE {
            false
        } else {
            self.is_less()
        }
    }

    /// Whether the bytes are less than a request. Only those that were not looked at yet are.
    fn is_less(&mut self) -> bool
        ensures stays { self.new ≡ self.old }
        ensures part { IsTrue result ↔ IsPart self.old }
    {
        let left = self.buffer.left();
        let (_, fresh) = left.split_at(self.seen);
        match self.stage.read(fresh) {
            Some(stage) => {
                self.seen = left.len();
                self.stage = stage;
                true
            }
            None => false,
        }
    }

    /// Lets go of the bytes of a request, so that this many are left over.
    fn give(&mut self, count: usize)
        requires { count ≤ length self.old }
        ensures { self.new ≡ drop (length self.old - count) self.old }
    {
        self.buffer.keep_last(count);
        self.seen = 0;
        self.stage = START;
    }

    /// Whether nothing is left over.
    pub fn idle(&self) -> bool
        ensures { IsTrue result ↔ (self.now ≡ []) }
    {
        self.buffer.left().is_empty()
    }
}
