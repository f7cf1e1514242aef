//! Replies out of bytes that come in pieces.
ghost use Rattle.std.specs.Prelude.{◌≡◌, ℕ, ◌<◌, ◌^◌, List, ◌++◌, OnOk, OnErr};
ghost use Rattle.pj_replies.specs.Bodies.{most_of};

use crate::due::Due;
use crate::found::Found;
use crate::lines::{body_head, line};
use pj_change::{Bytes, MOST_TEXT_BYTES, Memory};
use pj_machine::{Numbered, Reply};
use std::alloc::Global;
use std::marker::Model;

/// What stands at the beginning of the bytes that are left over.
#[derive(Drop)]
pub enum Reading {
    /// This reply, which is left over no more.
    Whole(Numbered),
    /// Less than a reply.
    More,
    /// No reply, however the bytes go on; or the text of a change that is longer than any.
    Strange,
}

/// Takes bytes in pieces, and gives the replies that are whole. Contracts see the bytes that are left over.
#[derive(Drop)]
pub struct ReplyDecoder {
    bytes: Vec<u8>,
}

impl Model for ReplyDecoder {
    ghost use Rattle.std.specs.Prelude.{ℕ, List};

    ghost Value = { List ℕ };

    ghost view = { λ d. d.bytes.items };
}

/// How many bytes of a body there may be.
fn most_of_body(due: Due) -> Option<u64>
    ensures { result ≡ most_of due }
{
    match due {
        Due::Log => Some(u64::MAX),
        Due::Get => Some(MOST_TEXT_BYTES as u64),
        Due::Put(_) | Due::Apply => None,
    }
}

impl ReplyDecoder {
    ghost use Rattle.std.specs.Prelude.{[], ◌-◌, ◌≤◌, length, drop, IfOk};
    ghost use Rattle.pj_machine.specs.declared.command.Command.{Command as Request};
    ghost use Rattle.pj_replies.specs.Reads.{IsDue, Reads};
    ghost use Rattle.pj_replies.specs.Bodies.{ReadsBody};

    /// Without any bytes. It takes no memory.
    pub fn new(alloc: Global) -> ReplyDecoder
        ensures { result ≡ [] }
    {
        ReplyDecoder {
            bytes: Vec::new(alloc),
        }
    }

    /// Takes the next piece.
    ///
    /// # Errors
    /// `Memory`. Nothing is taken.
    pub fn feed(&mut self, piece: &[u8]) -> Result<(), Memory>
        ensures ok { OnOk result (self.new ≡ self.old ++ piece.now) }
        ensures err { OnErr result (self.new ≡ self.old) }
    {
        self.bytes.extend_from_slice(piece)?;
        Ok(())
    }

    /// The reply to a request, where it is due.
    ///
    /// # Errors
    /// `Memory`. Nothing is given.
    pub fn next(&mut self, alloc: Global, due: Due) -> Result<Reading, Memory>
        ensures read { IfOk result (λ reading. (x : Request) → IsDue x due → Reads x self.old self.new reading) }
        ensures err { OnErr result (self.new ≡ self.old) }
    {
        match line(self.left(), due) {
            Found::Whole(reply, count) => {
                self.pass(count);
                Ok(Reading::Whole(reply))
            }
            Found::Part => Ok(Reading::More),
            Found::Apart => match most_of_body(due) {
                Some(most) => self.body(alloc, most),
                None => Ok(Reading::Strange),
            },
        }
    }

    /// A reply with a body of at most so many bytes.
    fn body(&mut self, alloc: Global, most: u64) -> Result<Reading, Memory>
        ensures read { IfOk result (ReadsBody most self.old self.new) }
        ensures err { OnErr result (self.new ≡ self.old) }
    {
        let (head, at) = match body_head(self.left()) {
            Found::Whole(head, at) => (head, at),
            Found::Part => return Ok(Reading::More),
            Found::Apart => return Ok(Reading::Strange),
        };
        let (place, length) = head;
        if length > most {
            return Ok(Reading::Strange);
        }
        let (_, behind) = self.left().split_at(at);
        if behind.len() as u64 <= length {
            return Ok(Reading::More);
        }
        let length = length as usize;
        let last = behind[length];
        if last != b'\n' {
            return Ok(Reading::Strange);
        }
        let (body, _) = behind.split_at(length);
        let body = Bytes::of(Vec::from_slice(alloc, body)?);
        self.pass(at + length + 1);
        let reply = Reply::Body(body);
        Ok(Reading::Whole(Numbered::At { place, reply }))
    }

    /// The bytes left over.
    fn left(&self) -> &[u8]
        ensures { result.now ≡ self.now }
    {
        self.bytes.as_slice()
    }

    /// Lets go of so many bytes at the beginning.
    fn pass(&mut self, count: usize)
        requires { count ≤ length self.old }
        ensures { self.new ≡ drop count self.old }
    {
        self.bytes.drain(..count);
    }
}
