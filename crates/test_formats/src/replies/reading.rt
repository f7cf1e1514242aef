//! The replies of a case.

use crate::replies::case::Case;
use itoa::Buffer;
use pj_change::Memory;
use pj_machine::{Numbered, Reply};
use pj_name::name_of;
use pj_replies::{Due, Reading as Next, ReplyDecoder};
use pj_wire::head;
use std::alloc::Global;

/// How the bytes of a case end.
#[derive(Clone, Copy, PartialEq, Eq)]
pub enum End {
    /// With the last reply that is due.
    Done,
    /// Within a reply, or before one.
    More,
    /// Where the reply that is due could not come any more.
    Strange,
}

/// What was read of a case.
#[derive(Drop)]
pub struct Reading {
    /// The lines of the replies.
    lines: Vec<u8>,
    end: End,
    /// How many bytes were fed before the end was known.
    fed: usize,
}

impl Reading {
    /// Whether both have the same replies and the same end.
    pub fn agrees_with(&self, other: &Reading) -> bool {
        self.lines == other.lines && self.end == other.end
    }

    /// Writes the lines, and how the bytes end.
    pub fn write(&self, out: &mut Vec<u8>) -> Result<(), Memory> {
        out.extend_from_slice(&self.lines)?;
        match self.end {
            End::Done => out.extend_from_slice(b"done\n")?,
            End::More => out.extend_from_slice(b"more\n")?,
            End::Strange => {
                let mut buffer = Buffer::new();
                out.extend_from_slice(b"strange ")?;
                out.extend_from_slice(buffer.format(self.fed).as_bytes())?;
                out.extend_from_slice(b"\n")?;
            }
        }
        Ok(())
    }
}

/// Writes the lines of a reply.
fn put_lines(lines: &mut Vec<u8>, numbered: &Numbered) -> Result<(), Memory> {
    let mut spelled = [0; 160];
    let count = head(numbered, &mut spelled);
    lines.extend_from_slice(&spelled[..count])?;
    if let Numbered::At { place: _, reply } = numbered {
        if let Reply::Body(body) = reply {
            lines.extend_from_slice(&name_of(body.items()).hex())?;
            lines.extend_from_slice(b"\n")?;
        }
    }
    Ok(())
}

/// Takes the replies that are whole, counts them, and says how they end.
fn take(
    alloc: Global,
    decoder: &mut ReplyDecoder,
    due: &[Due],
    got: &mut usize,
    lines: &mut Vec<u8>,
) -> Result<End, Memory> {
    for next in due.iter().skip(*got) {
        match decoder.next(alloc, *next)? {
            Next::Whole(reply) => put_lines(lines, &reply)?,
            Next::More => return Ok(End::More),
            Next::Strange => return Ok(End::Strange),
        }
        *got = got.saturating_add(1);
    }
    Ok(End::Done)
}

/// Reads a case in pieces of this size, or of one byte where it is 0.
pub fn read(alloc: Global, case: &Case<'_>, size: usize) -> Result<Reading, Memory> {
    let mut decoder = ReplyDecoder::new(alloc);
    let mut lines = Vec::new(alloc);
    let mut end = End::More;
    let mut got: usize = 0;
    let mut fed: usize = 0;
    for piece in case.bytes.chunks(size.max(1)) {
        decoder.feed(piece)?;
        fed = fed.saturating_add(piece.len());
        end = take(alloc, &mut decoder, &case.due, &mut got, &mut lines)?;
        if end != End::More {
            break;
        }
    }
    Ok(Reading { lines, end, fed })
}
