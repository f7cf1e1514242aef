//! The requests of a case.
ghost use Rattle.pj_wire.specs.Requests.{IsRequest};

use itoa::Buffer;
use pj_change::Memory;
use pj_machine::Command;
use pj_name::name_of;
use pj_wire::{Decoder, Next, write_request};
use std::alloc::Global;

/// How the bytes of a case end.
#[derive(Clone, Copy, PartialEq, Eq)]
pub enum End {
    /// With the request to quit.
    Quit,
    /// Behind a request.
    Idle,
    /// Within a request.
    More,
    /// Where no request could come any more.
    Bad,
}

/// What was read of a case.
#[derive(Drop)]
pub struct Reading {
    /// A line for each request.
    lines: Vec<u8>,
    end: End,
    /// How many bytes were fed before the end was known.
    fed: usize,
}

impl Reading {
    /// Whether both have the same requests and the same end.
    pub fn agrees_with(&self, other: &Reading) -> bool {
        self.lines == other.lines && self.end == other.end
    }

    /// Writes the lines, and how the bytes end.
    pub fn write(&self, out: &mut Vec<u8>) -> Result<(), Memory> {
        out.extend_from_slice(&self.lines)?;
        match self.end {
            End::Quit => {}
            End::Idle => out.extend_from_slice(b"idle\n")?,
            End::More => out.extend_from_slice(b"more\n")?,
            End::Bad => {
                let mut buffer = Buffer::new();
                out.extend_from_slice(b"bad ")?;
                out.extend_from_slice(buffer.format(self.fed).as_bytes())?;
                out.extend_from_slice(b"\n")?;
            }
        }
        Ok(())
    }
}

/// Writes the line of a request.
fn put_line(alloc: Global, lines: &mut Vec<u8>, command: &Command) -> Result<(), Memory>
    requires { IsRequest command.now }
{
    if let Command::Put(text) = command {
        let mut buffer = Buffer::new();
        lines.extend_from_slice(b"put ")?;
        lines.extend_from_slice(buffer.format(text.items().len()).as_bytes())?;
        lines.extend_from_slice(b" ")?;
        lines.extend_from_slice(&name_of(text.items()).hex())?;
        lines.extend_from_slice(b"\n")?;
        return Ok(());
    }
    lines.extend_from_slice(&write_request(alloc, command)?)?;
    Ok(())
}

/// Takes the requests that are whole, and says how they end.
fn take(
    alloc: Global,
    decoder: &mut Decoder,
    most: usize,
    lines: &mut Vec<u8>,
) -> Result<End, Memory> {
    for _ in 0..most {
        match decoder.next(alloc)? {
            Next::Message(command) => {
                put_line(alloc, lines, &command)?;
                if let Command::Quit = command {
                    return Ok(End::Quit);
                }
            }
            Next::More => break,
            Next::Bad => return Ok(End::Bad),
        }
    }
    Ok(if decoder.idle() { End::Idle } else { End::More })
}

/// Reads a case in pieces of this size, or of one byte where it is 0.
pub fn read(alloc: Global, case: &[u8], size: usize) -> Result<Reading, Memory> {
    let mut decoder = Decoder::new(alloc);
    let mut lines = Vec::new(alloc);
    let mut end = End::Idle;
    let mut fed: usize = 0;
    for piece in case.chunks(size.max(1)) {
        decoder.feed(piece)?;
        fed = fed.saturating_add(piece.len());
        end = take(alloc, &mut decoder, case.len(), &mut lines)?;
        if end == End::Quit || end == End::Bad {
            break;
        }
    }
    Ok(Reading { lines, end, fed })
}
