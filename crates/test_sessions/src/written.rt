//! What is written of sessions, whatever they are played over.
use itoa::Buffer;
use pj_change::Memory;
use pj_machine::{Entry, Numbered, Reply, journal_line};
use pj_session::End;
use pj_wire::head;

/// How a session ended, in words.
pub fn name_of(end: End) -> &'static [u8] {
    match end {
        End::Done => b"done",
        End::ReadFault => b"read fault",
        End::WriteFault => b"write fault",
        End::Bad => b"bad",
        End::Cut => b"cut",
        End::Spent => b"spent",
        End::Memory => b"memory",
        End::StoreFault => b"store fault",
    }
}

/// Writes a number between two texts.
pub fn put_number(
    out: &mut Vec<u8>,
    before: &[u8],
    number: u64,
    after: &[u8],
) -> Result<(), Memory> {
    let mut buffer = Buffer::new();
    out.extend_from_slice(before)?;
    out.extend_from_slice(buffer.format(number).as_bytes())?;
    out.extend_from_slice(after)?;
    Ok(())
}

/// Writes the lines of the journal.
pub fn put_journal(out: &mut Vec<u8>, entries: &[Entry]) -> Result<(), Memory> {
    let mut line = [0; 256];
    for (index, entry) in entries.iter().enumerate() {
        let count = journal_line(index as u64 + 1, entry, &mut line);
        out.extend_from_slice(&line[..count])?;
    }
    Ok(())
}

/// Writes the first line of a reply.
pub fn put_head(out: &mut Vec<u8>, numbered: &Numbered) -> Result<(), Memory> {
    let mut line = [0; 160];
    let count = head(numbered, &mut line);
    out.extend_from_slice(&line[..count])?;
    Ok(())
}

/// Writes a reply.
pub fn put_reply(out: &mut Vec<u8>, numbered: &Numbered) -> Result<(), Memory> {
    put_head(out, numbered)?;
    if let Numbered::At {
        place: _,
        reply: Reply::Body(body),
    } = numbered
    {
        out.extend_from_slice(body.items())?;
        out.push(b'\n')?;
    }
    Ok(())
}
