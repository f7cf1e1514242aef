//! What an office in memory shows at the end of a call.
use crate::written::{name_of, put_journal, put_number};
use pj_change::Memory;
use pj_io::{Door, MemDoor, MemOffice, MemSink, MemSource, Office};
use pj_serve::{Ended, Finish, Kept};

/// What a call over it hands back.
pub type Finished = Finish<MemSource, MemSink, MemDoor>;

/// Writes the status.
pub fn put_status(out: &mut Vec<u8>, status: u8) -> Result<(), Memory> {
    put_number(out, b"status ", u64::from(status), b"\n")
}

/// Writes how each session ended.
pub fn put_ends(out: &mut Vec<u8>, ends: &[Ended]) -> Result<(), Memory> {
    for ended in ends {
        put_number(out, b"pass ", u64::from(ended.pass), b" ended ")?;
        out.extend_from_slice(name_of(ended.end))?;
        out.push(b'\n')?;
    }
    Ok(())
}

/// Writes what is left of a source.
fn put_source(out: &mut Vec<u8>, source: &MemSource) -> Result<(), Memory> {
    put_number(out, b"left ", source.left().len() as u64, b"\n")
}

/// Writes the label of a sink and what was written to it.
fn put_sink(out: &mut Vec<u8>, sink: &MemSink) -> Result<(), Memory> {
    put_number(out, b"wrote ", sink.written().len() as u64, b" to '")?;
    out.extend_from_slice(sink.label().as_bytes())?;
    out.extend_from_slice(b"'\n")?;
    out.extend_from_slice(sink.written())?;
    out.push(b'\n')?;
    Ok(())
}

/// Writes what each session used.
fn put_kept(out: &mut Vec<u8>, kept: &[Kept<MemSource, MemSink>]) -> Result<(), Memory> {
    for one in kept {
        put_number(out, b"pass ", u64::from(one.pass), b" kept\n")?;
        put_source(out, &one.source)?;
        put_sink(out, &one.sink)?;
    }
    Ok(())
}

/// Writes how many sessions a door has still to give, and how often it failed.
fn put_door(out: &mut Vec<u8>, door: &MemDoor) -> Result<(), Memory> {
    put_number(out, b"door left ", u64::from(door.left()), b"")?;
    put_number(out, b" failed ", door.faults(), b"\n")
}

/// Writes all that the call handed back.
pub fn put_finish(out: &mut Vec<u8>, finish: &Finished) -> Result<(), Memory> {
    put_status(out, finish.status)?;
    put_ends(out, finish.ends.items())?;
    put_journal(out, finish.journal.items())?;
    put_kept(out, &finish.kept)?;
    if let Some(source) = &finish.input {
        out.extend_from_slice(b"the input\n")?;
        put_source(out, source)?;
    }
    if let Some(sink) = &finish.out {
        out.extend_from_slice(b"the output\n")?;
        put_sink(out, sink)?;
    }
    for door in &finish.doors {
        put_door(out, door)?;
    }
    Ok(())
}

/// Writes how many openings failed.
pub fn put_faults(out: &mut Vec<u8>, office: &MemOffice) -> Result<(), Memory> {
    put_number(
        out,
        b"openings that failed: ",
        office.read_faults(),
        b" to read, ",
    )?;
    put_number(out, b"", office.write_faults(), b" to write\n\n")
}
