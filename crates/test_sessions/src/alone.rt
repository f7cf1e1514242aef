//! Sessions over sources and sinks in memory, with who answers without entering anything: for each case its name, how the session
//! ended, how many bytes it left, and what it wrote; then the first lines of three replies.

mod opening;

use crate::written::{name_of, put_head, put_number};
use opening::{Calls, Empty};
use pj_change::{Bytes, Memory};
use pj_io::{MemSink, MemSource};
use pj_machine::{Limits, Numbered, Reply};
use pj_session::{Direct, End, session, session_by};
use std::alloc::Global;
use std::sync::Wait;
use std::thread::Threads;

/// How the source and the sink of a case behave, and how many bytes the session may take.
#[derive(Clone, Copy)]
struct Ways {
    /// How many bytes a call of the source gives at most; 0 is no bound.
    piece: usize,
    /// The call of the source that fails; 0 is none.
    read_fails: u64,
    /// The call of the sink, which takes two bytes at most, that fails; 0 is none.
    write_fails: u64,
    limit: u64,
}

impl Ways {
    /// Nothing fails, and a call of the source gives all that is asked for.
    fn limited(limit: u64) -> Ways {
        Ways {
            piece: 0,
            read_fails: 0,
            write_fails: 0,
            limit,
        }
    }
}

/// The one number, where it is not 0.
fn chosen(alloc: Global, number: u64) -> Result<Vec<u64>, Memory> {
    let mut numbers = Vec::new(alloc);
    if number > 0 {
        numbers.push(number)?;
    }
    Ok(numbers)
}

/// The source of a case.
fn source_of(alloc: Global, input: &[u8], ways: Ways) -> Result<MemSource, Memory> {
    let mut pieces = Vec::new(alloc);
    if ways.piece > 0 {
        pieces.push(ways.piece)?;
    }
    let failing = chosen(alloc, ways.read_fails)?;
    let bytes = Vec::from_slice(alloc, input)?;
    Ok(MemSource::new(bytes, pieces, failing))
}

/// The sink of a case.
fn sink_of(alloc: Global, ways: Ways) -> Result<MemSink, Memory> {
    let failing = chosen(alloc, ways.write_fails)?;
    Ok(MemSink::new(String::new(alloc), 2, failing))
}

/// Runs a session of the first pass.
fn talk<R: Threads + Wait + Sync>(
    rt: &R,
    alloc: Global,
    source: &mut MemSource,
    sink: &mut MemSink,
    limit: u64,
) -> End {
    let replier = Empty {
        limits: Limits::FULL,
    };
    let mut pass = Calls(0);
    session(rt, alloc, &replier, &mut pass, source, sink, limit)
}

/// The same by the step that does no more than ask the replier.
fn talk_by_step<R: Threads + Wait + Sync>(
    rt: &R,
    alloc: Global,
    source: &mut MemSource,
    sink: &mut MemSink,
    limit: u64,
) -> End {
    let replier = Empty {
        limits: Limits::FULL,
    };
    let mut pass = Calls(0);
    let mut step = Direct;
    session_by(
        rt, alloc, &mut step, &replier, &mut pass, source, sink, limit,
    )
}

/// Writes how a session ended, and how many bytes it left.
fn put_end(out: &mut Vec<u8>, name: &[u8], end: End, left: usize) -> Result<(), Memory> {
    out.extend_from_slice(name)?;
    out.extend_from_slice(b": ")?;
    out.extend_from_slice(name_of(end))?;
    put_number(out, b", ", left as u64, b" left\n")
}

/// Writes what a session wrote.
fn put_written(out: &mut Vec<u8>, written: &[u8]) -> Result<(), Memory> {
    out.extend_from_slice(written)?;
    out.extend_from_slice(b"\n")?;
    Ok(())
}

fn case<R: Threads + Wait + Sync>(
    rt: &R,
    alloc: Global,
    out: &mut Vec<u8>,
    name: &[u8],
    input: &[u8],
    ways: Ways,
) -> Result<(), Memory> {
    let mut source = source_of(alloc, input, ways)?;
    let mut sink = sink_of(alloc, ways)?;
    let end = talk(rt, alloc, &mut source, &mut sink, ways.limit);
    put_end(out, name, end, source.left().len())?;
    put_written(out, sink.written())
}

fn case_by_step<R: Threads + Wait + Sync>(
    rt: &R,
    alloc: Global,
    out: &mut Vec<u8>,
    name: &[u8],
    input: &[u8],
    ways: Ways,
) -> Result<(), Memory> {
    let mut source = source_of(alloc, input, ways)?;
    let mut sink = sink_of(alloc, ways)?;
    let end = talk_by_step(rt, alloc, &mut source, &mut sink, ways.limit);
    put_end(out, name, end, source.left().len())?;
    put_written(out, sink.written())
}

/// The first lines of three replies.
fn heads(alloc: Global, out: &mut Vec<u8>) -> Result<(), Memory> {
    let done = Numbered::At {
        place: 7,
        reply: Reply::Done,
    };
    put_head(out, &done)?;
    let body = Numbered::At {
        place: 12,
        reply: Reply::Body(Bytes::of(Vec::from_slice(alloc, b"12345")?)),
    };
    put_head(out, &body)?;
    put_head(out, &Numbered::NoMemory)
}

/// So many times `journal`.
fn journals(alloc: Global, count: u32) -> Result<Vec<u8>, Memory> {
    let mut bytes = Vec::new(alloc);
    for _ in 0..count {
        bytes.extend_from_slice(b"journal\n")?;
    }
    Ok(bytes)
}

fn ends<R: Threads + Wait + Sync>(rt: &R, alloc: Global, out: &mut Vec<u8>) -> Result<(), Memory> {
    case(
        rt,
        alloc,
        out,
        b"the end of the input",
        b"journal\nchannels\n",
        Ways::limited(1_000),
    )?;
    let quit = b"journal\nquit\njournal\n";
    case(
        rt,
        alloc,
        out,
        b"quit in the middle of a piece",
        quit,
        Ways::limited(1_000),
    )?;
    let bytewise = Ways {
        piece: 1,
        read_fails: 0,
        write_fails: 0,
        limit: 1_000,
    };
    case(
        rt,
        alloc,
        out,
        b"quit in pieces of one byte",
        quit,
        bytewise,
    )?;
    case(
        rt,
        alloc,
        out,
        b"no request",
        b"journal\njournalist\njournal\n",
        Ways::limited(1_000),
    )?;
    case(
        rt,
        alloc,
        out,
        b"less than a request",
        b"journal\njourn",
        Ways::limited(1_000),
    )?;
    case(rt, alloc, out, b"nothing", b"", Ways::limited(1_000))
}

fn faults<R: Threads + Wait + Sync>(
    rt: &R,
    alloc: Global,
    out: &mut Vec<u8>,
) -> Result<(), Memory> {
    let ten = journals(alloc, 10)?;
    let read_fails = Ways {
        piece: 1,
        read_fails: 12,
        write_fails: 0,
        limit: 1_000,
    };
    case(
        rt,
        alloc,
        out,
        b"a source that fails at its 12th call",
        &ten,
        read_fails,
    )?;
    let write_fails = Ways {
        piece: 0,
        read_fails: 0,
        write_fails: 37,
        limit: 1_000,
    };
    case(
        rt,
        alloc,
        out,
        b"a sink that fails at its 37th call",
        &ten,
        write_fails,
    )
}

fn limits<R: Threads + Wait + Sync>(
    rt: &R,
    alloc: Global,
    out: &mut Vec<u8>,
) -> Result<(), Memory> {
    let input = b"journal\nquit\njournal\n";
    case(
        rt,
        alloc,
        out,
        b"a limit within a request",
        input,
        Ways::limited(7),
    )?;
    case(
        rt,
        alloc,
        out,
        b"a limit after a request",
        input,
        Ways::limited(8),
    )?;
    case(
        rt,
        alloc,
        out,
        b"a limit within quit",
        input,
        Ways::limited(12),
    )?;
    case(rt, alloc, out, b"a limit at quit", input, Ways::limited(13))?;
    case_by_step(
        rt,
        alloc,
        out,
        b"the same by a step",
        input,
        Ways::limited(13),
    )?;
    let long = journals(alloc, 513)?;
    case(
        rt,
        alloc,
        out,
        b"a limit of 4096",
        &long,
        Ways::limited(4_096),
    )
}

/// What is written of all cases.
pub fn play_all<R: Threads + Wait + Sync>(rt: &R, alloc: Global) -> Result<Vec<u8>, Memory> {
    let mut out = Vec::new(alloc);
    ends(rt, alloc, &mut out)?;
    faults(rt, alloc, &mut out)?;
    limits(rt, alloc, &mut out)?;
    heads(alloc, &mut out)?;
    Ok(out)
}
