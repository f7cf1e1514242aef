//! The replies, each with the place: how many requests changed something before it was answered.
//!
//! `ok P`, `ok P HEX`, `ok P already`, `ok P already HEX`; `ok P n`, a newline, n bytes; and `no P REASON`. Each ends with a
//! newline.

use pj_change::Point;
use pj_name::Name;
use std::alloc::{AllocError, Global};

/// Why a request is refused.
#[derive(Clone, Copy)]
pub enum Reason {
    /// There is no such channel.
    Channel,
    /// There is such a channel already.
    Taken,
    /// No change has this name.
    Change,
    Malformed,
    Needs(Name),
    Context(u32),
    /// This hunk is the first without an inverse.
    Inverse(u32),
    Absent,
    Held(Name),
    Wide(Point),
    /// Two changes have one name and two texts.
    Clash,
}

/// What is answered.
#[derive(Clone, Copy)]
pub enum Reply<'a> {
    Done,
    Named(Name),
    Already,
    AlreadyNamed(Name),
    Body(&'a [u8]),
    No(Reason),
}

/// Writes the line of a row.
pub fn title(out: &mut Vec<u8>, title: &[u8]) -> Result<(), AllocError> {
    out.extend_from_slice(b"row ")?;
    out.extend_from_slice(title)?;
    out.push(b'\n')?;
    Ok(())
}

/// Writes a reply at this place.
pub fn put(alloc: Global, out: &mut Vec<u8>, place: usize, reply: Reply) -> Result<(), AllocError> {
    let word = if let Reply::No(_) = reply { "no" } else { "ok" };
    out.extend_from_slice(format!(in alloc; "{word} {place}")?.as_bytes())?;
    match reply {
        Reply::Done => {}
        Reply::Named(name) => put_name(out, name)?,
        Reply::Already => out.extend_from_slice(b" already")?,
        Reply::AlreadyNamed(name) => {
            out.extend_from_slice(b" already")?;
            put_name(out, name)?;
        }
        Reply::Body(bytes) => put_body(alloc, out, bytes)?,
        Reply::No(reason) => put_reason(alloc, out, reason)?,
    }
    out.push(b'\n')?;
    Ok(())
}

fn put_body(alloc: Global, out: &mut Vec<u8>, bytes: &[u8]) -> Result<(), AllocError> {
    let length = format!(in alloc; " {}\n", bytes.len())?;
    out.extend_from_slice(length.as_bytes())?;
    out.extend_from_slice(bytes)
}

fn put_reason(alloc: Global, out: &mut Vec<u8>, reason: Reason) -> Result<(), AllocError> {
    out.push(b' ')?;
    out.extend_from_slice(word_of(reason))?;
    match reason {
        Reason::Needs(name) | Reason::Held(name) => put_name(out, name),
        Reason::Context(hunk) | Reason::Inverse(hunk) => put_number(alloc, out, " ", hunk),
        Reason::Wide(inode) => {
            put_name(out, inode.change)?;
            put_number(alloc, out, ".", inode.offset)
        }
        _ => Ok(()),
    }
}

fn word_of(reason: Reason) -> &'static [u8] {
    match reason {
        Reason::Channel => b"channel",
        Reason::Taken => b"taken",
        Reason::Change => b"change",
        Reason::Malformed => b"malformed",
        Reason::Needs(_) => b"needs",
        Reason::Context(_) => b"context",
        Reason::Inverse(_) => b"inverse",
        Reason::Absent => b"absent",
        Reason::Held(_) => b"held",
        Reason::Wide(_) => b"wide",
        Reason::Clash => b"clash",
    }
}

fn put_name(out: &mut Vec<u8>, name: Name) -> Result<(), AllocError> {
    out.push(b' ')?;
    out.extend_from_slice(&name.hex())
}

fn put_number(
    alloc: Global,
    out: &mut Vec<u8>,
    before: &str,
    number: u32,
) -> Result<(), AllocError> {
    out.extend_from_slice(format!(in alloc; "{before}{number}")?.as_bytes())
}
