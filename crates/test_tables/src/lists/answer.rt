//! The answers, a line for each item.

use pj_change::{EdgeRow, Label, Place, Point, Status, Version};
use pj_name::Name;
use std::alloc::{AllocError, Global};

/// Writes a word on a line.
pub fn put_word(out: &mut Vec<u8>, word: &[u8]) -> Result<(), AllocError> {
    out.extend_from_slice(word)?;
    out.extend_from_slice(b"\n")
}

/// Writes the line of a row.
pub fn put_title(out: &mut Vec<u8>, title: &[u8]) -> Result<(), AllocError> {
    out.extend_from_slice(b"row ")?;
    put_word(out, title)
}

/// Writes the range of a vertex, or `none`.
pub fn put_range(
    alloc: Global,
    out: &mut Vec<u8>,
    range: Option<(u32, u32)>,
) -> Result<(), AllocError> {
    let Some((start, end)) = range else {
        return put_word(out, b"none");
    };
    out.extend_from_slice(format!(in alloc; "range {start} {end}\n")?.as_bytes())
}

/// Writes the name of a change, or `none`.
pub fn put_change(out: &mut Vec<u8>, change: Option<Name>) -> Result<(), AllocError> {
    let Some(change) = change else {
        return put_word(out, b"none");
    };
    out.extend_from_slice(b"change")?;
    put_name(out, change)?;
    out.extend_from_slice(b"\n")
}

/// Writes a point and how many cuts stand before it.
pub fn put_cut(alloc: Global, out: &mut Vec<u8>, at: Point, count: u128) -> Result<(), AllocError> {
    out.extend_from_slice(b"cut")?;
    put_point(alloc, out, at)?;
    out.extend_from_slice(format!(in alloc; " {count}\n")?.as_bytes())
}

/// Writes a row of an edge.
pub fn put_row(alloc: Global, out: &mut Vec<u8>, row: EdgeRow) -> Result<(), AllocError> {
    out.extend_from_slice(b"row")?;
    match row.source {
        Place::Root => out.extend_from_slice(b" root")?,
        Place::At(source) => put_point(alloc, out, source)?,
    }
    put_point(alloc, out, row.target)?;
    out.extend_from_slice(label_word(row.label))?;
    put_name(out, row.introducer)?;
    out.extend_from_slice(b"\n")
}

/// Writes a need, and a change that has it.
pub fn put_pair(out: &mut Vec<u8>, need: Name, holder: Name) -> Result<(), AllocError> {
    out.extend_from_slice(b"pair")?;
    put_name(out, need)?;
    put_name(out, holder)?;
    out.extend_from_slice(b"\n")
}

/// Writes a version.
pub fn put_version(alloc: Global, out: &mut Vec<u8>, version: Version) -> Result<(), AllocError> {
    match version {
        Version::Owner => put_word(out, b"owner"),
        Version::Deleted { change, hunk } => put_hunk(alloc, out, b"deleted", change, hunk),
        Version::Revived { change, hunk } => put_hunk(alloc, out, b"revived", change, hunk),
    }
}

fn put_hunk(
    alloc: Global,
    out: &mut Vec<u8>,
    word: &[u8],
    change: Name,
    hunk: u32,
) -> Result<(), AllocError> {
    out.extend_from_slice(word)?;
    put_name(out, change)?;
    out.extend_from_slice(format!(in alloc; " {hunk}\n")?.as_bytes())
}

/// Writes a status.
pub fn put_status(out: &mut Vec<u8>, status: Status) -> Result<(), AllocError> {
    put_word(out, status_word(status))
}

fn put_point(alloc: Global, out: &mut Vec<u8>, point: Point) -> Result<(), AllocError> {
    put_name(out, point.change)?;
    out.extend_from_slice(format!(in alloc; ".{}", point.offset)?.as_bytes())
}

/// Writes a space and the first eight digits of the name.
fn put_name(out: &mut Vec<u8>, name: Name) -> Result<(), AllocError> {
    let digits = name.hex();
    out.extend_from_slice(b" ")?;
    out.extend_from_slice(&digits[..8])
}

fn status_word(status: Status) -> &'static [u8] {
    match status {
        Status::Alive => b"alive",
        Status::Dead => b"dead",
        Status::Zombie => b"zombie",
    }
}

fn label_word(label: Label) -> &'static [u8] {
    match label {
        Label::Block => b" block",
        Label::Folder => b" folder",
        Label::Order => b" order",
    }
}
