//! The hunks, each read after the first word of its line.

ghost use Rattle.std.specs.Prelude.{◌≡◌};
ghost use Rattle.pj_scan.specs.Scan.{rest as left};
ghost use Rattle.pj_text.specs.Gives.{Gives};
ghost use Rattle.pj_text.specs.Reading.{operand_at, label_at, file_at, dir_at, name_of_at, block_at, insert_at, order_at, range_at, owners_at, delete_at, revive_at, operands_at, hunk_at, hunks_at};

use crate::fields::{bytes, comes, line, number, reference, token};
use crate::lists::{numbers, references};
use crate::refusal::ReadRefusal;
use pj_change::{Bytes, Hunk, Hunks, MOST_HUNKS, Owners, Ref};
use pj_scan::Scan;
use std::alloc::Global;

/// Positions of a need.
#[derive(Clone, Copy)]
struct Span {
    owner: u32,
    start: u32,
    end: u32,
}

/// A reference after a space.
#[tactic(auto, unfolding(crate::specs::Reading::operand_at))]
fn operand(scan: &mut Scan<'_>) -> Result<Ref, ReadRefusal>
    ensures { Gives result (left scan.new) (operand_at (left scan.old)) }
{
    token(scan, b" ")?;
    reference(scan)
}

/// A name after a space, to the end of the line.
#[tactic(auto, unfolding(crate::specs::Reading::label_at))]
fn label(alloc: Global, scan: &mut Scan<'_>) -> Result<Bytes, ReadRefusal>
    ensures { Gives result (left scan.new) (label_at (left scan.old)) }
{
    token(scan, b" ")?;
    line(alloc, scan)
}

/// The operands of a `file`, or of a `file+x`.
#[tactic(auto, unfolding(crate::specs::Reading::file_at))]
fn file(alloc: Global, scan: &mut Scan<'_>, exec: bool) -> Result<Hunk, ReadRefusal>
    ensures { Gives result (left scan.new) (file_at exec (left scan.old)) }
{
    let parent = operand(scan)?;
    let name = label(alloc, scan)?;
    Ok(Hunk::File { parent, name, exec })
}

/// The operands of a `dir`.
#[tactic(auto, unfolding(crate::specs::Reading::dir_at))]
fn dir(alloc: Global, scan: &mut Scan<'_>) -> Result<Hunk, ReadRefusal>
    ensures { Gives result (left scan.new) (dir_at (left scan.old)) }
{
    let parent = operand(scan)?;
    let name = label(alloc, scan)?;
    Ok(Hunk::Dir { parent, name })
}

/// The operands of a `name`, or of a `name+x`.
#[tactic(auto, unfolding(crate::specs::Reading::name_of_at))]
fn name_of(alloc: Global, scan: &mut Scan<'_>, exec: bool) -> Result<Hunk, ReadRefusal>
    ensures { Gives result (left scan.new) (name_of_at exec (left scan.old)) }
{
    let parent = operand(scan)?;
    let child = operand(scan)?;
    let name = label(alloc, scan)?;
    Ok(Hunk::NameOf {
        parent,
        child,
        name,
        exec,
    })
}

/// A number, a newline, as many bytes as it says, and a newline.
#[tactic(auto, unfolding(crate::specs::Reading::block_at))]
fn block(alloc: Global, scan: &mut Scan<'_>) -> Result<Bytes, ReadRefusal>
    ensures { Gives result (left scan.new) (block_at (left scan.old)) }
{
    let count = number(scan)?;
    token(scan, b"\n")?;
    let block = bytes(alloc, scan, count)?;
    token(scan, b"\n")?;
    Ok(block)
}

/// The operands of an `insert`, and its bytes.
#[tactic(auto, unfolding(crate::specs::Reading::insert_at))]
fn insert(alloc: Global, scan: &mut Scan<'_>) -> Result<Hunk, ReadRefusal>
    ensures { Gives result (left scan.new) (insert_at (left scan.old)) }
{
    let file = operand(scan)?;
    token(scan, b" after ")?;
    let ups = references(alloc, scan)?;
    token(scan, b" before ")?;
    let downs = references(alloc, scan)?;
    token(scan, b" ")?;
    let bytes = block(alloc, scan)?;
    Ok(Hunk::Insert {
        file,
        ups,
        downs,
        bytes,
    })
}

/// The operands of an `order`.
#[tactic(auto, unfolding(crate::specs::Reading::order_at))]
fn order(scan: &mut Scan<'_>) -> Result<Hunk, ReadRefusal>
    ensures { Gives result (left scan.new) (order_at (left scan.old)) }
{
    let file = operand(scan)?;
    let source = operand(scan)?;
    let target = operand(scan)?;
    token(scan, b"\n")?;
    Ok(Hunk::Order {
        file,
        source,
        target,
    })
}

/// Positions of a need: `K.a-b`.
#[tactic(auto, unfolding(crate::specs::Reading::range_at))]
fn range(scan: &mut Scan<'_>) -> Result<Span, ReadRefusal>
    ensures { Gives result (left scan.new) (range_at (left scan.old)) }
{
    let owner = number(scan)?;
    token(scan, b".")?;
    let start = number(scan)?;
    token(scan, b"-")?;
    let end = number(scan)?;
    Ok(Span { owner, start, end })
}

/// The owners of versions, to the end of the line.
#[tactic(auto, unfolding(crate::specs::Reading::owners_at))]
fn owners(alloc: Global, scan: &mut Scan<'_>) -> Result<Owners, ReadRefusal>
    ensures { Gives result (left scan.new) (owners_at (left scan.old)) }
{
    token(scan, b" by ")?;
    let by = numbers(alloc, scan)?;
    token(scan, b"\n")?;
    Ok(by)
}

/// The operands of a `delete`.
#[tactic(auto, unfolding(crate::specs::Reading::delete_at))]
fn delete(alloc: Global, scan: &mut Scan<'_>) -> Result<Hunk, ReadRefusal>
    ensures { Gives result (left scan.new) (delete_at (left scan.old)) }
{
    token(scan, b" ")?;
    let Span { owner, start, end } = range(scan)?;
    let by = owners(alloc, scan)?;
    Ok(Hunk::Delete {
        owner,
        start,
        end,
        by,
    })
}

/// The operands of a `revive`.
#[tactic(auto, unfolding(crate::specs::Reading::revive_at))]
fn revive(alloc: Global, scan: &mut Scan<'_>) -> Result<Hunk, ReadRefusal>
    ensures { Gives result (left scan.new) (revive_at (left scan.old)) }
{
    token(scan, b" ")?;
    let Span { owner, start, end } = range(scan)?;
    let by = owners(alloc, scan)?;
    Ok(Hunk::Revive {
        owner,
        start,
        end,
        by,
    })
}

/// The operands of a hunk with this first word, and its body.
#[tactic(auto, unfolding(crate::specs::Reading::operands_at))]
fn operands(alloc: Global, scan: &mut Scan<'_>, word: &[u8]) -> Result<Hunk, ReadRefusal>
    ensures { Gives result (left scan.new) (operands_at word.now (left scan.old)) }
{
    if word == b"file".as_slice() {
        file(alloc, scan, false)
    } else if word == b"file+x".as_slice() {
        file(alloc, scan, true)
    } else if word == b"dir".as_slice() {
        dir(alloc, scan)
    } else if word == b"name".as_slice() {
        name_of(alloc, scan, false)
    } else if word == b"name+x".as_slice() {
        name_of(alloc, scan, true)
    } else if word == b"insert".as_slice() {
        insert(alloc, scan)
    } else if word == b"order".as_slice() {
        order(scan)
    } else if word == b"delete".as_slice() {
        delete(alloc, scan)
    } else if word == b"revive".as_slice() {
        revive(alloc, scan)
    } else {
        Err(ReadRefusal::Malformed)
    }
}

/// A hunk: its line, and the bytes of an insertion.
#[tactic(auto, using(crate::proofs::Scans::word_found, crate::proofs::Scans::word_missed), unfolding(crate::specs::Reading::hunk_at))]
fn hunk(alloc: Global, scan: &mut Scan<'_>) -> Result<Hunk, ReadRefusal>
    ensures { Gives result (left scan.new) (hunk_at (left scan.old)) }
{
    match scan.word() {
        Some(word) => operands(alloc, scan, word),
        None => Err(ReadRefusal::Malformed),
    }
}

/// The hunks before the line `end`, at most as many as a change may have.
pub fn hunks(alloc: Global, scan: &mut Scan<'_>) -> Result<Hunks, ReadRefusal>
    ensures { Gives result (left scan.new) (hunks_at MOST_HUNKS (left scan.old)) }
{
    let mut hunks = Vec::new(alloc);
    for _ in 0..MOST_HUNKS {
        if comes(scan, b"end") {
            break;
        }
        hunks.push(hunk(alloc, scan)?)?;
    }
    hunks.shrink_to_fit();
    Ok(Hunks::of(hunks))
}
