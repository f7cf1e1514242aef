//! The one spelling of a change, piece by piece at the end of the bytes so far.

ghost use Rattle.std.specs.Prelude.{◌≡◌, ◌∷◌, ◌++◌, [], codes, decimal, OnOk, IfOk};
ghost use Rattle.std.specs.List.{flat_map};
ghost use Rattle.pj_name.specs.Name.{hex};
ghost use Rattle.pj_change.specs.Text.{reference as reference_text, references as references_text, range as range_text, owners as owners_text, operands as operand_texts, body as body_text, hunk_text};
ghost use Rattle.pj_change.specs.Parts.{spelling};
ghost use Rattle.pj_text.specs.Lines.{name_line as name_line_text, spaced as spaced_text};

use itoa::Buffer;
use pj_change::{Change, Hunk, Memory, Ref};
use pj_name::Name;
use std::alloc::{AllocError, Global};

/// A decimal number.
fn number(out: &mut Vec<u8>, number: u64) -> Result<(), AllocError>
    ensures { OnOk result (out.new.items ≡ out.old.items ++ decimal number) }
{
    let mut buffer = Buffer::new();
    out.extend_from_slice(buffer.format(number).as_bytes())
}

/// `root`, or the owner's number and the offset with a full stop between.
#[tactic(auto, unfolding(pj_change::specs::Text::reference))]
fn reference(out: &mut Vec<u8>, at: Ref) -> Result<(), AllocError>
    ensures { OnOk result (out.new.items ≡ out.old.items ++ reference_text at) }
{
    match at {
        Ref::Root => out.extend_from_slice(b"root")?,
        Ref::At { owner, offset } => {
            number(out, u64::from(owner))?;
            out.push(b'.')?;
            number(out, u64::from(offset))?;
        }
    }
    Ok(())
}

/// References, each after a comma.
fn further_references(out: &mut Vec<u8>, refs: &[Ref]) -> Result<(), AllocError>
    ensures { OnOk result (out.new.items ≡ out.old.items ++ flat_map (λ r. 44 ∷ reference_text r) refs.now) }
{
    for at in refs {
        out.push(b',')?;
        reference(out, *at)?;
    }
    Ok(())
}

/// References with commas between, or `-` for none.
#[tactic(auto, using(crate::proofs::Joins::references_none))]
fn references(out: &mut Vec<u8>, refs: &[Ref]) -> Result<(), AllocError>
    ensures { OnOk result (out.new.items ≡ out.old.items ++ references_text refs.now) }
{
    match refs {
        [] => out.extend_from_slice(b"-")?,
        [first, others @ ..] => {
            reference(out, *first)?;
            further_references(out, others)?;
        }
    }
    Ok(())
}

/// Numbers, each after a comma.
fn further_owners(out: &mut Vec<u8>, by: &[u32]) -> Result<(), AllocError>
    ensures { OnOk result (out.new.items ≡ out.old.items ++ flat_map (λ n. 44 ∷ decimal n) by.now) }
{
    for owner in by {
        out.push(b',')?;
        number(out, u64::from(*owner))?;
    }
    Ok(())
}

/// Numbers with commas between.
fn owners(out: &mut Vec<u8>, by: &[u32]) -> Result<(), AllocError>
    ensures { OnOk result (out.new.items ≡ out.old.items ++ owners_text by.now) }
{
    if let [first, others @ ..] = by {
        number(out, u64::from(*first))?;
        further_owners(out, others)?;
    }
    Ok(())
}

/// Positions of a need: `K.a-b`.
#[tactic(auto, unfolding(pj_change::specs::Text::range))]
fn range(out: &mut Vec<u8>, owner: u32, start: u32, end: u32) -> Result<(), AllocError>
    ensures { OnOk result (out.new.items ≡ out.old.items ++ range_text owner start end) }
{
    number(out, u64::from(owner))?;
    out.push(b'.')?;
    number(out, u64::from(start))?;
    out.push(b'-')?;
    number(out, u64::from(end))
}

/// A word after a space.
fn spaced(out: &mut Vec<u8>, word: &[u8]) -> Result<(), AllocError>
    ensures { OnOk result (out.new.items ≡ out.old.items ++ 32 ∷ word.now) }
{
    out.push(b' ')?;
    out.extend_from_slice(word)
}

/// A reference after a space.
fn operand(out: &mut Vec<u8>, at: Ref) -> Result<(), AllocError>
    ensures { OnOk result (out.new.items ≡ out.old.items ++ 32 ∷ reference_text at) }
{
    out.push(b' ')?;
    reference(out, at)
}

/// References after a space.
fn operand_list(out: &mut Vec<u8>, refs: &[Ref]) -> Result<(), AllocError>
    ensures { OnOk result (out.new.items ≡ out.old.items ++ 32 ∷ references_text refs.now) }
{
    out.push(b' ')?;
    references(out, refs)
}

/// A number after a space.
fn operand_number(out: &mut Vec<u8>, count: u64) -> Result<(), AllocError>
    ensures { OnOk result (out.new.items ≡ out.old.items ++ 32 ∷ decimal count) }
{
    out.push(b' ')?;
    number(out, count)
}

/// Positions of a need, and the owners of their versions.
fn operand_range(
    out: &mut Vec<u8>,
    owner: u32,
    start: u32,
    end: u32,
    by: &[u32],
) -> Result<(), AllocError>
    ensures { OnOk result (out.new.items ≡ out.old.items ++ spaced_text (range_text owner start end ∷ codes "by" ∷ owners_text by.now ∷ [])) }
{
    out.push(b' ')?;
    range(out, owner, start, end)?;
    spaced(out, b"by")?;
    out.push(b' ')?;
    owners(out, by)
}

/// The operands of a hunk, each after a space.
#[tactic(auto, using(crate::proofs::Gets::appends))]
fn operands(out: &mut Vec<u8>, hunk: &Hunk) -> Result<(), AllocError>
    ensures { OnOk result (out.new.items ≡ out.old.items ++ spaced_text (operand_texts hunk.now)) }
{
    match hunk {
        Hunk::File { parent, name, .. } | Hunk::Dir { parent, name } => {
            operand(out, *parent)?;
            spaced(out, name.items())
        }
        Hunk::NameOf {
            parent,
            child,
            name,
            ..
        } => {
            operand(out, *parent)?;
            operand(out, *child)?;
            spaced(out, name.items())
        }
        Hunk::Insert {
            file,
            ups,
            downs,
            bytes,
        } => {
            operand(out, *file)?;
            spaced(out, b"after")?;
            operand_list(out, ups.items())?;
            spaced(out, b"before")?;
            operand_list(out, downs.items())?;
            operand_number(out, bytes.items().len() as u64)
        }
        Hunk::Order {
            file,
            source,
            target,
        } => {
            operand(out, *file)?;
            operand(out, *source)?;
            operand(out, *target)
        }
        Hunk::Delete {
            owner,
            start,
            end,
            by,
        }
        | Hunk::Revive {
            owner,
            start,
            end,
            by,
        } => { operand_range(out, *owner, *start, *end, by.items()) }
    }
}

/// What follows a hunk's line.
fn body(out: &mut Vec<u8>, hunk: &Hunk) -> Result<(), AllocError>
    ensures { OnOk result (out.new.items ≡ out.old.items ++ body_text hunk.now) }
{
    if let Hunk::Insert { bytes, .. } = hunk {
        out.extend_from_slice(bytes.items())?;
        out.push(b'\n')?;
    }
    Ok(())
}

/// A hunk: its line, and the bytes of an insertion.
#[tactic(auto, using(crate::proofs::Joins::hunk_pieces))]
fn hunk(out: &mut Vec<u8>, hunk: &Hunk) -> Result<(), AllocError>
    ensures { OnOk result (out.new.items ≡ out.old.items ++ hunk_text hunk.now) }
{
    out.extend_from_slice(hunk.word().as_bytes())?;
    operands(out, hunk)?;
    out.push(b'\n')?;
    body(out, hunk)
}

/// A line of a label and free text.
fn text_line(out: &mut Vec<u8>, label: &[u8], text: &[u8]) -> Result<(), AllocError>
    ensures { OnOk result (out.new.items ≡ out.old.items ++ (label.now ++ (text.now ++ 10 ∷ []))) }
{
    out.extend_from_slice(label)?;
    out.extend_from_slice(text)?;
    out.push(b'\n')?;
    Ok(())
}

/// A line of a label and a number.
fn number_line(out: &mut Vec<u8>, label: &[u8], count: u64) -> Result<(), AllocError>
    ensures { OnOk result (out.new.items ≡ out.old.items ++ (label.now ++ (decimal count ++ 10 ∷ []))) }
{
    out.extend_from_slice(label)?;
    number(out, count)?;
    out.push(b'\n')?;
    Ok(())
}

/// A line for each name, with this label.
fn name_lines(out: &mut Vec<u8>, label: &[u8], names: &[Name]) -> Result<(), AllocError>
    ensures { OnOk result (out.new.items ≡ out.old.items ++ flat_map (name_line_text label.now) names.now) }
{
    for name in names {
        out.extend_from_slice(label)?;
        out.extend_from_slice(&name.hex())?;
        out.push(b'\n')?;
    }
    Ok(())
}

/// Hunks, one after the other.
fn hunks(out: &mut Vec<u8>, hunks: &[Hunk]) -> Result<(), AllocError>
    ensures { OnOk result (out.new.items ≡ out.old.items ++ flat_map hunk_text hunks.now) }
{
    for one in hunks {
        hunk(out, one)?;
    }
    Ok(())
}

/// The spelling, whose only error is that of the allocator.
fn spelled(alloc: Global, change: &Change) -> Result<Vec<u8>, AllocError>
    ensures { IfOk result (λ text. text.items ≡ spelling change.now) }
{
    let mut out = Vec::new(alloc);
    number_line(&mut out, b"pijul change ", u64::from(change.version))?;
    text_line(&mut out, b"message ", change.message.items())?;
    text_line(&mut out, b"author ", change.author.items())?;
    number_line(&mut out, b"time ", u64::from(change.time))?;
    name_lines(&mut out, b"needs ", change.needs.items())?;
    name_lines(&mut out, b"knows ", change.knows.items())?;
    hunks(&mut out, change.hunks.items())?;
    out.extend_from_slice(b"end\n")?;
    Ok(out)
}

/// The one spelling of the change, which `read` reads as the change again.
pub fn write(alloc: Global, change: &Change) -> Result<Vec<u8>, Memory>
    ensures { IfOk result (λ text. text.items ≡ spelling change.now) }
{
    Ok(spelled(alloc, change)?)
}
