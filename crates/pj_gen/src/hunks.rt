//! The hunks of a change, each at the end of the bytes so far.
ghost use Rattle.std.specs.Prelude.{◌≡◌, ◌++◌, ◌∷◌, [], false, decimal, OnOk};
ghost use Rattle.pj_change.specs.declared.hunk.Hunk.TheVariants as hunk;
ghost use Rattle.pj_change.specs.Text.{reference as reference_text, references as references_text, range as range_text, line, hunk_text};
ghost use Rattle.pj_gen.specs.Pieces.{at_most_one};

use crate::lines::{put_counted, put_number, put_word};
use itoa::Buffer;
use pj_change::Ref;
use std::alloc::AllocError;

/// Appends a reference.
#[tactic(auto, unfolding(pj_change::specs::Text::reference))]
fn put_reference(out: &mut Vec<u8>, at: Ref) -> Result<(), AllocError>
    ensures { OnOk result (out.new.items ≡ out.old.items ++ reference_text at) }
{
    match at {
        Ref::Root => out.extend_from_slice(b"root")?,
        Ref::At { owner, offset } => {
            put_number(out, owner)?;
            out.extend_from_slice(b".")?;
            put_number(out, offset)?;
        }
    }
    Ok(())
}

/// Appends a list of one reference, or of none.
#[tactic(auto, unfolding(pj_change::specs::Text::references))]
fn put_references(out: &mut Vec<u8>, at: Option<Ref>) -> Result<(), AllocError>
    ensures { OnOk result (out.new.items ≡ out.old.items ++ references_text (at_most_one at)) }
{
    match at {
        None => out.extend_from_slice(b"-"),
        Some(at) => put_reference(out, at),
    }
}

/// Appends the hunk of a new file of the root.
#[tactic(auto, unfolding(pj_change::specs::Text::hunk_text, pj_change::specs::Text::reference))]
pub(crate) fn put_file(out: &mut Vec<u8>, name: &[u8]) -> Result<(), AllocError>
    ensures { OnOk result (out.new.items ≡ out.old.items ++ hunk_text (hunk.File Ref.Root name.now false)) }
{
    out.extend_from_slice(b"file root ")?;
    put_word(out, name)
}

/// Appends the last word of a line, a length.
fn put_length(out: &mut Vec<u8>, length: usize) -> Result<(), AllocError>
    ensures { OnOk result (out.new.items ≡ out.old.items ++ line (decimal length ∷ [])) }
{
    let mut buffer = Buffer::new();
    put_word(out, buffer.format(length).as_bytes())
}

/// Appends the hunk of an insertion behind one position, and before at most one.
pub(crate) fn put_insert(
    out: &mut Vec<u8>,
    file: Ref,
    up: Ref,
    down: Option<Ref>,
    bytes: &[u8],
) -> Result<(), AllocError>
    ensures { OnOk result (out.new.items ≡ out.old.items ++ hunk_text (hunk.Insert file (up ∷ []) (at_most_one down) bytes.now)) }
{
    out.extend_from_slice(b"insert ")?;
    put_reference(out, file)?;
    out.extend_from_slice(b" after ")?;
    put_references(out, Some(up))?;
    out.extend_from_slice(b" before ")?;
    put_references(out, down)?;
    out.extend_from_slice(b" ")?;
    put_length(out, bytes.len())?;
    put_word(out, bytes)?;
    Ok(())
}

/// Appends a range of positions of the first need.
#[tactic(auto, unfolding(pj_change::specs::Text::range))]
fn put_range(out: &mut Vec<u8>, start: u32, end: u32) -> Result<(), AllocError>
    ensures { OnOk result (out.new.items ≡ out.old.items ++ range_text 1 start end) }
{
    put_number(out, 1)?;
    out.extend_from_slice(b".")?;
    put_number(out, start)?;
    out.extend_from_slice(b"-")?;
    put_number(out, end)
}

/// Appends the hunk of a deletion of positions of the first need.
#[tactic(auto, unfolding(pj_change::specs::Text::hunk_text, pj_change::specs::Text::owners))]
pub(crate) fn put_delete(out: &mut Vec<u8>, start: u32, end: u32) -> Result<(), AllocError>
    ensures { OnOk result (out.new.items ≡ out.old.items ++ hunk_text (hunk.Delete 1 start end (1 ∷ []))) }
{
    out.extend_from_slice(b"delete ")?;
    put_range(out, start, end)?;
    put_counted(out, b" by", 1)?;
    Ok(())
}
