//! The bytes of an entry.

ghost use Rattle.std.specs.Prelude.{◌≡◌, ◌++◌, ◌∷◌, [], codes, length, decimal, if◌then◌else◌, OnOk};
ghost use Rattle.pj_change.specs.Print.{word_text};
ghost use Rattle.pj_change.specs.Text.{line};
ghost use Rattle.pj_print.specs.Entries.{entry_text};

use itoa::Buffer;
use pj_change::{Step, StepKind, StepWord};
use std::alloc::AllocError;

/// A word as it is written.
fn word_of(word: StepWord) -> &'static [u8]
    ensures { result.now ≡ word_text word }
{
    match word {
        StepWord::Alive => b"alive",
        StepWord::Zombie => b"zombie",
        StepWord::Orphan => b"orphan",
        StepWord::Adrift => b"adrift",
    }
}

/// The first word of a file's entry.
fn file_kind(exec: bool) -> &'static [u8]
    ensures { result.now ≡ if exec then codes "exec" else codes "file" }
{
    if exec { b"exec" } else { b"file" }
}

/// The kind and the word of an entry, each with a space behind it.
fn put_head(out: &mut Vec<u8>, kind: &[u8], word: StepWord) -> Result<(), AllocError>
    ensures { OnOk result (out.new.items ≡ out.old.items ++ (kind.now ++ 32 ∷ word_text word ++ 32 ∷ [])) }
{
    out.extend_from_slice(kind)?;
    out.push(b' ')?;
    out.extend_from_slice(word_of(word))?;
    out.push(b' ')?;
    Ok(())
}

/// The line of an entry without a text.
fn put_line(out: &mut Vec<u8>, kind: &[u8], step: &Step) -> Result<(), AllocError>
    ensures { OnOk result (out.new.items ≡ out.old.items ++ line (kind.now ∷ word_text step.now.word ∷ step.now.path ∷ [])) }
{
    put_head(out, kind, step.word)?;
    out.extend_from_slice(step.path.items())?;
    out.extend_from_slice(b"\n")
}

/// The entry of a file: its line, its text, and a newline.
fn put_file(out: &mut Vec<u8>, step: &Step, text: &[u8]) -> Result<(), AllocError>
    ensures { OnOk result (out.new.items ≡ out.old.items ++ (line ((if step.now.exec then codes "exec" else codes "file") ∷ word_text step.now.word ∷ decimal (length text.now) ∷ step.now.path ∷ []) ++ text.now ++ 10 ∷ [])) }
{
    let mut buffer = Buffer::new();
    put_head(out, file_kind(step.exec), step.word)?;
    out.extend_from_slice(buffer.format(text.len()).as_bytes())?;
    out.push(b' ')?;
    out.extend_from_slice(step.path.items())?;
    out.push(b'\n')?;
    out.extend_from_slice(text)?;
    out.extend_from_slice(b"\n")
}

/// Appends an entry of a print. `text` is the text of the file, and not used where the entry is no file.
///
/// # Errors
/// `AllocError` where there was no memory.
pub fn put_entry(out: &mut Vec<u8>, step: &Step, text: &[u8]) -> Result<(), AllocError>
    ensures { OnOk result (out.new.items ≡ out.old.items ++ entry_text step.now text.now) }
{
    match step.kind {
        StepKind::Dir => put_line(out, b"dir", step),
        StepKind::Same => put_line(out, b"same", step),
        StepKind::File => put_file(out, step, text),
    }
}
