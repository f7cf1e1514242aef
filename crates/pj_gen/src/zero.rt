//! Change 0, which makes eight files of 64 bytes.
ghost use Rattle.std.specs.Prelude.{◌≡◌, ◌++◌, ◌∷◌, [], ◌<◌, All, codes, OnOk, IfOk};
ghost use Rattle.std.specs.List.{flat_map};
ghost use Rattle.pj_change.specs.Text.{hunk_text, line};
ghost use Rattle.pj_gen.specs.Changes.{file_name as name_of_file, line_name as name_of_line, file_bytes as bytes_of_file, file_hunks as hunks_of_file, zero_text as text_of_zero};

use crate::hunks::{put_file, put_insert};
use crate::lines::put_three;
use crate::names::{EIGHT, file_name, line_name};
use crate::pieces::{ended, inode, started};
use pj_change::Ref;
use std::alloc::{AllocError, Global};

/// Appends lines of a file.
fn put_lines(out: &mut Vec<u8>, file: u8, lines: &[u8]) -> Result<(), AllocError>
    requires file { file < 8 }
    requires lines { All (λ k. k < 8) lines.now }
    ensures { OnOk result (out.new.items ≡ out.old.items ++ flat_map (λ k. line (name_of_file file ∷ name_of_line k ∷ codes "." ∷ [])) lines.now) }
{
    for k in lines {
        put_three(out, &file_name(file), &line_name(*k), b".")?;
    }
    Ok(())
}

/// The bytes of a file.
#[tactic(auto, unfolding(crate::specs::Changes::file_bytes))]
fn file_bytes(alloc: Global, file: u8) -> Result<Vec<u8>, AllocError>
    requires { file < 8 }
    ensures { IfOk result (λ bytes. bytes.items ≡ bytes_of_file file) }
{
    let mut bytes = Vec::new(alloc);
    put_lines(&mut bytes, file, &EIGHT)?;
    Ok(bytes)
}

/// Appends the hunks of a file.
fn put_file_hunks(alloc: Global, out: &mut Vec<u8>, file: u8) -> Result<(), AllocError>
    requires { file < 8 }
    ensures { OnOk result (out.new.items ≡ out.old.items ++ flat_map hunk_text (hunks_of_file file)) }
{
    let bytes = file_bytes(alloc, file)?;
    let at = Ref::At {
        owner: 0,
        offset: inode(file),
    };
    put_file(out, &file_name(file))?;
    put_insert(out, at, at, None, &bytes)
}

/// Appends the hunks of files.
fn put_files(alloc: Global, out: &mut Vec<u8>, files: &[u8]) -> Result<(), AllocError>
    requires { All (λ j. j < 8) files.now }
    ensures { OnOk result (out.new.items ≡ out.old.items ++ flat_map (λ j. flat_map hunk_text (hunks_of_file j)) files.now) }
{
    for file in files {
        put_file_hunks(alloc, out, *file)?;
    }
    Ok(())
}

/// The text of change 0.
#[tactic(auto, using(crate::proofs::Texts::zero_pieces))]
pub(crate) fn zero_text(alloc: Global) -> Result<Vec<u8>, AllocError>
    ensures { IfOk result (λ text. text.items ≡ text_of_zero) }
{
    let mut text = started(alloc, 0, &[])?;
    put_files(alloc, &mut text, &EIGHT)?;
    ended(text)
}
