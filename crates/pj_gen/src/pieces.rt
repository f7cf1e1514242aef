//! What all texts of changes have.
ghost use Rattle.std.specs.Prelude.{◌≡◌, ◌++◌, OnOk, IfOk};
ghost use Rattle.pj_gen.specs.Changes.{inode as inode_of, first_byte as first_byte_of};
ghost use Rattle.pj_gen.specs.Pieces.{head_lines, need_lines, end_line};

use crate::lines::{put_counted, put_two, put_word};
use pj_name::Name;
use std::alloc::{AllocError, Global};

/// The position of the inode of a file.
pub(crate) fn inode(file: u8) -> u32
    ensures { result ≡ inode_of file }
{
    66 * u32::from(file) + 1
}

/// The position of the first byte of a file.
pub(crate) fn first_byte(file: u8) -> u32
    ensures { result ≡ first_byte_of file }
{
    66 * u32::from(file) + 2
}

/// Appends the lines before the needs.
fn put_head(out: &mut Vec<u8>, number: u32) -> Result<(), AllocError>
    ensures { OnOk result (out.new.items ≡ out.old.items ++ head_lines number) }
{
    put_counted(out, b"pijul change", 1)?;
    put_counted(out, b"message", number)?;
    put_two(out, b"author", b"load")?;
    put_counted(out, b"time", number)?;
    Ok(())
}

/// Appends a line for each need.
fn put_needs(out: &mut Vec<u8>, needs: &[Name]) -> Result<(), AllocError>
    ensures { OnOk result (out.new.items ≡ out.old.items ++ need_lines needs.now) }
{
    for need in needs {
        put_two(out, b"needs", &need.hex())?;
    }
    Ok(())
}

/// The text of a change up to its hunks.
pub(crate) fn started(alloc: Global, number: u32, needs: &[Name]) -> Result<Vec<u8>, AllocError>
    ensures { IfOk result (λ text. text.items ≡ head_lines number ++ need_lines needs.now) }
{
    let mut text = Vec::new(alloc);
    put_head(&mut text, number)?;
    put_needs(&mut text, needs)?;
    Ok(text)
}

/// The text with its last line.
pub(crate) fn ended(mut text: Vec<u8>) -> Result<Vec<u8>, AllocError>
    ensures { IfOk result (λ whole. whole.items ≡ text.items ++ end_line) }
{
    put_word(&mut text, b"end")?;
    Ok(text)
}
