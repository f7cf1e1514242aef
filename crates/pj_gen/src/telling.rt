//! The summary of a large run.
ghost use Rattle.std.specs.Prelude.{◌≡◌, ◌-◌, ◌++◌, ◌<◌, ◌≤◌, ◌∷◌, [], ℕ, codes, length, slice_index_or, OnOk, IfOk};
ghost use Rattle.std.specs.List.{flat_map};
ghost use Rattle.pj_change.specs.Text.{line};
ghost use Rattle.pj_gen.specs.Changes.{eight, line_name as name_of_line};
ghost use Rattle.pj_gen.specs.Requests.{main as main_name};
ghost use Rattle.pj_gen.specs.Summary.{line_texts, all_texts, IsFoundOf, found_words, channel_line, line_row, head, IsSummary};

use crate::lines::{put_counted, put_last_number, put_number, put_word};
use crate::making::MOST_CHANGES;
use crate::names::line_name;
use pj_change::{Memory, Point};
use pj_name::Name;
use std::alloc::{AllocError, Global};

/// What stands for the print of a channel.
#[derive(Clone, Copy)]
pub enum Found {
    /// The SHA-256 digest of the print.
    Digest(Name),
    /// The first file with too many live vertices, by its inode.
    Wide(Point),
}

/// How many changes the channel of a line has, change 0 among them.
pub fn line_count(changes: u32, line: u8) -> u32
    requires changes { (1 ≤ changes) × (changes ≤ MOST_CHANGES) }
    requires line { line < 8 }
    ensures { (number : ℕ) → result ≡ length (line_texts number line (changes - 1)) }
{
    1 + (changes + 6 - u32::from(line)) / 8
}

/// Appends the first words of a channel's line.
fn put_name(out: &mut Vec<u8>, name: &[u8]) -> Result<(), AllocError>
    ensures { OnOk result (out.new.items ≡ out.old.items ++ codes "channel " ++ name.now ++ codes " ") }
{
    out.extend_from_slice(b"channel ")?;
    out.extend_from_slice(name)?;
    out.extend_from_slice(b" ")
}

/// Appends the last words of a channel's line.
fn put_found(out: &mut Vec<u8>, found: Found) -> Result<(), AllocError>
    ensures { OnOk result (out.new.items ≡ out.old.items ++ line (found_words found)) }
{
    match found {
        Found::Digest(name) => put_word(out, &name.hex()),
        Found::Wide(inode) => {
            out.extend_from_slice(b"wide ")?;
            out.extend_from_slice(&inode.change.hex())?;
            out.extend_from_slice(b".")?;
            put_last_number(out, inode.offset)
        }
    }
}

/// Appends the line of a channel.
#[tactic(auto, using(crate::proofs::Counts::channel_pieces))]
fn put_channel(out: &mut Vec<u8>, name: &[u8], count: u32, found: Found) -> Result<(), AllocError>
    ensures { OnOk result (out.new.items ≡ out.old.items ++ channel_line name.now count found) }
{
    put_name(out, name)?;
    put_number(out, count)?;
    out.extend_from_slice(b" ")?;
    put_found(out, found)?;
    Ok(())
}

/// Appends the line of the channel of a line of changes.
fn put_row(out: &mut Vec<u8>, changes: u32, line: u8, found: Found) -> Result<(), AllocError>
    requires changes { (1 ≤ changes) × (changes ≤ MOST_CHANGES) }
    requires line { line < 8 }
    ensures { OnOk result ((number : ℕ) → out.new.items ≡ out.old.items ++ line_row number changes line found) }
{
    put_channel(out, &line_name(line), line_count(changes, line), found)?;
    Ok(())
}

/// Appends the lines of the channels of all lines of changes.
fn put_rows(out: &mut Vec<u8>, changes: u32, lines: &[Found]) -> Result<(), AllocError>
    requires changes { (1 ≤ changes) × (changes ≤ MOST_CHANGES) }
    requires lines { length lines.now ≡ 8 }
    ensures { OnOk result ((number : ℕ) (d : Found) → out.new.items ≡ out.old.items
        ++ flat_map (λ l. line_row number changes l (slice_index_or lines.now l d)) eight) }
{
    put_row(out, changes, 0, lines[0])?;
    put_row(out, changes, 1, lines[1])?;
    put_row(out, changes, 2, lines[2])?;
    put_row(out, changes, 3, lines[3])?;
    put_row(out, changes, 4, lines[4])?;
    put_row(out, changes, 5, lines[5])?;
    put_row(out, changes, 6, lines[6])?;
    put_row(out, changes, 7, lines[7])?;
    Ok(())
}

/// Appends the first two lines.
#[tactic(auto, unfolding(crate::specs::Summary::head))]
fn put_head(out: &mut Vec<u8>, changes: u32, sessions: u32) -> Result<(), AllocError>
    ensures { OnOk result (out.new.items ≡ out.old.items ++ head changes sessions) }
{
    put_counted(out, b"sessions", sessions)?;
    put_counted(out, b"changes", changes)
}

/// The summary's bytes, whose only error is that of the allocator.
fn summary_bytes(
    alloc: Global,
    changes: u32,
    sessions: u32,
    lines: &[Found],
    main: Found,
) -> Result<Vec<u8>, AllocError>
    requires changes { (1 ≤ changes) × (changes ≤ MOST_CHANGES) }
    requires lines { length lines.now ≡ 8 }
    ensures { IfOk result (λ bytes. (number : ℕ) (d : Found) → bytes.items ≡ head changes sessions
        ++ flat_map (λ l. line_row number changes l (slice_index_or lines.now l d)) eight ++ channel_line main_name changes main) }
{
    let mut out = Vec::new(alloc);
    put_head(&mut out, changes, sessions)?;
    put_rows(&mut out, changes, lines)?;
    put_channel(&mut out, b"main", changes, main)?;
    Ok(out)
}

/// The summary, by what stands for the prints of the lines' channels and of `main`. It is that of each number for whose sets
/// they stand.
///
/// # Errors
/// `Memory` where there was no memory for it.
pub fn summary(
    alloc: Global,
    changes: u32,
    sessions: u32,
    lines: &[Found; 8],
    main: Found,
) -> Result<Vec<u8>, Memory>
    requires { (1 ≤ changes) × (changes ≤ MOST_CHANGES) }
    ensures { IfOk result (λ bytes. (number : ℕ)
        → ((l : ℕ) → l < 8 → IsFoundOf (line_texts number l (changes - 1)) (slice_index_or lines.now l main))
        → IsFoundOf (all_texts number (changes - 1)) main
        → IsSummary number changes sessions bytes.items) }
{
    Ok(summary_bytes(alloc, changes, sessions, lines, main)?)
}
