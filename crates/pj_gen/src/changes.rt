//! The changes after change 0.
ghost use Rattle.std.specs.Prelude.{◌≡◌, ◌+◌, ◌<◌, ◌^◌, ◌∷◌, [], nat_eq, if◌then◌else◌, IfOk};
ghost use Rattle.pj_change.specs.declared.point.Ref.TheVariants as point;
ghost use Rattle.pj_gen.specs.Pieces.{at_most_one};
ghost use Rattle.pj_change.specs.Text.{text_of};
ghost use Rattle.pj_gen.specs.Changes.{zero_name, numbered as number_bytes, load_change, behind, deletion, insertion, following, change_after, last_after as last_insertion_after};

use crate::draws::Draws;
use crate::hunks::{put_delete, put_insert};
use crate::pieces::{ended, first_byte, inode, started};
use pj_change::Ref;
use pj_name::Name;
use std::alloc::{AllocError, Global};

/// An insertion that another one may follow.
#[derive(Clone, Copy)]
pub(crate) struct Insertion {
    /// The change that inserted.
    pub(crate) name: Name,
    /// The number of the file into which it inserted.
    pub(crate) file: u8,
}

/// The number in seven digits, and a newline.
#[tactic(auto, unfolding(crate::specs::Changes::numbered))]
fn numbered(number: u32) -> [u8; 8]
    ensures { result ≡ number_bytes number }
{
    [
        b'0' + (number / 1_000_000 % 10) as u8,
        b'0' + (number / 100_000 % 10) as u8,
        b'0' + (number / 10_000 % 10) as u8,
        b'0' + (number / 1_000 % 10) as u8,
        b'0' + (number / 100 % 10) as u8,
        b'0' + (number / 10 % 10) as u8,
        b'0' + (number % 10) as u8,
        b'\n',
    ]
}

/// The text of a change that deletes a line of a file.
#[tactic(auto, using(crate::proofs::Texts::one_hunk), unfolding(crate::specs::Changes::deletion))]
fn deletion_text(
    alloc: Global,
    number: u32,
    zero: Name,
    draws: Draws,
) -> Result<Vec<u8>, AllocError>
    requires { zero ≡ zero_name }
    ensures { IfOk result (λ text. text.items ≡ text_of (deletion number draws)) }
{
    let start = first_byte(draws.file) + 8 * u32::from(draws.place / 8);
    let mut text = started(alloc, number, &[zero])?;
    put_delete(&mut text, start, start + 8)?;
    ended(text)
}

/// The byte behind the one at `at`, if the file has it.
fn byte_behind(place: u8, at: u32) -> Option<Ref>
    requires { at + 1 < 2 ^ 32 }
    ensures { at_most_one result ≡ (if nat_eq place 63 then [] else point.At 1 (at + 1) ∷ []) }
{
    if place == 63 {
        None
    } else {
        Some(Ref::At {
            owner: 1,
            offset: at + 1,
        })
    }
}

/// The text of a change that inserts into a file of change 0.
#[tactic(auto, using(crate::proofs::Texts::one_hunk), unfolding(crate::specs::Changes::insertion))]
fn insertion_text(
    alloc: Global,
    number: u32,
    zero: Name,
    draws: Draws,
) -> Result<Vec<u8>, AllocError>
    requires { zero ≡ zero_name }
    ensures { IfOk result (λ text. text.items ≡ text_of (insertion number draws)) }
{
    let file = Ref::At {
        owner: 1,
        offset: inode(draws.file),
    };
    let at = first_byte(draws.file) + u32::from(draws.place);
    let up = Ref::At {
        owner: 1,
        offset: at,
    };
    let mut text = started(alloc, number, &[zero])?;
    put_insert(
        &mut text,
        file,
        up,
        byte_behind(draws.place, at),
        &numbered(number),
    )?;
    ended(text)
}

/// The text of a change that inserts behind an insertion; `owners` are the numbers of change 0 and of the other among the needs.
#[tactic(auto, using(crate::proofs::Texts::one_hunk))]
fn behind_text(
    alloc: Global,
    number: u32,
    needs: &[Name],
    last: Insertion,
    zero_owner: u32,
    last_owner: u32,
) -> Result<Vec<u8>, AllocError>
    ensures { IfOk result (λ text. text.items ≡ text_of (load_change number needs.now (behind number last zero_owner last_owner ∷ []))) }
{
    let file = Ref::At {
        owner: zero_owner,
        offset: inode(last.file),
    };
    let up = Ref::At {
        owner: last_owner,
        offset: 7,
    };
    let mut text = started(alloc, number, needs)?;
    put_insert(&mut text, file, up, None, &numbered(number))?;
    ended(text)
}

/// The text of a change that inserts behind the last insertion of its line.
#[tactic(auto, using(crate::proofs::Followings::zero_first, crate::proofs::Followings::last_first))]
fn following_text(
    alloc: Global,
    number: u32,
    zero: Name,
    last: Insertion,
) -> Result<Vec<u8>, AllocError>
    requires { zero ≡ zero_name }
    ensures { IfOk result (λ text. text.items ≡ text_of (following number last)) }
{
    if zero.cmp(&last.name).is_lt() {
        behind_text(alloc, number, &[zero, last.name], last, 1, 2)
    } else {
        behind_text(alloc, number, &[last.name, zero], last, 2, 1)
    }
}

/// The text of a change, by the last insertion of its line among the changes before it.
pub(crate) fn change_text(
    alloc: Global,
    number: u32,
    zero: Name,
    last: Option<Insertion>,
    draws: Draws,
) -> Result<Vec<u8>, AllocError>
    requires { zero ≡ zero_name }
    ensures { IfOk result (λ text. text.items ≡ text_of (change_after last number draws)) }
{
    if draws.kind == 0 {
        return deletion_text(alloc, number, zero, draws);
    }
    match last {
        Some(last) if draws.kind == 3 => following_text(alloc, number, zero, last),
        _ => insertion_text(alloc, number, zero, draws),
    }
}

/// The last insertion of the line, once it has the change with this name.
pub(crate) fn last_after(last: Option<Insertion>, draws: Draws, name: Name) -> Option<Insertion>
    ensures { result ≡ last_insertion_after last draws name }
{
    if draws.kind == 0 {
        return last;
    }
    match last {
        Some(Insertion { file, .. }) if draws.kind == 3 => Some(Insertion { name, file }),
        _ => Some(Insertion {
            name,
            file: draws.file,
        }),
    }
}
