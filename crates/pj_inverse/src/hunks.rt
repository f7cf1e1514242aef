//! The hunks of an inverse, one for each hunk of the change.
ghost use Rattle.std.specs.Prelude.{◌≡◌, ◌≤◌, ◌+◌, ◌<◌, ◌^◌, length, Contains, All, IfOk, [], ◌∷◌};
ghost use Rattle.pj_change.specs.Rules.{position_count};
ghost use Rattle.pj_change.specs.Inverse.{AreInverseNeeds, IsNumberOf, Undoes, UndoEach, IsUndoable};

use pj_change::{Hunk, Hunks, Memory, Owners, Record, numbered};
use pj_name::Name;
use std::alloc::Global;

/// The number of the need of this name, counted from 1.
fn number_of(needs: &[Name], name: Name) -> u32
    requires there { Contains needs.now name }
    requires few { length needs.now ≤ 256 }
    ensures { IsNumberOf needs.now name result }
{
    let mut number = 1;
    for need in needs {
        if *need == name {
            return number;
        }
        number += 1;
    }
    number
}

/// A `delete` of the change's own positions from `start` up to and without `end`, by the change, which has this number.
fn deletion(alloc: Global, itself: u32, start: u32, end: u32) -> Result<Hunk, Memory>
    ensures { IfOk result (λ hunk. hunk ≡ Hunk.Delete itself start end (itself ∷ [])) }
{
    Ok(Hunk::Delete {
        owner: itself,
        start,
        end,
        by: Owners::of(vec![in alloc; itself]?),
    })
}

/// The positions of a need from `start` up to and without `end` are alive again, by the change, which has the number `itself`.
fn revival(alloc: Global, owner: u32, start: u32, end: u32, itself: u32) -> Result<Hunk, Memory>
    ensures { IfOk result (λ hunk. hunk ≡ Hunk.Revive owner start end (itself ∷ [])) }
{
    Ok(Hunk::Revive {
        owner,
        start,
        end,
        by: Owners::of(vec![in alloc; itself]?),
    })
}

/// The hunk that undoes a hunk of the change; `first` is its first position, and `itself` the change's number among the needs.
fn undoing(
    alloc: Global,
    record: &Record,
    needs: &[Name],
    itself: u32,
    first: u32,
    hunk: &Hunk,
) -> Result<Hunk, Memory>
    requires hunk { Contains «record».now.change.hunks hunk.now }
    requires undoable { IsUndoable hunk.now }
    requires needs { AreInverseNeeds «record».now «record».now.change.hunks needs.now }
    requires few { length needs.now ≤ 256 }
    requires itself { IsNumberOf needs.now «record».now.name itself }
    requires fits { first + position_count hunk.now < 2 ^ 32 }
    ensures { IfOk result (Undoes «record».now needs.now first hunk.now) }
{
    match hunk {
        Hunk::File { .. } | Hunk::Dir { .. } | Hunk::NameOf { .. } => {
            deletion(alloc, itself, first, first + 1)
        }
        Hunk::Insert { bytes, .. } => {
            deletion(alloc, itself, first, first + bytes.items().len() as u32)
        }
        Hunk::Delete {
            owner,
            start,
            end,
            ..
        } => {
            let number = number_of(needs, numbered(record, *owner));
            revival(alloc, number, *start, *end, itself)
        }
        Hunk::Order { .. } | Hunk::Revive { .. } => unreachable!(),
    }
}

/// The hunks that undo those of the change, one by one; `needs` are the needs of the inverse.
pub(crate) fn undo_each(alloc: Global, record: &Record, needs: &[Name]) -> Result<Hunks, Memory>
    requires undoable { All IsUndoable «record».now.change.hunks }
    requires needs { AreInverseNeeds «record».now «record».now.change.hunks needs.now }
    requires few { length needs.now ≤ 256 }
    ensures { IfOk result (UndoEach «record».now needs.now 0 «record».now.change.hunks) }
{
    let itself = number_of(needs, record.name);
    let mut hunks = Vec::new(alloc);
    let mut first = 0;
    for hunk in record.change.hunks.items() {
        hunks.push(undoing(alloc, record, needs, itself, first, hunk)?)?;
        first += hunk.position_count() as u32;
    }
    Ok(Hunks::of(hunks))
}
