//! The inverse of a change as a whole: its needs, its hunks, its message and its author.

ghost use Rattle.std.specs.Prelude.{◌≡◌, ◌++◌, ℕ, IfOk, OnOk, codes};
ghost use Rattle.pj_name.specs.Name.{hex};
ghost use Rattle.pj_change.specs.Inverse.{IsInverse, IsFirstWithoutInverse};

use crate::hunks::undo_each;
use crate::needs::inverse_needs;
use crate::refusal::InverseRefusal;
use pj_change::{Bytes, Change, Memory, Names, Record};
use pj_name::Name;
use std::alloc::Global;

/// The message of the inverse of the change of this name.
fn message(alloc: Global, name: Name) -> Result<Bytes, Memory>
    ensures { IfOk result (λ bytes. bytes ≡ codes "inverse " ++ hex name.bytes) }
{
    let mut message = Vec::from_slice(alloc, b"inverse ")?;
    message.extend_from_slice(&name.hex())?;
    Ok(Bytes::of(message))
}

/// The bytes once more.
fn copied(alloc: Global, bytes: &Bytes) -> Result<Bytes, Memory>
    ensures { IfOk result (λ copy. copy ≡ bytes.now) }
{
    Ok(Bytes::of(Vec::from_slice(alloc, bytes.items())?))
}

/// The change that undoes another: it deletes each name and block of the other by the other itself, and revives what the
/// other deleted by its owner alone.
///
/// # Errors
/// `Hunk` with the number of the first hunk, counted from 0, that has no inverse: an `order`, a `revive`, a `delete` that names
/// more or another than its owner, or a hunk with which the inverse has more than 256 needs. `Memory` where there was no memory,
/// or where the change lists its own name among its needs, as no change of a lawful set does.
pub fn inverse(alloc: Global, record: &Record) -> Result<Change, InverseRefusal>
    ensures inverse { IfOk result (IsInverse «record».now) }

    // A hunk is told exactly where it is the first without an inverse, but for want of memory.
    ensures none { OnOk result ((k : ℕ) → IsFirstWithoutInverse «record».now k → ⊥) }
    ensures hunk { (k : ℕ) → result ≡ Err (InverseRefusal.Hunk k) → IsFirstWithoutInverse «record».now k }
{
    let needs = inverse_needs(alloc, record)?;
    let hunks = undo_each(alloc, record, needs.items())?;
    let message = message(alloc, record.name)?;
    let author = copied(alloc, &record.change.author)?;
    let knows = Names::of(Vec::new(alloc));
    let inverse = Change::of(2, message, author, record.change.time, needs, knows, hunks);
    inverse.ok_or(InverseRefusal::Memory)
}
