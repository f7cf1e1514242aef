//! The runs of calls of a disk from which a log is made.
ghost use Rattle.std.specs.Prelude.{◌≡◌, ◌↔◌, ◌≤◌, ◌<◌, ◌+◌, ◌^◌, true, length, take, drop, IfSome, IfOk, OnOk, IsErrOf};
ghost use Rattle.pj_disk.specs.Told.{Where};
ghost use Rattle.pj_disk.specs.Causes.{Rose, HasCause};
ghost use Rattle.pj_disk.specs.Image.{overwritten, Torn, Only, AddsNone};
ghost use Rattle.pj_disk.specs.Moments.{LeavesOnly};
ghost use Rattle.pj_journal.specs.Format.{header, empty_file};
ghost use Rattle.pj_journal.specs.Stored.{IsClosedAt};
ghost use Rattle.pj_journal.specs.Appended.{opened, put_at, LeftByOpen, LeftByPut};
ghost use Rattle.pj_journal.specs.Log.{Found, IsBroken};
ghost use Rattle.pj_journal.specs.Head.{IsHead, HasEnd};
ghost use Rattle.pj_journal.specs.declared.refusal.LogRefusal.TheVariants.{Broken, Store};

use crate::LogRefusal;
use crate::head::{Head, head_of};
use pj_disk::{Disk, Failed};
use std::alloc::Global;

/// What a log begins with.
const HEADER: [u8; 8] = *b"pijulj1\n";

/// The header and a closed gate.
const EMPTY: [u8; 9] = *b"pijulj1\n\0";

/// Syncs, and writes a file of at most 9 bytes anew: whether the file then has the header.
pub fn prepare<K: Disk>(disk: &mut K) -> Result<bool, Failed>
    ensures seen { Where (K.tells disk.old) (OnOk result (K.seen disk.new ≡ opened (K.seen disk.old))) }
    ensures durable { Where (K.tells disk.old) (OnOk result (Only (K.seen disk.new) (K.may_leave disk.new))) }
    ensures header { Where (K.tells disk.old) (IfOk result (λ is. is ≡ true ↔ (take 8 (K.seen disk.new) ≡ header))) }
    ensures moments { Where (K.tells disk.old)
        (LeavesOnly K.moment K.left_since disk.old disk.new (LeftByOpen (K.may_leave disk.old) (K.seen disk.old))) }
    ensures told { K.tells disk.new ≡ K.tells disk.old }
    ensures cause { HasCause (K.faults disk.old) (K.faults disk.new) result }
{
    disk.sync()?;
    if disk.len()? <= 9 {
        renew(disk)?;
        return Ok(true);
    }
    has_header(disk)
}

/// Writes a file of at most 9 bytes anew.
fn renew<K: Disk>(disk: &mut K) -> Result<(), Failed>
    requires short { Where (K.tells disk.old) (length (K.seen disk.old) ≤ 9) }
    requires durable { Where (K.tells disk.old) (Only (K.seen disk.old) (K.may_leave disk.old)) }
    ensures seen { Where (K.tells disk.old) (OnOk result (K.seen disk.new ≡ empty_file)) }
    ensures durable { Where (K.tells disk.old) (OnOk result (Only (K.seen disk.new) (K.may_leave disk.new))) }
    ensures moments { Where (K.tells disk.old)
        (LeavesOnly K.moment K.left_since disk.old disk.new (λ c. length c ≤ 9)) }
    ensures told { K.tells disk.new ≡ K.tells disk.old }
    ensures cause { HasCause (K.faults disk.old) (K.faults disk.new) result }
{
    write_and_sync(disk, 0, &EMPTY)
}

/// Whether the file begins with the header.
fn has_header<K: Disk>(disk: &mut K) -> Result<bool, Failed>
    ensures header { Where (K.tells disk.old) (IfOk result (λ is. is ≡ true ↔ (take 8 (K.seen disk.old) ≡ header))) }
    ensures seen { Where (K.tells disk.old) (K.seen disk.new ≡ K.seen disk.old) }
    ensures images { Where (K.tells disk.old) (AddsNone (K.may_leave disk.old) (K.may_leave disk.new)) }
    ensures moments { Where (K.tells disk.old)
        (LeavesOnly K.moment K.left_since disk.old disk.new (K.may_leave disk.old)) }
    ensures told { K.tells disk.new ≡ K.tells disk.old }
    ensures cause { HasCause (K.faults disk.old) (K.faults disk.new) result }
{
    let mut front = [0; 8];
    let count = disk.read(0, &mut front)?;
    Ok(count == 8 && front == HEADER)
}

/// Writes the frame behind the closed gate at this place, and then opens the gate, each with a sync.
pub fn put<K: Disk>(disk: &mut K, place: u64, frame: &[u8]) -> Result<(), Failed>
    requires place { place < 2 ^ 63 }
    requires closed { Where (K.tells disk.old) (IsClosedAt (K.seen disk.old) place) }
    requires durable { Where (K.tells disk.old) (Only (K.seen disk.old) (K.may_leave disk.old)) }
    ensures bound { OnOk result (place + 1 + length frame.now < 2 ^ 63) }
    ensures seen { Where (K.tells disk.old) (OnOk result (K.seen disk.new ≡ put_at (K.seen disk.old) place frame.now)) }
    ensures durable { Where (K.tells disk.old) (OnOk result (Only (K.seen disk.new) (K.may_leave disk.new))) }
    ensures moments { Where (K.tells disk.old)
        (LeavesOnly K.moment K.left_since disk.old disk.new (LeftByPut (K.seen disk.old) place frame.now)) }
    ensures told { K.tells disk.new ≡ K.tells disk.old }
    ensures cause { HasCause (K.faults disk.old) (K.faults disk.new) result }
{
    write_and_sync(disk, place + 1, frame)?;
    write_and_sync(disk, place, &[1])
}

/// Writes, and syncs.
pub fn write_and_sync<K: Disk>(disk: &mut K, at: u64, bytes: &[u8]) -> Result<(), Failed>
    requires within { Where (K.tells disk.old) (at ≤ length (K.seen disk.old)) }
    requires durable { Where (K.tells disk.old) (Only (K.seen disk.old) (K.may_leave disk.old)) }
    ensures bound { OnOk result (at + length bytes.now < 2 ^ 63) }
    ensures seen { Where (K.tells disk.old) (OnOk result (K.seen disk.new ≡ overwritten (K.seen disk.old) at bytes.now)) }
    ensures durable { Where (K.tells disk.old) (OnOk result (Only (K.seen disk.new) (K.may_leave disk.new))) }
    ensures moments { Where (K.tells disk.old)
        (LeavesOnly K.moment K.left_since disk.old disk.new (Torn at (length bytes.now) (K.seen disk.old))) }
    ensures told { K.tells disk.new ≡ K.tells disk.old }
    ensures cause { HasCause (K.faults disk.old) (K.faults disk.new) result }
{
    disk.write_at(at, bytes)?;
    disk.sync()
}

/// The string of the entry at this place, or None at a closed gate.
///
/// # Errors
/// `Broken` exactly where neither is there; `Store` only where the disk's count of faults rose; `Memory`.
pub fn string_at<K: Disk>(
    alloc: Global,
    disk: &mut K,
    place: u64,
) -> Result<Option<Vec<u8>>, LogRefusal>
    ensures found { Where (K.tells disk.old) (IfOk result (λ found. Found (K.seen disk.old) place found)) }
    ensures only_broken { Where (K.tells disk.old) (IsErrOf result Broken → IsBroken (K.seen disk.old) place) }
    ensures bound { IfOk result (λ found. IfSome found (λ string. place + 9 + length string.items < 2 ^ 63)) }
    ensures seen { Where (K.tells disk.old) (K.seen disk.new ≡ K.seen disk.old) }
    ensures images { Where (K.tells disk.old) (AddsNone (K.may_leave disk.old) (K.may_leave disk.new)) }
    ensures moments { Where (K.tells disk.old)
        (LeavesOnly K.moment K.left_since disk.old disk.new (K.may_leave disk.old)) }
    ensures told { K.tells disk.new ≡ K.tells disk.old }
    ensures count { K.faults disk.old ≤ K.faults disk.new }
    ensures cause { IsErrOf result Store → Rose (K.faults disk.old) (K.faults disk.new) }
{
    match head_at(disk, place)? {
        Head::Closed => Ok(None),
        Head::Broken => Err(LogRefusal::Broken),
        Head::Entry(len) => Ok(Some(text_at(alloc, disk, place + 9, len)?)),
    }
}

// Reads what stands at this place.
fn head_at<K: Disk>(disk: &mut K, place: u64) -> Result<Head, Failed>
    ensures head { Where (K.tells disk.old) (IfOk result (λ head. IsHead (K.seen disk.old) place head)) }
    ensures bound { IfOk result (λ head. HasEnd place head) }
    ensures seen { Where (K.tells disk.old) (K.seen disk.new ≡ K.seen disk.old) }
    ensures images { Where (K.tells disk.old) (AddsNone (K.may_leave disk.old) (K.may_leave disk.new)) }
    ensures moments { Where (K.tells disk.old)
        (LeavesOnly K.moment K.left_since disk.old disk.new (K.may_leave disk.old)) }
    ensures told { K.tells disk.new ≡ K.tells disk.old }
    ensures cause { HasCause (K.faults disk.old) (K.faults disk.new) result }
{
    let mut front = [0; 9];
    let count = disk.read(place, &mut front)?;
    let file_len = disk.len()?;
    Ok(head_of(&front[..count], place, file_len))
}

// Reads the string of an entry, whose bytes begin at this place.
fn text_at<K: Disk>(
    alloc: Global,
    disk: &mut K,
    place: u64,
    len: u64,
) -> Result<Vec<u8>, LogRefusal>
    requires { Where (K.tells disk.old) (place + len ≤ length (K.seen disk.old)) }
    ensures text { Where (K.tells disk.old) (IfOk result (λ text. text.items ≡ take len (drop place (K.seen disk.old)))) }
    ensures len { IfOk result (λ text. length text.items ≡ len) }
    ensures whole { Where (K.tells disk.old) (IsErrOf result Broken → ⊥) }
    ensures seen { Where (K.tells disk.old) (K.seen disk.new ≡ K.seen disk.old) }
    ensures images { Where (K.tells disk.old) (AddsNone (K.may_leave disk.old) (K.may_leave disk.new)) }
    ensures moments { Where (K.tells disk.old)
        (LeavesOnly K.moment K.left_since disk.old disk.new (K.may_leave disk.old)) }
    ensures told { K.tells disk.new ≡ K.tells disk.old }
    ensures count { K.faults disk.old ≤ K.faults disk.new }
    ensures cause { IsErrOf result Store → Rose (K.faults disk.old) (K.faults disk.new) }
{
    let mut text = vec![in alloc; 0; len as usize]?;
    let count = disk.read(place, &mut text)?;
    if count < text.len() {
        return Err(LogRefusal::Broken);
    }
    Ok(text)
}
