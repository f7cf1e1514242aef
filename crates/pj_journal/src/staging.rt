//! The runs of calls of a disk by which strings are staged, and then stored.
ghost use Rattle.std.specs.Prelude.{◌≡◌, ◌⊎◌, ◌≤◌, ◌<◌, ◌+◌, ◌^◌, ◌++◌, [], ◌∷◌, ℕ, List, length, IfOk, OnOk};
ghost use Rattle.pj_disk.specs.Told.{Where};
ghost use Rattle.pj_disk.specs.Causes.{HasCause};
ghost use Rattle.pj_disk.specs.Image.{overwritten, Torn, Only};
ghost use Rattle.pj_disk.specs.Moments.{LeavesOnly};
ghost use Rattle.pj_journal.specs.Format.{framed, IsStorable};
ghost use Rattle.pj_journal.specs.Stored.{IsClosedAt};
ghost use Rattle.pj_journal.specs.Group.{Stages, HasPrefix, KeepsPrefix, gate_opened};

use crate::steps::write_and_sync;
use pj_disk::{Disk, Failed};

/// Writes without a sync, and answers the place behind what was written.
fn write_on<K: Disk>(disk: &mut K, at: u64, bytes: &[u8]) -> Result<u64, Failed>
    requires { Where (K.tells disk.old) (at ≤ length (K.seen disk.old)) }
    ensures end { IfOk result (λ end. end ≡ at + length bytes.now) }
    ensures bound { IfOk result (λ end. end < 2 ^ 63) }
    ensures within { Where (K.tells disk.old) (IfOk result (λ end. end ≤ length (K.seen disk.new))) }
    ensures seen { Where (K.tells disk.old) (OnOk result (K.seen disk.new ≡ overwritten (K.seen disk.old) at bytes.now)) }
    ensures keeps { Where (K.tells disk.old) ((n : ℕ) → n ≤ at
        → ((c : List ℕ) → K.may_leave disk.old c → HasPrefix n (K.seen disk.old) c)
        → KeepsPrefix K.seen K.may_leave K.moment K.left_since n disk.old disk.new) }
    ensures told { K.tells disk.new ≡ K.tells disk.old }
    ensures cause { HasCause (K.faults disk.old) (K.faults disk.new) result }
{
    disk.write_at(at, bytes)?;
    Ok(at + bytes.len() as u64)
}

/// Writes an entry of three parts behind the gate at this place, and a closed gate behind it, without a sync. It answers the
/// place of that gate.
fn write_entry<K: Disk>(
    disk: &mut K,
    gate: u64,
    head: &[u8],
    body: &[u8],
    tail: &[u8],
) -> Result<u64, Failed>
    requires gate { gate < 2 ^ 63 }
    requires storable { IsStorable (head.now ++ body.now ++ tail.now) }
    requires within { Where (K.tells disk.old) (gate + 1 ≤ length (K.seen disk.old)) }
    ensures end { IfOk result (λ end. end ≡ gate + (9 + length (head.now ++ body.now ++ tail.now))) }
    ensures bound { IfOk result (λ end. end < 2 ^ 63) }
    ensures seen { Where (K.tells disk.old) (OnOk result
        (K.seen disk.new ≡ overwritten (K.seen disk.old) (gate + 1) (framed (head.now ++ body.now ++ tail.now)))) }
    ensures keeps { Where (K.tells disk.old) ((n : ℕ) → n ≤ gate + 1
        → ((c : List ℕ) → K.may_leave disk.old c → HasPrefix n (K.seen disk.old) c)
        → KeepsPrefix K.seen K.may_leave K.moment K.left_since n disk.old disk.new) }
    ensures told { K.tells disk.new ≡ K.tells disk.old }
    ensures cause { HasCause (K.faults disk.old) (K.faults disk.new) result }
{
    let len = head.len() + body.len() + tail.len();
    let text = write_on(disk, gate + 1, &(len as u64).to_be_bytes())?;
    let middle = write_on(disk, text, head)?;
    let last = write_on(disk, middle, body)?;
    let end = write_on(disk, last, tail)?;
    write_on(disk, end, &[0])?;
    Ok(end)
}

/// Writes an entry of three parts behind what is staged, without a sync, and opens the gate before it where that is not the
/// first one, which stays closed. It answers where the gate behind it stands.
pub fn stage_at<K: Disk>(
    disk: &mut K,
    place: u64,
    end: u64,
    head: &[u8],
    body: &[u8],
    tail: &[u8],
) -> Result<u64, Failed>
    requires order { place ≤ end }
    requires bound { end < 2 ^ 63 }
    requires storable { IsStorable (head.now ++ body.now ++ tail.now) }
    requires closed { Where (K.tells disk.old) (IsClosedAt (K.seen disk.old) end) }
    ensures end { IfOk result (λ next. next ≡ end + (9 + length (head.now ++ body.now ++ tail.now))) }
    ensures bound { IfOk result (λ next. next < 2 ^ 63) }
    ensures staged { Where (K.tells disk.old) (IfOk result (λ next. (group : List (List ℕ)) → Stages (K.seen disk.old) place end group
        → Stages (K.seen disk.new) place next (group ++ (head.now ++ body.now ++ tail.now) ∷ []))) }
    ensures keeps { Where (K.tells disk.old)
        (((c : List ℕ) → K.may_leave disk.old c → HasPrefix (place + 1) (K.seen disk.old) c)
        → KeepsPrefix K.seen K.may_leave K.moment K.left_since (place + 1) disk.old disk.new) }
    ensures told { K.tells disk.new ≡ K.tells disk.old }
    ensures cause { HasCause (K.faults disk.old) (K.faults disk.new) result }
{
    let next = write_entry(disk, end, head, body, tail)?;
    if place < end {
        write_on(disk, end, &[1])?;
    }
    Ok(next)
}

/// Syncs what stands behind the closed gate at this place, and then opens the gate, with a sync.
pub fn open_gate<K: Disk>(disk: &mut K, place: u64) -> Result<(), Failed>
    requires closed { Where (K.tells disk.old) (IsClosedAt (K.seen disk.old) place) }
    requires kept { Where (K.tells disk.old) ((c : List ℕ) → K.may_leave disk.old c → HasPrefix (place + 1) (K.seen disk.old) c) }
    ensures seen { Where (K.tells disk.old) (OnOk result (K.seen disk.new ≡ gate_opened (K.seen disk.old) place)) }
    ensures durable { Where (K.tells disk.old) (OnOk result (Only (K.seen disk.new) (K.may_leave disk.new))) }
    ensures moments { Where (K.tells disk.old) (LeavesOnly K.moment K.left_since disk.old disk.new
        (λ c. HasPrefix (place + 1) (K.seen disk.old) c ⊎ Torn place 1 (K.seen disk.old) c)) }
    ensures told { K.tells disk.new ≡ K.tells disk.old }
    ensures cause { HasCause (K.faults disk.old) (K.faults disk.new) result }
{
    disk.sync()?;
    write_and_sync(disk, place, &[1])
}
