//! A change, and its record, from a whole text.

ghost use Rattle.std.specs.Prelude.{◌≡◌, ◌≢◌, Some, IfOk, IsErrOf};
ghost use Rattle.pj_change.specs.declared.change.Change.{Change};
ghost use Rattle.pj_change.specs.Parts.{parts, spelling};
ghost use Rattle.pj_name.specs.Name.{name_of};
ghost use Rattle.pj_scan.specs.Scan.{rest as left};
ghost use Rattle.pj_text.specs.ChangeOfParts.{IsChangeOfParts, IsReadAs};
ghost use Rattle.pj_text.specs.Gives.{Gives};
ghost use Rattle.pj_text.specs.Reading.{end_at, parts_at};

use crate::fields::token;
use crate::header::{names, number_line, text_line, version};
use crate::hunks::hunks;
use crate::refusal::ReadRefusal;
use pj_change::{
    Bytes, Change, Hunks, MOST_KNOWN_NAMES, MOST_NEEDS, MOST_TEXT_BYTES, Names, Record,
};
use pj_scan::Scan;
use std::alloc::Global;

/// The line `end`, with nothing after it.
#[tactic(auto, unfolding(crate::specs::Reading::end_at))]
fn end(scan: &mut Scan<'_>) -> Result<(), ReadRefusal>
    ensures { Gives result (left scan.new) (end_at (left scan.old)) }
{
    token(scan, b"end\n")?;
    if !scan.rest().is_empty() {
        return Err(ReadRefusal::Malformed);
    }
    Ok(())
}

/// The change of these parts, if they keep the rules.
fn ruled(
    version: u8,
    message: Bytes,
    author: Bytes,
    time: u32,
    needs: Names,
    knows: Names,
    hunks: Hunks,
) -> Result<Change, ReadRefusal>
    ensures { IsChangeOfParts result (Some (parts version message author time needs knows hunks)) }
{
    Change::of(version, message, author, time, needs, knows, hunks).ok_or(ReadRefusal::Malformed)
}

/// The change of the parts that are read, if they keep the rules.
#[tactic(auto, unfolding(crate::specs::Reading::parts_at))]
fn change_of(alloc: Global, text: &[u8]) -> Result<Change, ReadRefusal>
    ensures { IsChangeOfParts result (parts_at text.now) }
{
    let mut scan = Scan::new(text);
    let version = version(&mut scan)?;
    let message = text_line(alloc, &mut scan, b"message ")?;
    let author = text_line(alloc, &mut scan, b"author ")?;
    let time = number_line(&mut scan, b"time ")?;
    let needs = names(alloc, &mut scan, b"needs ", MOST_NEEDS)?;
    let knows = names(alloc, &mut scan, b"knows ", MOST_KNOWN_NAMES)?;
    let hunks = hunks(alloc, &mut scan)?;
    end(&mut scan)?;
    ruled(version, message, author, time, needs, knows, hunks)
}

/// The change that the text spells.
///
/// A text of more than 16,777,216 bytes spells no change, and nothing of it is read. Of any other
/// text the bytes of its names and insertions are copied once. Besides them the change takes at
/// most 8 MiB: for 1,280 names of changes, and 4,096 hunks with 128 references each.
pub fn read(alloc: Global, text: &[u8]) -> Result<Change, ReadRefusal>
    // What is read is spelled so.
    ensures spelled { IfOk result (λ change. text.now ≡ spelling change) }
    // What is malformed is spelled by no change.
    ensures malformed { IsErrOf result ReadRefusal.Malformed → (change : Change) → text.now ≢ spelling change }
    // The spelling of a change is read as this change, unless memory runs out.
    ensures again { (change : Change) → text.now ≡ spelling change → IsReadAs change result }
{
    if text.len() > MOST_TEXT_BYTES {
        return Err(ReadRefusal::Malformed);
    }
    change_of(alloc, text)
}

/// The record of the change that the text spells: the change, its text, and the text's name.
///
/// It takes the memory of [`read`], and that of a copy of the text.
pub fn read_record(alloc: Global, text: &[u8]) -> Result<Record, ReadRefusal>
    ensures text { IfOk result (λ r. r.text ≡ text.now) }
    ensures name { IfOk result (λ r. r.name ≡ name_of text.now) }
    ensures spelled { IfOk result (λ r. text.now ≡ spelling r.change) }
    // What is malformed is spelled by no change.
    ensures malformed { IsErrOf result ReadRefusal.Malformed → (change : Change) → text.now ≢ spelling change }
{
    let change = read(alloc, text)?;
    let text = Bytes::of(Vec::from_slice(alloc, text)?);
    Ok(Record::of(text, change))
}
