//! The length of a change's text, found without the text. Every length is in bytes.

ghost use Rattle.std.specs.Prelude.{◌≡◌, ◌^◌, ◌+◌, ◌*◌, ◌<◌, ◌≤◌, [], ◌↔◌, length, decimal, IsTrue, flat_map};
ghost use Rattle.pj_change.specs.Text.{reference, references, owners, range, hunk_text, text_of};
ghost use Rattle.pj_change.specs.Parts.{parts};
ghost use Rattle.pj_change.specs.Rules.{KeepsRules, are_hunks};

use crate::hunk::Hunk;
use crate::limits::{MOST_KNOWN_NAMES, MOST_LINE_BYTES, MOST_LIST_MEMBERS, MOST_NEEDS};
use crate::point::Ref;
use crate::rules::is_hunk;
use pj_name::Name;

/// The words and the line ends of a text without needs, knows and hunks.
const LINES: u64 = b"pijul change \nmessage \nauthor \ntime \nend\n".len() as u64;

/// A line `needs` or `knows` with the 64 digits of a name.
const NAME_LINE: u64 = b"needs \n".len() as u64 + 64;

/// How many decimal digits a number has.
fn digits(number: u64) -> u64
    ensures exact { result ≡ length (decimal number) }
    ensures few { result ≤ 20 }
{
    match number.checked_ilog10() {
        None => 1,
        Some(log) => u64::from(log) + 1,
    }
}

/// The length of a reference.
#[tactic(auto, unfolding(crate::specs::Text::reference))]
fn reference_length(at: Ref) -> u64
    ensures exact { result ≡ length (reference at) }
    ensures few { result ≤ 41 }
{
    match at {
        Ref::Root => 4,
        Ref::At { owner, offset } => digits(u64::from(owner)) + 1 + digits(u64::from(offset)),
    }
}

/// The length of a list of references, the commas included.
fn references_length(refs: &[Ref]) -> u64
    requires { length refs.now ≤ MOST_LIST_MEMBERS }
    ensures exact { result ≡ length (references refs.now) }
    ensures few { result ≤ MOST_LIST_MEMBERS * 42 }
{
    if refs.is_empty() {
        return 1;
    }
    let mut length = 0;
    for at in refs {
        length += reference_length(*at) + 1;
    }
    length - 1
}

/// The length of a list of numbers of needs, the commas included.
fn owners_length(by: &[u32]) -> u64
    requires some { 1 ≤ length by.now }
    requires few { length by.now ≤ MOST_LIST_MEMBERS }
    ensures exact { result ≡ length (owners by.now) }
    ensures few { result ≤ MOST_LIST_MEMBERS * 21 }
{
    let mut length = 0;
    for owner in by {
        length += digits(u64::from(*owner)) + 1;
    }
    length - 1
}

/// The length of a range of positions of a need.
#[tactic(auto, unfolding(crate::specs::Text::range))]
fn range_length(owner: u32, start: u32, end: u32) -> u64
    ensures exact { result ≡ length (range owner start end) }
    ensures few { result ≤ 62 }
{
    digits(u64::from(owner)) + 1 + digits(u64::from(start)) + 1 + digits(u64::from(end))
}

/// The length of a hunk's text: of its line, and of the bytes and the newline that follow an insertion.
pub(crate) fn hunk_length(hunk: &Hunk) -> u64
    requires { KeepsRules hunk.now }
    ensures exact { result ≡ length (hunk_text hunk.now) }
    ensures bounded { result ≤ 2 ^ 63 + 8192 }
{
    let word = hunk.word().len() as u64;
    match hunk {
        Hunk::File { parent, name, .. } | Hunk::Dir { parent, name } => {
            word + 1 + reference_length(*parent) + 1 + name.items().len() as u64 + 1
        }
        Hunk::NameOf {
            parent,
            child,
            name,
            ..
        } => {
            word + 1
                + reference_length(*parent)
                + 1
                + reference_length(*child)
                + 1
                + name.items().len() as u64
                + 1
        }
        Hunk::Insert {
            file,
            ups,
            downs,
            bytes,
        } => {
            let bytes = bytes.items().len() as u64;
            word + 1
                + reference_length(*file)
                + b" after ".len() as u64
                + references_length(ups.items())
                + b" before ".len() as u64
                + references_length(downs.items())
                + 1
                + digits(bytes)
                + 1
                + bytes
                + 1
        }
        Hunk::Order {
            file,
            source,
            target,
        } => {
            word + 1
                + reference_length(*file)
                + 1
                + reference_length(*source)
                + 1
                + reference_length(*target)
                + 1
        }
        Hunk::Delete {
            owner,
            start,
            end,
            by,
        }
        | Hunk::Revive {
            owner,
            start,
            end,
            by,
        } => {
            word + 1
                + range_length(*owner, *start, *end)
                + b" by ".len() as u64
                + owners_length(by.items())
                + 1
        }
    }
}

/// The length of a text without hunks.
pub(crate) fn others_length(
    version: u8,
    message: &[u8],
    author: &[u8],
    time: u32,
    needs: &[Name],
    knows: &[Name],
) -> u64
    requires message { length message.now ≤ MOST_LINE_BYTES }
    requires author { length author.now ≤ MOST_LINE_BYTES }
    requires needs { length needs.now ≤ MOST_NEEDS }
    requires knows { length knows.now ≤ MOST_KNOWN_NAMES }
    ensures { result
        ≡ length (text_of (parts version message.now author.now time needs.now knows.now [])) }
{
    let names = (needs.len() + knows.len()) as u64;
    LINES
        + digits(u64::from(version))
        + message.len() as u64
        + author.len() as u64
        + digits(u64::from(time))
        + NAME_LINE * names
}

/// Whether the hunks keep their rules, in a change with so many needs, and a text with them and `others` other bytes has at most `limit` bytes.
pub(crate) fn hunks_fit(needs: usize, others: u64, limit: u64, hunks: &[Hunk]) -> bool
    requires { limit < 2 ^ 32 }
    ensures { IsTrue result
        ↔ (IsTrue (are_hunks needs 0 hunks.now)
        × (others + length (flat_map hunk_text hunks.now) ≤ limit)) }
{
    let mut first = 0;
    let mut length = others;
    for hunk in hunks {
        if length > limit {
            return false;
        }
        if !is_hunk(needs, first, hunk) {
            return false;
        }
        length += hunk_length(hunk);
        first += hunk.position_count() as u64;
    }
    length <= limit
}
