//! The body of `journal`, line by line.
ghost use Rattle.std.specs.Prelude.{◌≡◌, ◌+◌, ◌≤◌, ◌<◌, ◌^◌, ◌++◌, ◌∷◌, [], length, take, decimal, IfOk, OnOk};
ghost use Rattle.std.specs.List.{flat_map};
ghost use Rattle.pj_name.specs.Name.{hex};
ghost use Rattle.pj_machine.specs.JournalText.{write_words, entry_line, journal_text};

use crate::channel_name::ChannelName;
use crate::command::Write;
use crate::journal::Entry;
use itoa::Buffer;
use pj_change::{Bytes, Memory};
use pj_name::Name;
use std::alloc::{AllocError, Global};

/// How many bytes the line of an entry may have.
const LONGEST: usize = 256;

/// Puts the bytes behind the first `at`, and says how many there are then.
fn put(into: &mut [u8; LONGEST], at: usize, bytes: &[u8]) -> usize
    requires { at + length bytes.now ≤ 256 }
    ensures end { result ≡ at + length bytes.now }
    ensures bytes { take result into.new ≡ take at into.old ++ bytes.now }
{
    let end = at + bytes.len();
    into[at..end].copy_from_slice(bytes);
    end
}

/// Puts a space and a word.
fn put_word(into: &mut [u8; LONGEST], at: usize, word: &[u8]) -> usize
    requires { at + length word.now < 256 }
    ensures end { result ≡ at + length word.now + 1 }
    ensures bytes { take result into.new ≡ take at into.old ++ 32 ∷ word.now }
{
    let at = put(into, at, b" ");
    put(into, at, word)
}

/// Puts a decimal number, which has at most 20 digits.
fn put_number(into: &mut [u8; LONGEST], at: usize, number: u64) -> usize
    requires { at + 20 ≤ 256 }
    ensures end { result ≤ at + 20 }
    ensures bytes { take result into.new ≡ take at into.old ++ decimal number }
{
    let mut buffer = Buffer::new();
    put(into, at, buffer.format(number).as_bytes())
}

/// Puts a space and a decimal number.
fn put_next_number(into: &mut [u8; LONGEST], at: usize, number: u64) -> usize
    requires { at + 21 ≤ 256 }
    ensures end { result ≤ at + 21 }
    ensures bytes { take result into.new ≡ take at into.old ++ 32 ∷ decimal number }
{
    let at = put(into, at, b" ");
    put_number(into, at, number)
}

/// Puts a word and the name of a change, each behind a space.
fn put_named(into: &mut [u8; LONGEST], at: usize, word: &[u8], change: Name) -> usize
    requires { at + length word.now + 66 ≤ 256 }
    ensures end { result ≡ at + length word.now + 66 }
    ensures bytes { take result into.new ≡ take at into.old ++ flat_map (λ word. 32 ∷ word) (word.now ∷ hex change.bytes ∷ []) }
{
    let at = put_word(into, at, word);
    put_word(into, at, &change.hex())
}

/// Puts a word and the name of a channel, each behind a space.
fn put_channel(into: &mut [u8; LONGEST], at: usize, word: &[u8], name: &ChannelName) -> usize
    requires { at + length word.now + 66 ≤ 256 }
    ensures end { result ≤ at + length word.now + 66 }
    ensures bytes { take result into.new ≡ take at into.old ++ flat_map (λ word. 32 ∷ word) (word.now ∷ name.now ∷ []) }
{
    let at = put_word(into, at, word);
    put_word(into, at, name.bytes())
}

/// Puts a word and the names of two channels, each behind a space.
fn put_channels(
    into: &mut [u8; LONGEST],
    at: usize,
    word: &[u8],
    first: &ChannelName,
    second: &ChannelName,
) -> usize
    requires { at + length word.now + 131 ≤ 256 }
    ensures end { result ≤ at + length word.now + 131 }
    ensures bytes { take result into.new ≡ take at into.old ++ flat_map (λ word. 32 ∷ word) (word.now ∷ first.now ∷ second.now ∷ []) }
{
    let at = put_channel(into, at, word, first);
    put_word(into, at, second.bytes())
}

/// Puts a word and the names of a channel and of a change, each behind a space.
fn put_change(
    into: &mut [u8; LONGEST],
    at: usize,
    word: &[u8],
    name: &ChannelName,
    change: Name,
) -> usize
    requires { at + length word.now + 131 ≤ 256 }
    ensures end { result ≤ at + length word.now + 131 }
    ensures bytes { take result into.new ≡ take at into.old ++ flat_map (λ word. 32 ∷ word) (word.now ∷ name.now ∷ hex change.bytes ∷ []) }
{
    let at = put_channel(into, at, word, name);
    put_word(into, at, &change.hex())
}

/// Puts the words of a write, each behind a space. The longest is `unrecord` with a channel and a change.
fn put_write(into: &mut [u8; LONGEST], at: usize, write: &Write) -> usize
    requires { at + 139 ≤ 256 }
    ensures end { result ≤ at + 139 }
    ensures bytes { take result into.new ≡ take at into.old ++ flat_map (λ word. 32 ∷ word) (write_words write.now) }
{
    match write {
        Write::Put(stored) => put_named(into, at, b"put", stored.record().name),
        Write::New(name) => put_channel(into, at, b"new", name),
        Write::Fork(from, to) => put_channels(into, at, b"fork", from, to),
        Write::Drop(name) => put_channel(into, at, b"drop", name),
        Write::Apply(name, change) => put_change(into, at, b"apply", name, *change),
        Write::Unrecord(name, change) => put_change(into, at, b"unrecord", name, *change),
        Write::Uproot(name, change) => put_change(into, at, b"uproot", name, *change),
        Write::Pull(to, from) => put_channels(into, at, b"pull", to, from),
    }
}

/// Writes the line of the entry at a place, counted from 1, into the buffer, and answers how many bytes it has. It takes no memory.
pub fn journal_line(place: u64, entry: &Entry, into: &mut [u8; 256]) -> usize
    ensures bound { result ≤ 256 }
    ensures bytes { take result into.new ≡ entry_line place entry.now }
{
    let at = put_number(into, 0, place);
    let at = put_next_number(into, at, u64::from(entry.pass));
    let at = put_next_number(into, at, entry.call);
    let at = put_write(into, at, &entry.write);
    put(into, at, b"\n")
}

/// Appends the line of the entry at a place.
fn put_line(out: &mut Vec<u8>, place: u64, entry: &Entry) -> Result<(), AllocError>
    ensures { OnOk result (out.new.items ≡ out.old.items ++ entry_line place entry.now) }
{
    let mut line = [0; LONGEST];
    let len = journal_line(place, entry, &mut line);
    out.extend_from_slice(&line[..len])
}

/// Appends a line for each entry.
fn put_lines(out: &mut Vec<u8>, entries: &[Entry]) -> Result<(), AllocError>
    ensures { OnOk result (out.new.items ≡ out.old.items ++ journal_text entries.now) }
{
    for (index, entry) in entries.iter().enumerate() {
        put_line(out, index as u64 + 1, entry)?;
    }
    Ok(())
}

/// The body of `journal`: a line for each entry of the journal.
///
/// # Errors
/// `Memory` where there was no memory for it.
pub fn journal_body(alloc: Global, entries: &[Entry]) -> Result<Bytes, Memory>
    ensures { IfOk result (λ body. body ≡ journal_text entries.now) }
{
    let mut text = Vec::new(alloc);
    put_lines(&mut text, entries)?;
    Ok(Bytes::of(text))
}
