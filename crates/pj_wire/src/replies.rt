//! A reply up to its body.
ghost use Rattle.std.specs.Prelude.{◌≡◌, ◌+◌, ◌≤◌, ◌<◌, ◌++◌, ◌∷◌, length, take, decimal};
ghost use Rattle.pj_name.specs.Name.{hex};
ghost use Rattle.pj_change.specs.Children.{point_text};
ghost use Rattle.pj_wire.specs.Replies.{head_of, reason, IsReason, IsReply};

use itoa::Buffer;
use pj_change::Point;
use pj_machine::{Numbered, Refusal, Reply};
use pj_name::Name;

/// How many bytes a reply may have up to its body.
const LONGEST: usize = 160;

/// Puts the bytes behind the first `at`, and says how many there are then.
fn put(into: &mut [u8; LONGEST], at: usize, bytes: &[u8]) -> usize
    requires { at + length bytes.now ≤ 160 }
    ensures end { result ≡ at + length bytes.now }
    ensures bytes { take result into.new ≡ take at into.old ++ bytes.now }
{
    let end = at + bytes.len();
    into[at..end].copy_from_slice(bytes);
    end
}

/// Puts a decimal number, which has at most 20 digits.
fn put_number(into: &mut [u8; LONGEST], at: usize, number: u64) -> usize
    requires { at + 20 ≤ 160 }
    ensures end { result ≤ at + 20 }
    ensures bytes { take result into.new ≡ take at into.old ++ decimal number }
{
    let mut buffer = Buffer::new();
    put(into, at, buffer.format(number).as_bytes())
}

/// Puts a word and the name of a change behind it.
fn put_named(into: &mut [u8; LONGEST], at: usize, word: &[u8], change: Name) -> usize
    requires { at + length word.now + 64 ≤ 160 }
    ensures end { result ≡ at + length word.now + 64 }
    ensures bytes { take result into.new ≡ take at into.old ++ (word.now ++ hex change.bytes) }
{
    let at = put(into, at, word);
    put(into, at, &change.hex())
}

/// Puts a word and a number behind it.
fn put_numbered(into: &mut [u8; LONGEST], at: usize, word: &[u8], number: u64) -> usize
    requires { at + length word.now + 20 ≤ 160 }
    ensures end { result ≤ at + length word.now + 20 }
    ensures bytes { take result into.new ≡ take at into.old ++ (word.now ++ decimal number) }
{
    let at = put(into, at, word);
    put_number(into, at, number)
}

/// Puts a word and a point behind it: its change, a full stop, and its offset.
fn put_point(into: &mut [u8; LONGEST], at: usize, word: &[u8], point: Point) -> usize
    requires { at + length word.now + 85 ≤ 160 }
    ensures end { result ≤ at + length word.now + 85 }
    ensures bytes { take result into.new ≡ take at into.old ++ (word.now ++ point_text point) }
{
    let at = put_named(into, at, word, point.change);
    put_numbered(into, at, b".", u64::from(point.offset))
}

/// Puts why a command was refused.
fn put_reason(into: &mut [u8; LONGEST], at: usize, refusal: Refusal) -> usize
    requires { at + 100 ≤ 160 }
    ensures end { result ≤ at + 100 }
    ensures bytes { take result into.new ≡ take at into.old ++ reason refusal }
    ensures small { IsReason refusal }
{
    match refusal {
        Refusal::Channel => put(into, at, b"channel"),
        Refusal::Taken => put(into, at, b"taken"),
        Refusal::Change => put(into, at, b"change"),
        Refusal::Malformed => put(into, at, b"malformed"),
        Refusal::Clash => put(into, at, b"clash"),
        Refusal::Needs(change) => put_named(into, at, b"needs ", change),
        Refusal::Context(hunk) => put_numbered(into, at, b"context ", u64::from(hunk)),
        Refusal::Absent => put(into, at, b"absent"),
        Refusal::Held(change) => put_named(into, at, b"held ", change),
        Refusal::Wide(inode) => put_point(into, at, b"wide ", inode),
        Refusal::Inverse(hunk) => put_numbered(into, at, b"inverse ", u64::from(hunk)),
        Refusal::FullStore => put(into, at, b"full store"),
        Refusal::FullChannels => put(into, at, b"full channels"),
        Refusal::FullJournal => put(into, at, b"full journal"),
    }
}

/// Writes a reply up to its body into the buffer, and answers how many bytes it has. It takes no memory.
///
/// Each reply is one that can be read back: its numbers are below 2 ^ 64.
pub fn head(numbered: &Numbered, into: &mut [u8; 160]) -> usize
    ensures bound { result ≤ 160 }
    ensures bytes { take result into.new ≡ head_of numbered.now }
    ensures small { IsReply numbered.now }
{
    let Numbered::At { place, reply } = numbered else {
        return put(into, 0, b"no memory\n");
    };
    match reply {
        Reply::Done => {
            let at = put_numbered(into, 0, b"ok ", *place);
            put(into, at, b"\n")
        }
        Reply::Named(change) => {
            let at = put_numbered(into, 0, b"ok ", *place);
            let at = put_named(into, at, b" ", *change);
            put(into, at, b"\n")
        }
        Reply::Already => {
            let at = put_numbered(into, 0, b"ok ", *place);
            put(into, at, b" already\n")
        }
        Reply::AlreadyNamed(change) => {
            let at = put_numbered(into, 0, b"ok ", *place);
            let at = put_named(into, at, b" already ", *change);
            put(into, at, b"\n")
        }
        Reply::Body(body) => {
            let at = put_numbered(into, 0, b"ok ", *place);
            let at = put_numbered(into, at, b" ", body.items().len() as u64);
            put(into, at, b"\n")
        }
        Reply::No(refusal) => {
            let at = put_numbered(into, 0, b"no ", *place);
            let at = put(into, at, b" ");
            let at = put_reason(into, at, *refusal);
            put(into, at, b"\n")
        }
    }
}
