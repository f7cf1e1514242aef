//! The request at the front of bytes.
ghost use Rattle.std.specs.Prelude.{◌≡◌, ℕ, ◌≤◌, List, [], ◌∷◌, ◌++◌, length, MatchOption};
ghost use Rattle.pj_name.specs.declared.name.Name.{Name as NameModel};
ghost use Rattle.pj_name.specs.Name.{hex};
ghost use Rattle.pj_machine.specs.ChannelName.{IsChannelName};
ghost use Rattle.pj_machine.specs.declared.command.Command.TheVariants as command;
ghost use Rattle.pj_wire.specs.Requests.{spelling, IsRequest};
ghost use Rattle.pj_wire.specs.Spelled.{StandsNone};
ghost use Rattle.pj_wire.specs.Verbs.{word_of};
ghost use Rattle.pj_wire.specs.Lines.{HasNoBare, HasNoOfChange, HasNoOfChannel, HasNoOfChannels, HasNoOfChannelChange, IsNoLine};

use crate::fields::{change, channel, text, text_length};
use crate::verb::Verb;
use pj_machine::{ChannelName, Command};
use pj_name::Name;

/// Passes over this verb and the byte that ends it.
fn behind(bytes: &[u8], verb: Verb) -> Option<&[u8]>
    ensures { MatchOption result
        (StandsNone (λ (_ : Unit {0}). word_of verb) (λ _. Unit {0}) bytes.now)
        (λ rest. bytes.now ≡ word_of verb ++ rest.now) }
{
    let word = verb.word();
    if bytes.starts_with(word) {
        let (_, rest) = bytes.split_at(word.len());
        Some(rest)
    } else {
        None
    }
}

// ---- lines by what stands behind the verb

/// A verb and a change.
fn verb_change(bytes: &[u8], verb: Verb) -> Option<(Name, &[u8])>
    ensures { MatchOption result
        (StandsNone (λ (name : NameModel). word_of verb ++ (hex name.bytes ++ 10 ∷ [])) (λ _. Unit {0}) bytes.now)
        (λ read. bytes.now ≡ word_of verb ++ (hex read.0.bytes ++ 10 ∷ []) ++ read.1.now) }
{
    match behind(bytes, verb) {
        Some(rest) => change(rest),
        None => None,
    }
}

/// A verb and a channel.
fn verb_channel(bytes: &[u8], verb: Verb) -> Option<(ChannelName, &[u8])>
    ensures { MatchOption result
        (StandsNone (λ (name : List ℕ). word_of verb ++ (name ++ 10 ∷ [])) IsChannelName bytes.now)
        (λ read. IsChannelName read.0 × (bytes.now ≡ word_of verb ++ (read.0 ++ 10 ∷ []) ++ read.1.now)) }
{
    match behind(bytes, verb) {
        Some(rest) => channel(rest, b'\n'),
        None => None,
    }
}

/// A verb and two channels.
fn verb_channels(bytes: &[u8], verb: Verb) -> Option<(ChannelName, ChannelName, &[u8])>
    ensures { MatchOption result
        (StandsNone (λ (p : List ℕ × List ℕ). word_of verb ++ ((p.0 ++ 32 ∷ p.1) ++ 10 ∷ [])) (λ p. IsChannelName p.0 × IsChannelName p.1) bytes.now)
        (λ read. IsChannelName read.0 × IsChannelName read.1 × (bytes.now ≡ word_of verb ++ ((read.0 ++ 32 ∷ read.1) ++ 10 ∷ []) ++ read.2.now)) }
{
    let rest = match behind(bytes, verb) {
        Some(rest) => rest,
        None => return None,
    };
    match channel(rest, b' ') {
        Some(first) => match channel(first.1, b'\n') {
            Some(second) => Some((first.0, second.0, second.1)),
            None => None,
        },
        None => None,
    }
}

/// A verb, a channel and a change.
fn verb_channel_change(bytes: &[u8], verb: Verb) -> Option<(ChannelName, Name, &[u8])>
    ensures { MatchOption result
        (StandsNone (λ (p : List ℕ × NameModel). word_of verb ++ ((p.0 ++ 32 ∷ hex p.1.bytes) ++ 10 ∷ [])) (λ p. IsChannelName p.0) bytes.now)
        (λ read. IsChannelName read.0 × (bytes.now ≡ word_of verb ++ ((read.0 ++ 32 ∷ hex read.1.bytes) ++ 10 ∷ []) ++ read.2.now)) }
{
    let rest = match behind(bytes, verb) {
        Some(rest) => rest,
        None => return None,
    };
    match channel(rest, b' ') {
        Some(name) => match change(name.1) {
            Some(change) => Some((name.0, change.0, change.1)),
            None => None,
        },
        None => None,
    }
}

// ---- requests

/// A request to store a text: the text.
pub fn put(bytes: &[u8]) -> Option<(&[u8], &[u8])>
    ensures { MatchOption result
        (StandsNone (λ (text : List ℕ). spelling (command.Put text)) (λ text. length text ≤ 16777216) bytes.now)
        (λ read. (length read.0.now ≤ 16777216) × (bytes.now ≡ spelling (command.Put read.0.now) ++ read.1.now)) }
{
    let rest = match behind(bytes, Verb::Put) {
        Some(rest) => rest,
        None => return None,
    };
    match text_length(rest) {
        Some((count, rest)) => text(rest, count),
        None => None,
    }
}

/// A request of one word.
fn bare(bytes: &[u8]) -> Option<(Command, &[u8])>
    ensures { MatchOption result (HasNoBare bytes.now) (λ read. IsRequest read.0 × (bytes.now ≡ spelling read.0 ++ read.1.now)) }
{
    if let Some(rest) = behind(bytes, Verb::Channels) {
        return Some((Command::Channels, rest));
    }
    if let Some(rest) = behind(bytes, Verb::Journal) {
        return Some((Command::Journal, rest));
    }
    match behind(bytes, Verb::Quit) {
        Some(rest) => Some((Command::Quit, rest)),
        None => None,
    }
}

/// A request of a change alone.
fn of_change(bytes: &[u8]) -> Option<(Command, &[u8])>
    ensures { MatchOption result (HasNoOfChange bytes.now) (λ read. IsRequest read.0 × (bytes.now ≡ spelling read.0 ++ read.1.now)) }
{
    if let Some((change, rest)) = verb_change(bytes, Verb::Get) {
        return Some((Command::Get(change), rest));
    }
    match verb_change(bytes, Verb::Inverse) {
        Some((change, rest)) => Some((Command::Inverse(change), rest)),
        None => None,
    }
}

/// A request of one channel.
fn of_channel(bytes: &[u8]) -> Option<(Command, &[u8])>
    ensures { MatchOption result (HasNoOfChannel bytes.now) (λ read. IsRequest read.0 × (bytes.now ≡ spelling read.0 ++ read.1.now)) }
{
    if let Some((name, rest)) = verb_channel(bytes, Verb::Print) {
        return Some((Command::Print(name), rest));
    }
    if let Some((name, rest)) = verb_channel(bytes, Verb::Graph) {
        return Some((Command::Graph(name), rest));
    }
    if let Some((name, rest)) = verb_channel(bytes, Verb::Log) {
        return Some((Command::Log(name), rest));
    }
    if let Some((name, rest)) = verb_channel(bytes, Verb::New) {
        return Some((Command::New(name), rest));
    }
    match verb_channel(bytes, Verb::Drop) {
        Some((name, rest)) => Some((Command::Drop(name), rest)),
        None => None,
    }
}

/// A request of two channels.
fn of_channels(bytes: &[u8]) -> Option<(Command, &[u8])>
    ensures { MatchOption result (HasNoOfChannels bytes.now) (λ read. IsRequest read.0 × (bytes.now ≡ spelling read.0 ++ read.1.now)) }
{
    if let Some((to, from, rest)) = verb_channels(bytes, Verb::Pull) {
        return Some((Command::Pull(to, from), rest));
    }
    match verb_channels(bytes, Verb::Fork) {
        Some((from, to, rest)) => Some((Command::Fork(from, to), rest)),
        None => None,
    }
}

/// A request of a channel and a change.
fn of_channel_change(bytes: &[u8]) -> Option<(Command, &[u8])>
    ensures { MatchOption result (HasNoOfChannelChange bytes.now) (λ read. IsRequest read.0 × (bytes.now ≡ spelling read.0 ++ read.1.now)) }
{
    if let Some((name, change, rest)) = verb_channel_change(bytes, Verb::Apply) {
        return Some((Command::Apply(name, change), rest));
    }
    if let Some((name, change, rest)) = verb_channel_change(bytes, Verb::Unrecord) {
        return Some((Command::Unrecord(name, change), rest));
    }
    match verb_channel_change(bytes, Verb::Uproot) {
        Some((name, change, rest)) => Some((Command::Uproot(name, change), rest)),
        None => None,
    }
}

/// A request that is a line and no more, which is each one but `put`.
pub fn line(bytes: &[u8]) -> Option<(Command, &[u8])>
    ensures { MatchOption result (IsNoLine bytes.now) (λ read. IsRequest read.0 × (bytes.now ≡ spelling read.0 ++ read.1.now)) }
{
    match of_channel_change(bytes) {
        None => {}
        read => return read,
    }
    match of_channel(bytes) {
        None => {}
        read => return read,
    }
    match of_channels(bytes) {
        None => {}
        read => return read,
    }
    match of_change(bytes) {
        None => {}
        read => return read,
    }
    bare(bytes)
}
