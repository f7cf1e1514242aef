//! A request as bytes.
ghost use Rattle.std.specs.Prelude.{◌≡◌, ◌++◌, [], ◌∷◌, IfOk, OnOk};
ghost use Rattle.pj_name.specs.Name.{hex};
ghost use Rattle.pj_change.specs.Text.{line};
ghost use Rattle.pj_wire.specs.Requests.{spelling, IsRequest};

use itoa::Buffer;
use pj_change::Memory;
use pj_machine::Command;
use std::alloc::{AllocError, Global};

/// Appends a line of one word.
fn put_word(out: &mut Vec<u8>, word: &[u8]) -> Result<(), AllocError>
    ensures { OnOk result (out.new.items ≡ out.old.items ++ line (word.now ∷ [])) }
{
    out.extend_from_slice(word)?;
    out.extend_from_slice(b"\n")
}

/// Appends a line of two words.
fn put_two(out: &mut Vec<u8>, verb: &[u8], word: &[u8]) -> Result<(), AllocError>
    ensures { OnOk result (out.new.items ≡ out.old.items ++ line (verb.now ∷ word.now ∷ [])) }
{
    out.extend_from_slice(verb)?;
    out.extend_from_slice(b" ")?;
    put_word(out, word)
}

/// Appends a line of three words.
fn put_three(out: &mut Vec<u8>, verb: &[u8], first: &[u8], second: &[u8]) -> Result<(), AllocError>
    ensures { OnOk result (out.new.items ≡ out.old.items ++ line (verb.now ∷ first.now ∷ second.now ∷ [])) }
{
    out.extend_from_slice(verb)?;
    out.extend_from_slice(b" ")?;
    put_two(out, first, second)
}

/// Appends the request to store a text.
fn put_text(out: &mut Vec<u8>, text: &[u8]) -> Result<(), AllocError>
    ensures { OnOk result (out.new.items ≡ out.old.items ++ spelling (Command.Put text.now)) }
{
    let mut buffer = Buffer::new();
    put_two(out, b"put", buffer.format(text.len()).as_bytes())?;
    put_word(out, text)
}

/// Appends a request.
fn put_request(out: &mut Vec<u8>, command: &Command) -> Result<(), AllocError>
    ensures { OnOk result (out.new.items ≡ out.old.items ++ spelling command.now) }
{
    match command {
        Command::Put(text) => put_text(out, text.items()),
        Command::Get(change) => put_two(out, b"get", &change.hex()),
        Command::Inverse(change) => put_two(out, b"inverse", &change.hex()),
        Command::New(name) => put_two(out, b"new", name.bytes()),
        Command::Fork(from, to) => put_three(out, b"fork", from.bytes(), to.bytes()),
        Command::Drop(name) => put_two(out, b"drop", name.bytes()),
        Command::Apply(name, change) => put_three(out, b"apply", name.bytes(), &change.hex()),
        Command::Unrecord(name, change) => put_three(out, b"unrecord", name.bytes(), &change.hex()),
        Command::Uproot(name, change) => put_three(out, b"uproot", name.bytes(), &change.hex()),
        Command::Pull(to, from) => put_three(out, b"pull", to.bytes(), from.bytes()),
        Command::Graph(name) => put_two(out, b"graph", name.bytes()),
        Command::Print(name) => put_two(out, b"print", name.bytes()),
        Command::Log(name) => put_two(out, b"log", name.bytes()),
        Command::Channels => put_word(out, b"channels"),
        Command::Journal => put_word(out, b"journal"),
        Command::Quit => put_word(out, b"quit"),
    }
}

/// The one spelling of a request, which a decoder reads as the command.
///
/// # Errors
/// `Memory` where there was no memory for it.
pub fn write_request(alloc: Global, command: &Command) -> Result<Vec<u8>, Memory>
    requires { IsRequest command.now }
    ensures { IfOk result (λ bytes. bytes.items ≡ spelling command.now) }
{
    let mut bytes = Vec::new(alloc);
    put_request(&mut bytes, command)?;
    Ok(bytes)
}
