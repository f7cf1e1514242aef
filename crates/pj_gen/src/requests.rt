//! The requests of the scripts.
ghost use Rattle.std.specs.Prelude.{◌≡◌, ◌++◌, ◌<◌, All, OnOk, IfOk};
ghost use Rattle.std.specs.List.{flat_map};
ghost use Rattle.pj_name.specs.Name.{name_of as name_of_text};
ghost use Rattle.pj_machine.specs.declared.command.Command.TheVariants as command;
ghost use Rattle.pj_wire.specs.Requests.{spelling, spellings};
ghost use Rattle.pj_gen.specs.Changes.{line_name as name_of_line, zero_text, zero_name};
ghost use Rattle.pj_gen.specs.Requests.{main, opening_requests, requests_for, closing_requests, script};

use crate::lines::{put_three, put_two, put_word};
use crate::names::{EIGHT, line_name};
use itoa::Buffer;
use pj_name::Name;
use std::alloc::{AllocError, Global};

/// Appends the request to store a text.
fn put_put(out: &mut Vec<u8>, text: &[u8]) -> Result<(), AllocError>
    ensures { OnOk result (out.new.items ≡ out.old.items ++ spelling (command.Put text.now)) }
{
    let mut buffer = Buffer::new();
    put_two(out, b"put", buffer.format(text.len()).as_bytes())?;
    put_word(out, text)
}

/// Appends the request to apply a change to a channel.
fn put_apply(out: &mut Vec<u8>, channel: &[u8], name: Name) -> Result<(), AllocError>
    ensures { OnOk result (out.new.items ≡ out.old.items ++ spelling (command.Apply channel.now name)) }
{
    put_three(out, b"apply", channel, &name.hex())
}

/// Appends the request to take a change out of a channel.
fn put_unrecord(out: &mut Vec<u8>, channel: &[u8], name: Name) -> Result<(), AllocError>
    ensures { OnOk result (out.new.items ≡ out.old.items ++ spelling (command.Unrecord channel.now name)) }
{
    put_three(out, b"unrecord", channel, &name.hex())
}

/// Appends the requests for a change of a line: where it has to be, and out of its line and in again for every fifteenth.
pub(crate) fn put_change(
    out: &mut Vec<u8>,
    line: u8,
    number: u32,
    text: &[u8],
    name: Name,
) -> Result<(), AllocError>
    requires line { line < 8 }
    requires name { name ≡ name_of_text text.now }
    ensures { OnOk result (out.new.items ≡ out.old.items ++ spellings (requests_for line number text.now)) }
{
    let channel = line_name(line);
    put_put(out, text)?;
    put_apply(out, &channel, name)?;
    put_apply(out, b"main", name)?;
    if number % 15 == 0 {
        put_unrecord(out, &channel, name)?;
        put_apply(out, &channel, name)?;
    }
    Ok(())
}

/// Appends the requests for channels of lines, with the changes of `main`.
fn put_forks(out: &mut Vec<u8>, lines: &[u8]) -> Result<(), AllocError>
    requires { All (λ l. l < 8) lines.now }
    ensures { OnOk result (out.new.items ≡ out.old.items ++ flat_map (λ l. spelling (command.Fork main (name_of_line l))) lines.now) }
{
    for line in lines {
        put_three(out, b"fork", b"main", &line_name(*line))?;
    }
    Ok(())
}

/// Appends the requests to print the channels of lines.
fn put_prints(out: &mut Vec<u8>, lines: &[u8]) -> Result<(), AllocError>
    requires { All (λ l. l < 8) lines.now }
    ensures { OnOk result (out.new.items ≡ out.old.items ++ flat_map (λ l. spelling (command.Print (name_of_line l))) lines.now) }
{
    for line in lines {
        put_two(out, b"print", &line_name(*line))?;
    }
    Ok(())
}

/// Appends the request to quit.
pub(crate) fn put_quit(out: &mut Vec<u8>) -> Result<(), AllocError>
    ensures { OnOk result (out.new.items ≡ out.old.items ++ spelling command.Quit) }
{
    put_word(out, b"quit")
}

/// The script of the prelude, which puts change 0 into every channel.
#[tactic(auto, unfolding(crate::specs::Requests::opening_requests))]
pub(crate) fn prelude(alloc: Global, text: &[u8], name: Name) -> Result<Vec<u8>, AllocError>
    requires text { text.now ≡ zero_text }
    requires name { name ≡ zero_name }
    ensures { IfOk result (λ bytes. bytes.items ≡ script opening_requests) }
{
    let mut out = Vec::new(alloc);
    put_put(&mut out, text)?;
    put_apply(&mut out, b"main", name)?;
    put_forks(&mut out, &EIGHT)?;
    put_quit(&mut out)?;
    Ok(out)
}

/// The script of the closing, which prints every channel.
#[tactic(auto, unfolding(crate::specs::Requests::closing_requests))]
pub(crate) fn closing(alloc: Global) -> Result<Vec<u8>, AllocError>
    ensures { IfOk result (λ bytes. bytes.items ≡ script closing_requests) }
{
    let mut out = Vec::new(alloc);
    put_prints(&mut out, &EIGHT)?;
    put_two(&mut out, b"print", b"main")?;
    put_quit(&mut out)?;
    Ok(out)
}
