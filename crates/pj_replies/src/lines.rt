//! Replies of one line, and the line of a reply with a body.
ghost use Rattle.std.specs.Prelude.{◌≡◌, ℕ, ◌<◌, ◌^◌, List, [], ◌∷◌, ◌++◌, codes};
ghost use Rattle.pj_name.specs.Name.{hex};
ghost use Rattle.pj_machine.specs.declared.reply.Reply.TheVariants as reply;
ghost use Rattle.pj_machine.specs.declared.reply.Reply.{Reply as ReplyModel};
ghost use Rattle.pj_wire.specs.Replies.{reply_bytes};
ghost use Rattle.pj_replies.specs.Finds.{Finds};
ghost use Rattle.pj_replies.specs.Lines.{IsDone, IsAlready, IsDueTold, IsTold, IsRefusal, IsLine, AreShort, stored_bytes, body_line};
ghost use Rattle.pj_replies.specs.declared.due.Due.TheVariants as due;

use crate::due::Due;
use crate::fields::{fixed, number};
use crate::found::Found;
use crate::reasons::reason;
use pj_machine::{Numbered, Reply};
use pj_name::Name;

/// A refusal of what is due.
fn refused(bytes: &[u8], due: Due) -> Found<Numbered>
    ensures { Finds reply_bytes (IsRefusal due) bytes.now result }
{
    match number(bytes, b"no ", u64::MAX, b' ') {
        Found::Whole(place, at) => {
            let (_, rest) = bytes.split_at(at);
            match reason(rest, due) {
                Found::Whole(refusal, count) => {
                    let reply = Reply::No(refusal);
                    Found::Whole(Numbered::At { place, reply }, at + count)
                }
                Found::Part => Found::Part,
                Found::Apart => Found::Apart,
            }
        }
        Found::Part => Found::Part,
        Found::Apart => Found::Apart,
    }
}

/// The name of a change with the newline behind it.
fn name_line(name: Name) -> [u8; 65]
    ensures { result ≡ hex name.bytes ++ 10 ∷ [] }
{
    let mut line = [b'\n'; 65];
    line[..64].copy_from_slice(&name.hex());
    line
}

/// That the text was stored before: the word for this, and then these bytes.
fn stored_before(bytes: &[u8], line: &[u8], value: Reply) -> Found<Reply>
    ensures { Finds (λ (_ : ReplyModel). codes "already " ++ line.now) (λ v. v ≡ value) bytes.now result }
{
    match fixed(bytes, b"already ", ()) {
        Found::Whole(_, at) => {
            let (_, rest) = bytes.split_at(at);
            match fixed(rest, line, value) {
                Found::Whole(value, count) => Found::Whole(value, at + count),
                Found::Part => Found::Part,
                Found::Apart => Found::Apart,
            }
        }
        Found::Part => Found::Part,
        Found::Apart => Found::Apart,
    }
}

/// That the text of this name is stored, behind the place.
fn stored_now(bytes: &[u8], name: Name) -> Found<Reply>
    ensures { Finds stored_bytes (IsDueTold (due.Put name)) bytes.now result }
{
    let line = name_line(name);
    fixed(bytes, &line, Reply::Named(name)).or(stored_before(
        bytes,
        &line,
        Reply::AlreadyNamed(name),
    ))
}

/// That the text of this name is stored.
fn stored(bytes: &[u8], name: Name) -> Found<Numbered>
    ensures { Finds reply_bytes (IsTold (due.Put name)) bytes.now result }
{
    match number(bytes, b"ok ", u64::MAX, b' ') {
        Found::Whole(place, at) => {
            let (_, rest) = bytes.split_at(at);
            match stored_now(rest, name) {
                Found::Whole(reply, count) => Found::Whole(
                    Numbered::At { place, reply },
                    at + count,
                ),
                Found::Part => Found::Part,
                Found::Apart => Found::Apart,
            }
        }
        Found::Part => Found::Part,
        Found::Apart => Found::Apart,
    }
}

/// That a change was applied.
fn done(bytes: &[u8]) -> Found<Numbered>
    ensures { Finds reply_bytes IsDone bytes.now result }
{
    match number(bytes, b"ok ", u64::MAX, b'\n') {
        Found::Whole(place, count) => {
            let reply = Reply::Done;
            Found::Whole(Numbered::At { place, reply }, count)
        }
        Found::Part => Found::Part,
        Found::Apart => Found::Apart,
    }
}

/// That a change was applied before.
fn already(bytes: &[u8]) -> Found<Numbered>
    ensures { Finds reply_bytes IsAlready bytes.now result }
{
    match number(bytes, b"ok ", u64::MAX, b' ') {
        Found::Whole(place, at) => {
            let (_, rest) = bytes.split_at(at);
            match fixed(rest, b"already\n", ()) {
                Found::Whole(_, count) => {
                    let reply = Reply::Already;
                    Found::Whole(Numbered::At { place, reply }, at + count)
                }
                Found::Part => Found::Part,
                Found::Apart => Found::Apart,
            }
        }
        Found::Part => Found::Part,
        Found::Apart => Found::Apart,
    }
}

/// What is told in one line where the request is not refused.
fn told(bytes: &[u8], due: Due) -> Found<Numbered>
    ensures { Finds reply_bytes (IsTold due) bytes.now result }
{
    match due {
        Due::Log => Found::Apart,
        Due::Get => Found::Apart,
        Due::Put(name) => stored(bytes, name),
        Due::Apply => done(bytes).or(already(bytes)),
    }
}

/// A reply of one line.
pub fn line(bytes: &[u8], due: Due) -> Found<Numbered>
    ensures { Finds reply_bytes (IsLine due) bytes.now result }
{
    told(bytes, due)
        .or(refused(bytes, due))
        .or(fixed(bytes, b"no memory\n", Numbered::NoMemory))
}

/// The line of a reply with a body: its place, and how many bytes the body has.
pub fn body_head(bytes: &[u8]) -> Found<(u64, u64)>
    ensures { Finds body_line AreShort bytes.now result }
{
    match number(bytes, b"ok ", u64::MAX, b' ') {
        Found::Whole(place, at) => {
            let (_, rest) = bytes.split_at(at);
            match number(rest, b"", u64::MAX, b'\n') {
                Found::Whole(length, count) => Found::Whole((place, length), at + count),
                Found::Part => Found::Part,
                Found::Apart => Found::Apart,
            }
        }
        Found::Part => Found::Part,
        Found::Apart => Found::Apart,
    }
}
