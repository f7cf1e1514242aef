//! Why a command was refused, with the newline that ends the line.
ghost use Rattle.pj_replies.specs.Finds.{Finds};
ghost use Rattle.pj_replies.specs.Lines.{IsDueReason, reason_line};
ghost use Rattle.pj_replies.specs.declared.due.Due.TheVariants as due;
ghost use Rattle.pj_name.specs.Name.{no_name};
ghost use Rattle.std.specs.Prelude.{◌≡◌, ℕ, ◌<◌, ◌^◌};
ghost use Rattle.pj_name.specs.declared.name.Name.{Name as NameModel};
ghost use Rattle.pj_machine.specs.declared.reply.Refusal.TheVariants as refusal;

use crate::due::Due;
use crate::fields::{fixed, named, number};
use crate::found::Found;
use pj_machine::Refusal;

/// A need that is not in the channel.
fn needs(bytes: &[u8]) -> Found<Refusal>
    ensures { Finds reason_line (λ why. (name : NameModel) × (why ≡ refusal.Needs name)) bytes.now result }
{
    match named(bytes, b"needs ") {
        Found::Whole(name, count) => Found::Whole(Refusal::Needs(name), count),
        Found::Part => Found::Part,
        Found::Apart => Found::Apart,
    }
}

/// The number of a hunk whose context does not hold.
fn context(bytes: &[u8]) -> Found<Refusal>
    ensures { Finds reason_line (λ why. (hunk : ℕ) × (why ≡ refusal.Context hunk) × (hunk < 2 ^ 32)) bytes.now result }
{
    match number(bytes, b"context ", 0xffff_ffff, b'\n') {
        Found::Whole(hunk, count) => Found::Whole(Refusal::Context(hunk as u32), count),
        Found::Part => Found::Part,
        Found::Apart => Found::Apart,
    }
}

/// Why a text was not stored.
fn unstored(bytes: &[u8]) -> Found<Refusal>
    ensures { Finds reason_line (IsDueReason (due.Put no_name)) bytes.now result }
{
    fixed(bytes, b"malformed\n", Refusal::Malformed)
        .or(fixed(bytes, b"clash\n", Refusal::Clash))
        .or(fixed(bytes, b"full store\n", Refusal::FullStore))
        .or(fixed(bytes, b"full journal\n", Refusal::FullJournal))
}

/// Why a change was not applied.
fn unapplied(bytes: &[u8]) -> Found<Refusal>
    ensures { Finds reason_line (IsDueReason due.Apply) bytes.now result }
{
    fixed(bytes, b"channel\n", Refusal::Channel)
        .or(fixed(bytes, b"change\n", Refusal::Change))
        .or(fixed(bytes, b"full journal\n", Refusal::FullJournal))
        .or(needs(bytes))
        .or(context(bytes))
}

/// Why what is due was refused.
pub fn reason(bytes: &[u8], due: Due) -> Found<Refusal>
    ensures { Finds reason_line (IsDueReason due) bytes.now result }
{
    match due {
        Due::Log => fixed(bytes, b"channel\n", Refusal::Channel),
        Due::Get => fixed(bytes, b"change\n", Refusal::Change),
        Due::Put(_) => unstored(bytes),
        Due::Apply => unapplied(bytes),
    }
}
