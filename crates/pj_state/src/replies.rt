//! Replies that are worked out on a channel or a change alone: on those of a state, or on what was shared out of it.
ghost use Rattle.std.specs.Prelude.{◌≡◌, map, List, Err, IfOk, IfErr, MatchResult};
ghost use Rattle.std.specs.Arc.{arc_value};
ghost use Rattle.pj_change.specs.declared.graph.Graph.{Graph};
ghost use Rattle.pj_change.specs.Graph.{IsGraph};
ghost use Rattle.pj_change.specs.Parts.{spelling};
ghost use Rattle.pj_change.specs.Printing.{IsPrintAnswer};
ghost use Rattle.pj_machine.specs.declared.channel_name.ChannelName.{ChannelName};
ghost use Rattle.pj_machine.specs.declared.command.Command.TheVariants as command;
ghost use Rattle.pj_machine.specs.declared.command.Write.TheVariants as write;
ghost use Rattle.pj_machine.specs.declared.reply.Numbered.TheVariants.{At, NoMemory};
ghost use Rattle.pj_machine.specs.declared.reply.Reply.TheVariants.{Body, No};
ghost use Rattle.pj_machine.specs.GraphText.{graph_text};
ghost use Rattle.pj_machine.specs.Listings.{log_text};
ghost use Rattle.pj_state.specs.Kept.{Kept};
ghost use Rattle.pj_state.specs.Replies.{Reads};
ghost use Rattle.pj_state.specs.Shared.{IsAt, HasChannel, ReadsStored, ReadsListed, ReadsBoth, InstallsBoth};

use crate::uncounted::{apply, unrecord, uproot};
use pj_change::{
    Applied, ApplyRefusal, Bytes, Change, Memory, PrintRefusal, Record, UnrecordRefusal,
    UprootRefusal,
};
use pj_channel::Channel;
use pj_inverse::{InverseRefusal, inverse};
use pj_machine::{Numbered, Refusal, Reply, graph_body, log_body};
use pj_name::Name;
use pj_text::write;
use std::alloc::Global;
use std::sync::Arc;
use std::thread::Threads;

/// What was asked for, or want of memory.
pub(crate) fn given(place: u64, body: Result<Bytes, Memory>) -> Numbered
    ensures { MatchResult body (λ bytes. result ≡ At place (Body bytes)) (λ e. result ≡ NoMemory) }
{
    match body {
        Ok(bytes) => Numbered::At {
            place,
            reply: Reply::Body(bytes),
        },
        Err(_) => Numbered::NoMemory,
    }
}

/// A refusal at a place.
fn refused_at(place: u64, refusal: Refusal) -> Numbered
    ensures { result ≡ At place (No refusal) }
{
    Numbered::At {
        place,
        reply: Reply::No(refusal),
    }
}

/// The bytes once more.
fn copied(alloc: Global, bytes: &Bytes) -> Result<Bytes, Memory>
    ensures { IfOk result (λ copy. copy ≡ bytes.now) }
{
    Ok(Bytes::of(Vec::from_slice(alloc, bytes.items())?))
}

/// The reply at this place to `get`.
pub fn get_reply(alloc: Global, stored: &Record, place: u64) -> Numbered
    ensures { ReadsStored place stored.now command.Get result }
{
    given(place, copied(alloc, &stored.text))
}

/// A change as it is spelled.
fn spelled(alloc: Global, change: &Change) -> Result<Bytes, Memory>
    ensures { IfOk result (λ text. text ≡ spelling change.now) }
{
    Ok(Bytes::of(write(alloc, change)?))
}

/// The reply at this place to `inverse`.
pub fn inverse_reply(alloc: Global, stored: &Record, place: u64) -> Numbered
    ensures { ReadsStored place stored.now command.Inverse result }
{
    match inverse(alloc, stored) {
        Ok(change) => given(place, spelled(alloc, &change)),
        Err(InverseRefusal::Hunk(hunk)) => refused_at(place, Refusal::Inverse(hunk)),
        Err(InverseRefusal::Memory) => Numbered::NoMemory,
    }
}

/// The graph of a channel as it is written.
fn graph_bytes(alloc: Global, channel: &Channel) -> Result<Bytes, Memory>
    ensures { IfOk result (λ body. (g : Graph) × IsGraph channel.now g × (body ≡ graph_text g)) }
{
    let graph = channel.graph(alloc)?;
    graph_body(alloc, &graph)
}

/// The reply at this place to `graph`.
pub fn graph_reply(alloc: Global, channel: &Channel, place: u64) -> Numbered
    ensures { ReadsListed place channel.now command.Graph result }
{
    given(place, graph_bytes(alloc, channel))
}

/// The names of the changes of a channel as they are written.
fn log_bytes(alloc: Global, channel: &Channel) -> Result<Bytes, Memory>
    ensures { IfOk result (λ body. body ≡ log_text (map (λ r. r.name) channel.now)) }
{
    let names = channel.log(alloc)?;
    log_body(alloc, names.items())
}

/// The reply at this place to `log`.
pub fn log_reply(alloc: Global, channel: &Channel, place: u64) -> Numbered
    ensures { ReadsListed place channel.now command.Log result }
{
    given(place, log_bytes(alloc, channel))
}

/// The reply at this place to `print` where there is no print.
fn unprinted(place: u64, refusal: PrintRefusal) -> Numbered
    ensures { (k : Kept) (list : List Record) (name : ChannelName) → IsAt k place (HasChannel name list) → IsPrintAnswer list k.limits.live (Err refusal) → Reads k (command.Print name) result }
{
    match refusal {
        PrintRefusal::Wide(inode) => refused_at(place, Refusal::Wide(inode)),
        PrintRefusal::Memory => Numbered::NoMemory,
    }
}

/// The reply at this place to `print`, by what the print of a channel answered.
fn printed(place: u64, answer: Result<Bytes, PrintRefusal>) -> Numbered
    ensures { (k : Kept) (list : List Record) (name : ChannelName) → IsAt k place (HasChannel name list) → IsPrintAnswer list k.limits.live answer → Reads k (command.Print name) result }
{
    match answer {
        Ok(bytes) => Numbered::At {
            place,
            reply: Reply::Body(bytes),
        },
        Err(refusal) => unprinted(place, refusal),
    }
}

/// The reply at this place to `print`, where a file may have so many live vertices.
pub fn print_reply(alloc: Global, channel: &Channel, live: u32, place: u64) -> Numbered
    ensures { (k : Kept) (name : ChannelName) → k.limits.live ≡ live → IsAt k place (HasChannel name channel.now) → Reads k (command.Print name) result }
{
    printed(place, channel.print_serially(alloc, live))
}

/// The same reply, where the texts of the files are made side by side.
pub fn print_reply_in_threads<R: Threads + Sync>(
    rt: &R,
    alloc: Global,
    channel: &Channel,
    live: u32,
    place: u64,
) -> Numbered
    ensures { (k : Kept) (name : ChannelName) → k.limits.live ≡ live → IsAt k place (HasChannel name channel.now) → Reads k (command.Print name) result }
{
    printed(place, channel.print(rt, alloc, live))
}

/// The channel after an application, which may be installed wherever the channel has this list.
///
/// # Errors
/// The reply at this place to `apply`, where it enters nothing.
pub fn applied(
    alloc: Global,
    channel: &Channel,
    shared: &Arc<Record>,
    place: u64,
) -> Result<Channel, Numbered>
    ensures applied { IfOk result (λ after. (change : Name) → InstallsBoth channel.now change (arc_value shared.now) (λ name. write.Apply name change) after) }
    ensures refused { IfErr result (λ reply. (change : Name) → ReadsBoth place channel.now change (arc_value shared.now) (λ name. command.Apply name change) reply) }
{
    match apply(alloc, channel, shared) {
        Ok(Applied::New(after)) => Ok(after),
        Ok(Applied::Already) => Err(Numbered::At {
            place,
            reply: Reply::Already,
        }),
        Err(ApplyRefusal::Needs(name)) => Err(refused_at(place, Refusal::Needs(name))),
        Err(ApplyRefusal::Context(hunk)) => Err(refused_at(place, Refusal::Context(hunk))),
        Err(ApplyRefusal::Memory) => Err(Numbered::NoMemory),
    }
}

/// The channel without a change, which may be installed wherever the channel has this list.
///
/// # Errors
/// The reply at this place to `unrecord`, where it enters nothing.
pub fn unrecorded(
    alloc: Global,
    channel: &Channel,
    change: Name,
    place: u64,
) -> Result<Channel, Numbered>
    ensures unrecorded { IfOk result (λ after. (r : Record) → InstallsBoth channel.now change r (λ name. write.Unrecord name change) after) }
    ensures refused { IfErr result (λ reply. (r : Record) → ReadsBoth place channel.now change r (λ name. command.Unrecord name change) reply) }
{
    match unrecord(alloc, channel, change) {
        Ok(after) => Ok(after),
        Err(UnrecordRefusal::Absent) => Err(refused_at(place, Refusal::Absent)),
        Err(UnrecordRefusal::Held(holder)) => Err(refused_at(place, Refusal::Held(holder))),
        Err(UnrecordRefusal::Memory) => Err(Numbered::NoMemory),
    }
}

/// The channel without a change and all that need it, which may be installed wherever the channel has this list.
///
/// # Errors
/// The reply at this place to `uproot`, where it enters nothing.
pub fn uprooted(
    alloc: Global,
    channel: &Channel,
    change: Name,
    place: u64,
) -> Result<Channel, Numbered>
    ensures uprooted { IfOk result (λ after. (r : Record) → InstallsBoth channel.now change r (λ name. write.Uproot name change) after) }
    ensures refused { IfErr result (λ reply. (r : Record) → ReadsBoth place channel.now change r (λ name. command.Uproot name change) reply) }
{
    match uproot(alloc, channel, change) {
        Ok(after) => Ok(after),
        Err(UprootRefusal::Absent) => Err(refused_at(place, Refusal::Absent)),
        Err(UprootRefusal::Memory) => Err(Numbered::NoMemory),
    }
}
