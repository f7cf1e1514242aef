//! What is shared out of the state under the lock, and worked on outside it.
ghost use Rattle.std.specs.Prelude.{◌≡◌, Some, IsTrue, MatchResult};
ghost use Rattle.std.specs.Arc.{arc_value};
ghost use Rattle.pj_machine.specs.declared.command.Command.{Command};
ghost use Rattle.pj_state.specs.LastEntry.{last_of};
ghost use Rattle.pj_state.specs.Replies.{Reads};
ghost use Rattle.pj_state.specs.Shared.{IsAt, HasChannel, Stores, first_channel, first_change};
ghost use Rattle.pj_repo.specs.ChangesBy.{ChangesBy};

use pj_change::Record;
use pj_channel::Channel;
use pj_machine::{ChannelName, Numbered, Refusal, Reply};
use pj_name::Name;
use pj_state::State;
use std::sync::Arc;

/// A change, and the place at which it was shared.
#[derive(Drop)]
pub(crate) struct SharedChange {
    pub(crate) place: u64,
    pub(crate) record: Arc<Record>,
}

/// A channel, and the place at which it was shared.
#[derive(Drop)]
pub(crate) struct SharedChannel {
    pub(crate) place: u64,
    pub(crate) channel: Channel,
}

/// A channel with the number of its last entry, a change, and the place at which they were shared.
#[derive(Drop)]
pub(crate) struct SharedBoth {
    pub(crate) place: u64,
    pub(crate) channel: Channel,
    pub(crate) last: u64,
    pub(crate) record: Arc<Record>,
}

/// The change of this name.
///
/// # Errors
/// The reply to each command that looks up this change first.
pub(crate) fn share_change(state: &State, name: Name) -> Result<SharedChange, Numbered>
    ensures { MatchResult result
        (λ seen. IsAt state.now seen.place (Stores name (arc_value seen.record)))
        (λ reply. (x : Command) → first_change x ≡ Some name → Reads state.now x reply) }
{
    let Some(found) = state.find(name) else {
        return Err(state.no_change(name));
    };
    let Ok(record) = Arc::try_clone(found) else {
        return Err(Numbered::NoMemory);
    };
    Ok(SharedChange {
        place: state.len(),
        record,
    })
}

/// The channel of this name.
///
/// # Errors
/// The reply to each command that looks up this channel first.
pub(crate) fn share_channel(state: &State, name: &ChannelName) -> Result<SharedChannel, Numbered>
    ensures { MatchResult result
        (λ seen. IsAt state.now seen.place (HasChannel name.now seen.channel))
        (λ reply. (x : Command) → first_channel x ≡ Some name.now → Reads state.now x reply) }
{
    let Some(standing) = state.standing(name) else {
        return Err(state.no_channel(name));
    };
    let Ok(channel) = standing.channel.share() else {
        return Err(Numbered::NoMemory);
    };
    Ok(SharedChannel {
        place: state.len(),
        channel,
    })
}

/// The channel and the change of these names.
///
/// # Errors
/// The reply to each command that looks up this channel first and then this change.
pub(crate) fn share_both(
    state: &State,
    name: &ChannelName,
    change: Name,
) -> Result<SharedBoth, Numbered>
    ensures { MatchResult result
        (λ seen. IsAt state.now seen.place (HasChannel name.now seen.channel)
        × IsAt state.now seen.place (Stores change (arc_value seen.record))
        × (seen.last ≡ last_of name.now state.now.journal))
        (λ reply. (x : Command) → ChangesBy name.now change x → Reads state.now x reply) }
{
    let Some(standing) = state.standing(name) else {
        return Err(state.no_channel(name));
    };
    let Some(found) = state.find(change) else {
        return Err(Numbered::At {
            place: state.len(),
            reply: Reply::No(Refusal::Change),
        });
    };
    let (Ok(channel), Ok(record)) = (standing.channel.share(), Arc::try_clone(found)) else {
        return Err(Numbered::NoMemory);
    };
    Ok(SharedBoth {
        place: state.len(),
        channel,
        last: standing.last,
        record,
    })
}

/// Whether the channel is there, and its last entry has this number.
pub(crate) fn stands_at(state: &State, name: &ChannelName, last: u64) -> bool
    ensures { IsTrue result → last_of name.now state.now.journal ≡ last }
{
    match state.standing(name) {
        Some(standing) => standing.last == last,
        None => false,
    }
}
