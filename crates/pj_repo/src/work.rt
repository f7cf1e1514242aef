//! The works that are lent the state.
ghost use Rattle.std.specs.Prelude.{◌≡◌, ◌≢◌, ℕ, List, Some, MatchResult};
ghost use Rattle.std.specs.Arc.{arc_value};
ghost use Rattle.pj_machine.specs.declared.command.Command.{Command};
ghost use Rattle.pj_machine.specs.declared.command.Command.TheVariants as command;
ghost use Rattle.pj_machine.specs.Answer.{IsMalformed};
ghost use Rattle.pj_machine.specs.Legal.{command_of};
ghost use Rattle.pj_state.specs.LastEntry.{last_of};
ghost use Rattle.pj_state.specs.Replies.{Reads, Replies};
ghost use Rattle.pj_state.specs.Shared.{IsAt, HasChannel, Stores, first_channel, first_change};
ghost use Rattle.pj_repo.specs.ChangesBy.{ChangesBy};
ghost use Rattle.pj_repo.specs.MayInstall.{MayInstall};

use crate::locked::LockedState;
use crate::share::{
    SharedBoth, SharedChange, SharedChannel, share_both, share_change, share_channel, stands_at,
};
use pj_book::{Reading, Writing};
use pj_change::Record;
use pj_channel::Channel;
use pj_machine::{ChannelName, Command, Numbered, Write};
use pj_name::Name;
use std::alloc::Global;
use std::sync::Arc;

/// Nothing: the look alone is wanted, which counts the call.
#[derive(Clone, Copy)]
pub(crate) struct CountCall;

impl Reading<LockedState> for CountCall {
    type Out = ();

    ghost relates = { λ _ _ _. Unit {0} };

    fn work(self, _state: &LockedState) {}
}

/// Answers a `put` of a text that no change has.
#[derive(Clone, Copy)]
pub(crate) struct TellMalformed;

impl Reading<LockedState> for TellMalformed {
    type Out = Numbered;

    ghost relates = { λ _ state reply. (text : List ℕ) → IsMalformed text → Reads state (command.Put text) reply };

    fn work(self, locked: &LockedState) -> Numbered {
        locked.state.malformed()
    }
}

/// Shares the change of a name.
#[derive(Clone, Copy)]
pub(crate) struct ShareChange {
    pub(crate) name: Name,
}

impl Reading<LockedState> for ShareChange {
    type Out = Result<SharedChange, Numbered>;

    ghost relates = { λ w state out. MatchResult out
        (λ seen. IsAt state seen.place (Stores w.name (arc_value seen.record)))
        (λ reply. (x : Command) → first_change x ≡ Some w.name → Reads state x reply) };

    fn work(self, locked: &LockedState) -> Result<SharedChange, Numbered> {
        share_change(&locked.state, self.name)
    }
}

/// Shares the channel of a name.
#[derive(Clone, Copy)]
pub(crate) struct ShareChannel {
    pub(crate) name: ChannelName,
}

impl Reading<LockedState> for ShareChannel {
    type Out = Result<SharedChannel, Numbered>;

    ghost relates = { λ w state out. MatchResult out
        (λ seen. IsAt state seen.place (HasChannel w.name seen.channel))
        (λ reply. (x : Command) → first_channel x ≡ Some w.name → Reads state x reply) };

    fn work(self, locked: &LockedState) -> Result<SharedChannel, Numbered> {
        share_channel(&locked.state, &self.name)
    }
}

/// Shares the channel and the change of two names.
#[derive(Clone, Copy)]
pub(crate) struct ShareBoth {
    pub(crate) name: ChannelName,
    pub(crate) change: Name,
}

impl Reading<LockedState> for ShareBoth {
    type Out = Result<SharedBoth, Numbered>;

    ghost relates = { λ w state out. MatchResult out
        (λ seen. IsAt state seen.place (HasChannel w.name seen.channel)
        × IsAt state seen.place (Stores w.change (arc_value seen.record))
        × (seen.last ≡ last_of w.name state.journal))
        (λ reply. (x : Command) → ChangesBy w.name w.change x → Reads state x reply) };

    fn work(self, locked: &LockedState) -> Result<SharedBoth, Numbered> {
        share_both(&locked.state, &self.name, self.change)
    }
}

/// Enters a change whose text was read and hashed before.
#[derive(Clone, Copy)]
pub(crate) struct EnterChange<'a> {
    pub(crate) record: &'a Arc<Record>,
}

impl<'a> Writing<LockedState> for EnterChange<'a> {
    type Out = Numbered;

    ghost relates = { λ w before pass call after reply.
        Replies before pass call (command.Put (arc_value w.record.now).text) after reply
        × (after.limits ≡ before.limits) };

    fn work(self, locked: &mut LockedState, pass: u32, call: u64) -> Numbered {
        locked.state.put(pass, call, self.record)
    }
}

/// Answers a whole command.
#[derive(Clone, Copy)]
pub(crate) struct AnswerWhole<'a> {
    pub(crate) alloc: Global,
    pub(crate) command: &'a Command,
}

impl<'a> Writing<LockedState> for AnswerWhole<'a> {
    type Out = Numbered;

    ghost needs = { λ w _. w.command.now ≢ command.Quit };

    ghost relates = { λ w before pass call after reply.
        Replies before pass call w.command.now after reply × (after.limits ≡ before.limits) };

    fn work(self, locked: &mut LockedState, pass: u32, call: u64) -> Numbered {
        locked.state.answer(self.alloc, pass, call, self.command)
    }
}

/// Installs a channel that was worked out outside the lock, where the channel is there and its last entry has the number
/// that it had. Else answers the whole command.
#[derive(Drop)]
pub(crate) struct Install<'a> {
    pub(crate) alloc: Global,
    pub(crate) command: &'a Command,
    pub(crate) write: Write,
    pub(crate) name: ChannelName,
    pub(crate) last: u64,
    pub(crate) channel: Channel,
}

impl<'a> Writing<LockedState> for Install<'a> {
    type Out = Numbered;

    ghost needs = { λ w state. (w.command.now ≢ command.Quit) × (command_of w.write ≡ w.command.now)
        × MayInstall state w.write w.name w.last w.channel };

    ghost relates = { λ w before pass call after reply.
        Replies before pass call w.command.now after reply × (after.limits ≡ before.limits) };

    fn work(self, locked: &mut LockedState, pass: u32, call: u64) -> Numbered {
        let Install {
            alloc,
            command,
            write,
            name,
            last,
            channel,
        } = self;
        let state = &mut locked.state;
        if !stands_at(state, &name, last) {
            return state.answer(alloc, pass, call, command);
        }
        state.install(pass, call, write, name, channel)
    }
}
