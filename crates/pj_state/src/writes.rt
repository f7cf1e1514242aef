//! The commands that enter something.
ghost use Rattle.std.specs.Prelude.{length, MatchOption};
ghost use Rattle.std.specs.Arc.{arc_value};
ghost use Rattle.pj_machine.specs.declared.command.Command.TheVariants as command;
ghost use Rattle.pj_machine.specs.declared.command.Write.{Write};
ghost use Rattle.pj_machine.specs.Answer.{Makes};
ghost use Rattle.pj_machine.specs.Outcome.{refuses};
ghost use Rattle.pj_state.specs.Installs.{MayMake};
ghost use Rattle.pj_state.specs.Kept.{After};
ghost use Rattle.pj_state.specs.Replies.{Replies, IsReplyToStored};

use crate::replies::{applied, unrecorded, uprooted};
use crate::state::State;
use crate::uncounted::pull;
use pj_change::{Bytes, Record};
use pj_channel::Channel;
use pj_machine::{ChannelName, Numbered, Refusal, Reply, Write};
use pj_name::Name;
use pj_text::{ReadRefusal, read_record};
use std::alloc::Global;
use std::sync::Arc;

/// What is replied to a text of which the store has the name: `already` where it has the text too, or else `clash`.
fn reply_to_stored(stored: &Record, put: &Record) -> Reply
    ensures { IsReplyToStored stored.now put.now result }
{
    if stored.text.items() == put.text.items() {
        Reply::AlreadyNamed(put.name)
    } else {
        Reply::No(Refusal::Clash)
    }
}

impl State {
    /// The reply to `put` of a text that was read and hashed before. Only its name is looked up, and the change entered.
    pub fn put(&mut self, pass: u32, call: u64, shared: &Arc<Record>) -> Numbered
        ensures { Replies self.old pass call (command.Put (arc_value shared.now).text) self.new result }
    {
        if let Some(stored) = self.find(shared.name) {
            return self.replied(reply_to_stored(stored, shared));
        }
        if self.is_store_full(shared.text.items().len()) {
            return self.refused(Refusal::FullStore);
        }
        if self.is_full() {
            return self.refused(Refusal::FullJournal);
        }
        self.enter_change(pass, call, shared)
    }

    /// The reply to `put`.
    pub fn put_text(&mut self, alloc: Global, pass: u32, call: u64, text: &Bytes) -> Numbered
        ensures { Replies self.old pass call (command.Put text.now) self.new result }
    {
        let record = match read_record(alloc, text.items()) {
            Ok(record) => record,
            Err(ReadRefusal::Malformed) => return self.malformed(),
            Err(ReadRefusal::Memory) => return Numbered::NoMemory,
        };
        match Arc::new(alloc, record) {
            Ok(shared) => self.put(pass, call, &shared),
            Err(_) => Numbered::NoMemory,
        }
    }

    /// Why no channel of this name may be made.
    fn refusal_to_make(&self, name: &ChannelName) -> Option<Refusal>
        ensures { After self.now.journal (λ s. MatchOption result (MayMake self.now.limits s name.now) (λ why. (w : Write) → Makes self.now.limits s (length self.now.journal) name.now w (refuses why))) }
    {
        if self.standing(name).is_some() {
            Some(Refusal::Taken)
        } else if self.are_channels_full() {
            Some(Refusal::FullChannels)
        } else {
            None
        }
    }

    /// The reply to `new`.
    pub fn make(&mut self, alloc: Global, pass: u32, call: u64, name: ChannelName) -> Numbered
        ensures { Replies self.old pass call (command.New name) self.new result }
    {
        if let Some(refusal) = self.refusal_to_make(&name) {
            return self.refused(refusal);
        }
        match Channel::empty(alloc) {
            Ok(channel) => self.install(pass, call, Write::New(name), name, channel),
            Err(_) => Numbered::NoMemory,
        }
    }

    /// The reply to `fork`.
    pub fn fork(
        &mut self,
        alloc: Global,
        pass: u32,
        call: u64,
        from: ChannelName,
        to: ChannelName,
    ) -> Numbered
        ensures { Replies self.old pass call (command.Fork from to) self.new result }
    {
        let Some(standing) = self.standing(&from) else {
            return self.no_channel(&from);
        };
        if let Some(refusal) = self.refusal_to_make(&to) {
            return self.refused(refusal);
        }
        match standing.channel.share() {
            Ok(channel) => self.install(pass, call, Write::Fork(from, to), to, channel),
            Err(_) => Numbered::NoMemory,
        }
    }

    /// The reply to `drop`.
    pub fn take_away(&mut self, pass: u32, call: u64, name: ChannelName) -> Numbered
        ensures { Replies self.old pass call (command.Drop name) self.new result }
    {
        let Some(_) = self.standing(&name) else {
            return self.no_channel(&name);
        };
        if self.is_full() {
            return self.refused(Refusal::FullJournal);
        }
        self.enter_drop(pass, call, name)
    }

    /// The reply to `apply`.
    pub fn apply(
        &mut self,
        alloc: Global,
        pass: u32,
        call: u64,
        name: ChannelName,
        change: Name,
    ) -> Numbered
        ensures { Replies self.old pass call (command.Apply name change) self.new result }
    {
        let Some(standing) = self.standing(&name) else {
            return self.no_channel(&name);
        };
        let Some(record) = self.find(change) else {
            return self.refused(Refusal::Change);
        };
        match applied(alloc, &standing.channel, record, self.len()) {
            Ok(channel) => self.install(pass, call, Write::Apply(name, change), name, channel),
            Err(reply) => reply,
        }
    }

    /// The reply to `unrecord`.
    pub fn unrecord(
        &mut self,
        alloc: Global,
        pass: u32,
        call: u64,
        name: ChannelName,
        change: Name,
    ) -> Numbered
        ensures { Replies self.old pass call (command.Unrecord name change) self.new result }
    {
        let Some(standing) = self.standing(&name) else {
            return self.no_channel(&name);
        };
        let Some(_) = self.find(change) else {
            return self.refused(Refusal::Change);
        };
        match unrecorded(alloc, &standing.channel, change, self.len()) {
            Ok(channel) => self.install(pass, call, Write::Unrecord(name, change), name, channel),
            Err(reply) => reply,
        }
    }

    /// The reply to `uproot`.
    pub fn uproot(
        &mut self,
        alloc: Global,
        pass: u32,
        call: u64,
        name: ChannelName,
        change: Name,
    ) -> Numbered
        ensures { Replies self.old pass call (command.Uproot name change) self.new result }
    {
        let Some(standing) = self.standing(&name) else {
            return self.no_channel(&name);
        };
        let Some(_) = self.find(change) else {
            return self.refused(Refusal::Change);
        };
        match uprooted(alloc, &standing.channel, change, self.len()) {
            Ok(channel) => self.install(pass, call, Write::Uproot(name, change), name, channel),
            Err(reply) => reply,
        }
    }

    /// The reply to `pull`.
    pub fn pull(
        &mut self,
        alloc: Global,
        pass: u32,
        call: u64,
        into: ChannelName,
        from: ChannelName,
    ) -> Numbered
        ensures { Replies self.old pass call (command.Pull into from) self.new result }
    {
        let Some(standing) = self.standing(&into) else {
            return self.no_channel(&into);
        };
        let Some(other) = self.standing(&from) else {
            return self.refused(Refusal::Channel);
        };
        match pull(alloc, &standing.channel, &other.channel) {
            Ok(channel) => self.install(pass, call, Write::Pull(into, from), into, channel),
            Err(_) => Numbered::NoMemory,
        }
    }
}
