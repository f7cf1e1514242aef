//! The state of a repository.
ghost use Rattle.std.specs.Prelude.{◌≡◌, ◌↔◌, ◌+◌, ◌≤◌, ◌<◌, ◌^◌, ◌⊎◌, [], length, None, Some, IsSome, IsTrue, IfOk, MatchOption, codes};
ghost use Rattle.std.specs.Arc.{arc_value};
ghost use Rattle.pj_change.specs.Lawful.{record_of};
ghost use Rattle.pj_machine.specs.declared.command.Command.TheVariants as command;
ghost use Rattle.pj_machine.specs.declared.command.Write.TheVariants as write;
ghost use Rattle.pj_machine.specs.declared.reply.Numbered.TheVariants.{At};
ghost use Rattle.pj_machine.specs.declared.reply.Reply.TheVariants.{No, Named, Done};
ghost use Rattle.pj_machine.specs.Answer.{bytes_held, AnswersIn, AreCounts, IsStoreFull};
ghost use Rattle.pj_machine.specs.Legal.{IsLegal, command_of};
ghost use Rattle.pj_machine.specs.Outcome.{enters};
ghost use Rattle.pj_machine.specs.State.{list_of};
ghost use Rattle.pj_state.specs.Installs.{Sets, Installs};
ghost use Rattle.pj_state.specs.IsKept.{AreChannels, standing_of};
ghost use Rattle.pj_state.specs.Kept.{kept, After};
ghost use Rattle.pj_state.specs.Replies.{Replies};

use crate::standing::{Standing, counts_of};
use crate::store::Store;
use pj_change::{Memory, Record};
use pj_channel::Channel;
use pj_machine::{
    ChannelCount, ChannelName, Entries, Entry, Limits, Numbered, Refusal, Reply, Stored, Write,
};
use pj_name::Name;
use std::alloc::Global;
use std::collections::BTreeMap;
use std::marker::Model;
use std::sync::Arc;

/// For how many entries of the journal there is room from the beginning, where the limits allow as many.
const FIRST_ENTRIES: u64 = 65_536;

/// The state of a repository: its journal, and the store and the channels that the journal leads to.
///
/// Contracts see the limits and the journal.
pub struct State {
    limits: Limits,
    entries: Vec<Entry>,
    store: Store,
    channels: BTreeMap<ChannelName, Standing>,
}

/// Written out and not derived: whoever lets go of one cites this proof, and proves nothing anew of its parts.
impl Drop for State {
    fn drop(self) {
        let State {
            limits: _limits,
            entries: _entries,
            store: _store,
            channels: _channels,
        } = self;
    }
}

impl Model for State {
    ghost use Rattle.pj_state.specs.IsKept.{IsKept};
    ghost use Rattle.pj_state.specs.Kept.{Kept, kept};

    ghost Value = { Kept };

    ghost view = { λ s. kept s.limits s.entries.items };

    ghost invariant = { λ s. IsKept s.limits s.entries.items s.store.records.entries s.store.bytes s.channels };
}

impl State {
    /// The state that nothing was entered into: no change, and the channel `main` without changes. It has room for all changes
    /// that the limits allow and for the first entries, since what has no room is moved while others wait for the lock.
    ///
    /// # Errors
    /// `Memory` where there was no memory for it.
    pub fn opening(alloc: Global, limits: Limits) -> Result<State, Memory>
        ensures { IfOk result (λ s. s ≡ kept limits []) }
    {
        let Some(main) = ChannelName::read(b"main") else {
            unreachable!()
        };
        let channel = Channel::empty(alloc)?;
        let mut channels = BTreeMap::new(alloc);
        if channels
            .insert(main, Standing { channel, last: 0 })
            .is_err()
        {
            return Err(Memory);
        }
        let entries = Vec::with_capacity(alloc, limits.entries.min(FIRST_ENTRIES) as usize)?;
        let store = Store::with_room(alloc, limits.changes)?;
        Ok(State {
            limits,
            entries,
            store,
            channels,
        })
    }

    /// Its limits.
    pub fn limits(&self) -> Limits
        ensures { result ≡ self.now.limits }
    {
        self.limits
    }

    /// How many entries the journal has.
    pub fn len(&self) -> u64
        ensures len { result ≡ length self.now.journal }
        ensures legal { IsLegal self.now.limits self.now.journal }
    {
        let _limits = self.limits;
        self.entries.len() as u64
    }

    /// The entries of the journal.
    pub fn entries(&self) -> &[Entry]
        ensures { result.now ≡ self.now.journal }
    {
        &self.entries
    }

    /// The change of this name.
    pub fn find(&self, name: Name) -> Option<&Arc<Record>>
        ensures { After self.now.journal (λ s. MatchOption result (record_of s.store name ≡ None) (λ r. record_of s.store name ≡ Some (arc_value r.now))) }
    {
        self.store.get(name)
    }

    /// The channel of this name.
    pub fn standing(&self, name: &ChannelName) -> Option<&Standing>
        ensures found { After self.now.journal (λ s. MatchOption result (list_of s name.now ≡ None) (λ c. standing_of s self.now.journal name.now ≡ Some c.now)) }
        ensures legal { IsLegal self.now.limits self.now.journal }
    {
        self.channels.get(name)
    }

    /// Each channel with how many changes it has, by the bytes of its name.
    pub(crate) fn counts(&self, alloc: Global) -> Result<Vec<ChannelCount>, Memory>
        ensures { IfOk result (λ counts. After self.now.journal (λ s. AreCounts s counts.items)) }
    {
        let _entries = &self.entries;
        let counts = counts_of(alloc, &self.channels)?;
        Ok(counts)
    }

    /// Whether the store has no room for a text of so many bytes.
    pub(crate) fn is_store_full(&self, len: usize) -> bool
        requires { len < 2 ^ 63 }
        ensures { After self.now.journal (λ s. IsTrue result ↔ ((self.now.limits.changes ≤ length s.store) ⊎ (self.now.limits.bytes < bytes_held s + len))) }
    {
        self.store.records.len() as u64 >= u64::from(self.limits.changes)
            || self.store.bytes + len as u64 > self.limits.bytes
    }

    /// Whether there are as many channels as there may be.
    pub(crate) fn are_channels_full(&self) -> bool
        ensures { After self.now.journal (λ s. IsTrue result ↔ (self.now.limits.channels ≤ length s.channels)) }
    {
        let _entries = &self.entries;
        self.channels.len() as u64 >= u64::from(self.limits.channels)
    }

    /// Whether the journal has as many entries as it may.
    pub(crate) fn is_full(&self) -> bool
        ensures full { IsTrue result ↔ (self.now.limits.entries ≤ length self.now.journal) }
        ensures legal { IsLegal self.now.limits self.now.journal }
    {
        self.len() >= self.limits.entries
    }

    /// A reply that enters nothing.
    pub(crate) fn replied(&self, reply: Reply) -> Numbered
        ensures reply { result ≡ At (length self.now.journal) reply }
        ensures legal { IsLegal self.now.limits self.now.journal }
    {
        Numbered::At {
            place: self.len(),
            reply,
        }
    }

    /// A refusal.
    pub(crate) fn refused(&self, refusal: Refusal) -> Numbered
        ensures reply { result ≡ At (length self.now.journal) (No refusal) }
        ensures legal { IsLegal self.now.limits self.now.journal }
    {
        self.replied(Reply::No(refusal))
    }

    /// Enters a change that the store lacks.
    pub(crate) fn enter_change(&mut self, pass: u32, call: u64, shared: &Arc<Record>) -> Numbered
        requires answer { After self.old.journal (λ s. AnswersIn self.old.limits s self.old.journal (command.Put (arc_value shared.now).text) (enters (Named (arc_value shared.now).name) (write.Put (arc_value shared.now)))) }
        requires new { After self.old.journal (λ s. record_of s.store (arc_value shared.now).name ≡ None) }
        requires fits { After self.old.journal (λ s. bytes_held s + length (arc_value shared.now).text ≤ self.old.limits.bytes) }
        requires room { length self.old.journal < self.old.limits.entries }
        ensures { Replies self.old pass call (command.Put (arc_value shared.now).text) self.new result }
    {
        let Ok(held) = Arc::try_clone(shared) else {
            return Numbered::NoMemory;
        };
        let Ok(entered) = Arc::try_clone(shared) else {
            return Numbered::NoMemory;
        };
        if self.entries.reserve(1).is_err() {
            return Numbered::NoMemory;
        }
        let name = shared.name;
        let place = self.entries.len() as u64 + 1;
        if self.store.insert(held).is_err() {
            return Numbered::NoMemory;
        }
        let entry = Entry {
            pass,
            call,
            write: Write::Put(Stored::of(entered)),
        };
        let Ok(()) = self.entries.push(entry) else {
            unreachable!()
        };
        Numbered::At {
            place,
            reply: Reply::Named(name),
        }
    }

    /// Enters a write that gives a channel a list.
    pub(crate) fn enter_channel(
        &mut self,
        pass: u32,
        call: u64,
        write: Write,
        name: ChannelName,
        channel: Channel,
    ) -> Numbered
        requires answer { After self.old.journal (λ s. AnswersIn self.old.limits s self.old.journal (command_of write) (enters Done write)) }
        requires sets { After self.old.journal (λ s. Sets s write name channel) }
        requires room { length self.old.journal < self.old.limits.entries }
        ensures { Replies self.old pass call (command_of write) self.new result }
    {
        if self.entries.reserve(1).is_err() {
            return Numbered::NoMemory;
        }
        let last = self.entries.len() as u64 + 1;
        if self
            .channels
            .insert(name, Standing { channel, last })
            .is_err()
        {
            return Numbered::NoMemory;
        }
        let Ok(()) = self.entries.push(Entry { pass, call, write }) else {
            unreachable!()
        };
        Numbered::At {
            place: last,
            reply: Reply::Done,
        }
    }

    /// Enters that a channel is taken away.
    pub(crate) fn enter_drop(&mut self, pass: u32, call: u64, name: ChannelName) -> Numbered
        requires answer { After self.old.journal (λ s. AnswersIn self.old.limits s self.old.journal (command.Drop name) (enters Done (write.Drop name))) }
        requires room { length self.old.journal < self.old.limits.entries }
        ensures { Replies self.old pass call (command.Drop name) self.new result }
    {
        let entry = Entry {
            pass,
            call,
            write: Write::Drop(name),
        };
        if self.entries.push(entry).is_err() {
            return Numbered::NoMemory;
        }
        let _dropped = self.channels.remove(&name);
        Numbered::At {
            place: self.entries.len() as u64,
            reply: Reply::Done,
        }
    }

    /// Enters a write that gives a channel a list, where its command has no refusal but `full journal`.
    pub fn install(
        &mut self,
        pass: u32,
        call: u64,
        write: Write,
        name: ChannelName,
        channel: Channel,
    ) -> Numbered
        requires { After self.old.journal (λ s. Installs self.old s write name channel) }
        ensures { Replies self.old pass call (command_of write) self.new result }
    {
        if self.is_full() {
            return self.refused(Refusal::FullJournal);
        }
        self.enter_channel(pass, call, write, name, channel)
    }

    /// Its journal and its channels, which are moved out. It takes no memory.
    pub fn into_parts(self) -> (Entries, BTreeMap<ChannelName, Standing>)
        ensures entries { result.0 ≡ self.journal }
        ensures channels { After self.journal (λ s. AreChannels s self.journal result.1) }
        ensures legal { IsLegal self.limits self.journal }
    {
        let State {
            limits: _,
            entries,
            store: _,
            channels,
        } = self;
        (Entries::of(entries), channels)
    }
}
