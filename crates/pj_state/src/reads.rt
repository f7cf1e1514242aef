//! The commands that enter nothing.
ghost use Rattle.std.specs.Prelude.{◌≡◌, ℕ, List, None, Some, IfOk};
ghost use Rattle.pj_change.specs.Lawful.{record_of};
ghost use Rattle.pj_machine.specs.declared.command.Command.{Command};
ghost use Rattle.pj_machine.specs.declared.command.Command.TheVariants as command;
ghost use Rattle.pj_machine.specs.declared.listings.ChannelCount.{ChannelCount};
ghost use Rattle.pj_machine.specs.Answer.{AreCounts, IsMalformed};
ghost use Rattle.pj_machine.specs.Listings.{channels_text};
ghost use Rattle.pj_machine.specs.State.{list_of};
ghost use Rattle.pj_state.specs.Kept.{After};
ghost use Rattle.pj_state.specs.Replies.{Reads};
ghost use Rattle.pj_state.specs.Shared.{first_channel, first_change};

use crate::replies::{get_reply, given, graph_reply, inverse_reply, log_reply, print_reply};
use crate::state::State;
use pj_change::{Bytes, Memory};
use pj_machine::{ChannelName, Numbered, Refusal, channels_body, journal_body};
use pj_name::Name;
use std::alloc::Global;

impl State {
    /// The reply to each command that first looks up a channel of this name, which is not there.
    pub fn no_channel(&self, name: &ChannelName) -> Numbered
        requires { After self.now.journal (λ s. list_of s name.now ≡ None) }
        ensures { (x : Command) → first_channel x ≡ Some name.now → Reads self.now x result }
    {
        let _name = name;
        self.refused(Refusal::Channel)
    }

    /// The reply to each command that first looks up a change of this name, which is not there.
    pub fn no_change(&self, name: Name) -> Numbered
        requires { After self.now.journal (λ s. record_of s.store name ≡ None) }
        ensures { (x : Command) → first_change x ≡ Some name → Reads self.now x result }
    {
        let _name = name;
        self.refused(Refusal::Change)
    }

    /// The reply to `put` of a text that no change has.
    pub fn malformed(&self) -> Numbered
        ensures { (text : List ℕ) → IsMalformed text → Reads self.now (command.Put text) result }
    {
        self.refused(Refusal::Malformed)
    }

    /// The reply to `get`.
    pub fn get(&self, alloc: Global, name: Name) -> Numbered
        ensures { Reads self.now (command.Get name) result }
    {
        match self.find(name) {
            Some(record) => get_reply(alloc, record, self.len()),
            None => self.no_change(name),
        }
    }

    /// The reply to `inverse`.
    pub fn inverse(&self, alloc: Global, name: Name) -> Numbered
        ensures { Reads self.now (command.Inverse name) result }
    {
        match self.find(name) {
            Some(record) => inverse_reply(alloc, record, self.len()),
            None => self.no_change(name),
        }
    }

    /// The reply to `graph`.
    pub fn graph(&self, alloc: Global, name: &ChannelName) -> Numbered
        ensures { Reads self.now (command.Graph name.now) result }
    {
        match self.standing(name) {
            Some(standing) => graph_reply(alloc, &standing.channel, self.len()),
            None => self.no_channel(name),
        }
    }

    /// The reply to `print`.
    pub fn print(&self, alloc: Global, name: &ChannelName) -> Numbered
        ensures { Reads self.now (command.Print name.now) result }
    {
        match self.standing(name) {
            Some(standing) => {
                print_reply(alloc, &standing.channel, self.limits().live, self.len())
            }
            None => self.no_channel(name),
        }
    }

    /// The reply to `log`.
    pub fn log(&self, alloc: Global, name: &ChannelName) -> Numbered
        ensures { Reads self.now (command.Log name.now) result }
    {
        match self.standing(name) {
            Some(standing) => log_reply(alloc, &standing.channel, self.len()),
            None => self.no_channel(name),
        }
    }

    /// The channels as they are written.
    fn channels_bytes(&self, alloc: Global) -> Result<Bytes, Memory>
        ensures { IfOk result (λ body. After self.now.journal (λ s. (counts : List ChannelCount) × AreCounts s counts × (body ≡ channels_text counts))) }
    {
        let counts = self.counts(alloc)?;
        channels_body(alloc, &counts)
    }

    /// The reply to `channels`.
    pub fn channels(&self, alloc: Global) -> Numbered
        ensures { Reads self.now command.Channels result }
    {
        given(self.len(), self.channels_bytes(alloc))
    }

    /// The reply to `journal`.
    pub fn journal(&self, alloc: Global) -> Numbered
        ensures { Reads self.now command.Journal result }
    {
        given(self.len(), journal_body(alloc, self.entries()))
    }
}
