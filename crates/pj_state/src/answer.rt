//! What one thread replies to a command.
ghost use Rattle.std.specs.Prelude.{◌≢◌};
ghost use Rattle.pj_machine.specs.declared.command.Command.TheVariants.{Quit};
ghost use Rattle.pj_state.specs.Replies.{Replies};

use crate::state::State;
use pj_machine::{Command, Numbered};
use std::alloc::Global;

impl State {
    /// Answers one command, which is this call of this pass.
    ///
    /// All memory is taken before anything is entered: where it is wanting, the state is as it was.
    pub fn answer(&mut self, alloc: Global, pass: u32, call: u64, command: &Command) -> Numbered
        // To quit is no call.
        requires asks { command.now ≢ Quit }
        ensures { Replies self.old pass call command.now self.new result }
    {
        match command {
            Command::Put(text) => self.put_text(alloc, pass, call, text),
            Command::Get(name) => self.get(alloc, *name),
            Command::Inverse(name) => self.inverse(alloc, *name),
            Command::New(name) => self.make(alloc, pass, call, *name),
            Command::Fork(from, to) => self.fork(alloc, pass, call, *from, *to),
            Command::Drop(name) => self.take_away(pass, call, *name),
            Command::Apply(name, change) => self.apply(alloc, pass, call, *name, *change),
            Command::Unrecord(name, change) => self.unrecord(alloc, pass, call, *name, *change),
            Command::Uproot(name, change) => self.uproot(alloc, pass, call, *name, *change),
            Command::Pull(into, from) => self.pull(alloc, pass, call, *into, *from),
            Command::Graph(name) => self.graph(alloc, name),
            Command::Print(name) => self.print(alloc, name),
            Command::Log(name) => self.log(alloc, name),
            Command::Channels => self.channels(alloc),
            Command::Journal => self.journal(alloc),
            Command::Quit => unreachable!(),
        }
    }
}
