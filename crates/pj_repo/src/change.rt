//! The commands that change a channel by one change, which are worked out outside the lock.
ghost use Rattle.std.specs.Prelude.{◌<◌, ◌^◌};
ghost use Rattle.pj_machine.specs.declared.command.Command.TheVariants as command;
ghost use Rattle.pj_machine.specs.Answered.{Answered};
ghost use Rattle.pj_repo.specs.Views.{pass_view};

use crate::gate::Gate;
use crate::locked::LockedState;
use crate::repo::Repo;
use crate::work::{Install, ShareBoth};
use pj_book::{Keeps, Pass};
use pj_machine::{ChannelName, Command, Numbered, Write};
use pj_name::Name;
use pj_state::{applied, unrecorded};
use std::alloc::Global;
use std::sync::Wait;

impl<N: Keeps<LockedState>> Repo<N> {
    /// Answers `apply`.
    pub(crate) fn apply<R: Wait, G: Gate>(
        &self,
        rt: &R,
        alloc: Global,
        pass: &mut Pass<LockedState, N>,
        name: ChannelName,
        change: Name,
        gate: &G,
    ) -> Numbered
        requires { pass.old.calls < 2 ^ 63 }
        ensures { Answered self.now.limits (pass_view pass.old) (pass_view pass.new) (command.Apply name change) result }
    {
        let seen = match self.look(rt, pass, ShareBoth { name, change }) {
            Ok(seen) => seen,
            Err(reply) => return reply,
        };
        let channel = match applied(alloc, &seen.channel, &seen.record, seen.place) {
            Ok(channel) => channel,
            Err(reply) => return reply,
        };
        gate.between();
        let install = Install {
            alloc,
            command: &Command::Apply(name, change),
            write: Write::Apply(name, change),
            name,
            last: seen.last,
            channel,
        };
        self.book.again(rt, pass, install)
    }

    /// Answers `unrecord`.
    pub(crate) fn unrecord<R: Wait, G: Gate>(
        &self,
        rt: &R,
        alloc: Global,
        pass: &mut Pass<LockedState, N>,
        name: ChannelName,
        change: Name,
        gate: &G,
    ) -> Numbered
        requires { pass.old.calls < 2 ^ 63 }
        ensures { Answered self.now.limits (pass_view pass.old) (pass_view pass.new) (command.Unrecord name change) result }
    {
        let seen = match self.look(rt, pass, ShareBoth { name, change }) {
            Ok(seen) => seen,
            Err(reply) => return reply,
        };
        let channel = match unrecorded(alloc, &seen.channel, change, seen.place) {
            Ok(channel) => channel,
            Err(reply) => return reply,
        };
        gate.between();
        let install = Install {
            alloc,
            command: &Command::Unrecord(name, change),
            write: Write::Unrecord(name, change),
            name,
            last: seen.last,
            channel,
        };
        self.book.again(rt, pass, install)
    }
}
