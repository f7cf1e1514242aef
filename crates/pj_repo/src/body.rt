//! The commands with a body, which is worked out after the lock was left.
ghost use Rattle.std.specs.Prelude.{◌<◌, ◌^◌};
ghost use Rattle.pj_machine.specs.declared.command.Command.TheVariants as command;
ghost use Rattle.pj_machine.specs.Answered.{Answered};
ghost use Rattle.pj_repo.specs.Views.{pass_view};

use crate::locked::LockedState;
use crate::repo::Repo;
use crate::work::{ShareChange, ShareChannel};
use pj_book::{Keeps, Pass};
use pj_machine::{ChannelName, Numbered};
use pj_name::Name;
use pj_state::{get_reply, graph_reply, inverse_reply, log_reply, print_reply_in_threads};
use std::alloc::Global;
use std::sync::Wait;
use std::thread::Threads;

impl<N: Keeps<LockedState>> Repo<N> {
    /// Answers `get`.
    pub(crate) fn get<R: Wait>(
        &self,
        rt: &R,
        alloc: Global,
        pass: &mut Pass<LockedState, N>,
        name: Name,
    ) -> Numbered
        requires { pass.old.calls < 2 ^ 63 }
        ensures { Answered self.now.limits (pass_view pass.old) (pass_view pass.new) (command.Get name) result }
    {
        match self.look(rt, pass, ShareChange { name }) {
            Ok(seen) => get_reply(alloc, &seen.record, seen.place),
            Err(reply) => reply,
        }
    }

    /// Answers `inverse`.
    pub(crate) fn inverse<R: Wait>(
        &self,
        rt: &R,
        alloc: Global,
        pass: &mut Pass<LockedState, N>,
        name: Name,
    ) -> Numbered
        requires { pass.old.calls < 2 ^ 63 }
        ensures { Answered self.now.limits (pass_view pass.old) (pass_view pass.new) (command.Inverse name) result }
    {
        match self.look(rt, pass, ShareChange { name }) {
            Ok(seen) => inverse_reply(alloc, &seen.record, seen.place),
            Err(reply) => reply,
        }
    }

    /// Answers `graph`.
    pub(crate) fn graph<R: Wait>(
        &self,
        rt: &R,
        alloc: Global,
        pass: &mut Pass<LockedState, N>,
        name: ChannelName,
    ) -> Numbered
        requires { pass.old.calls < 2 ^ 63 }
        ensures { Answered self.now.limits (pass_view pass.old) (pass_view pass.new) (command.Graph name) result }
    {
        match self.look(rt, pass, ShareChannel { name }) {
            Ok(seen) => graph_reply(alloc, &seen.channel, seen.place),
            Err(reply) => reply,
        }
    }

    /// Answers `print`.
    pub(crate) fn print<R: Threads + Wait + Sync>(
        &self,
        rt: &R,
        alloc: Global,
        pass: &mut Pass<LockedState, N>,
        name: ChannelName,
    ) -> Numbered
        requires { pass.old.calls < 2 ^ 63 }
        ensures { Answered self.now.limits (pass_view pass.old) (pass_view pass.new) (command.Print name) result }
    {
        match self.look(rt, pass, ShareChannel { name }) {
            Ok(seen) => {
                print_reply_in_threads(rt, alloc, &seen.channel, self.limits.live, seen.place)
            }
            Err(reply) => reply,
        }
    }

    /// Answers `log`.
    pub(crate) fn log<R: Wait>(
        &self,
        rt: &R,
        alloc: Global,
        pass: &mut Pass<LockedState, N>,
        name: ChannelName,
    ) -> Numbered
        requires { pass.old.calls < 2 ^ 63 }
        ensures { Answered self.now.limits (pass_view pass.old) (pass_view pass.new) (command.Log name) result }
    {
        match self.look(rt, pass, ShareChannel { name }) {
            Ok(seen) => log_reply(alloc, &seen.channel, seen.place),
            Err(reply) => reply,
        }
    }
}
