//! Who answers.
ghost use Rattle.std.specs.Prelude.{◌≡◌, ◌≢◌, ◌+◌, ◌<◌, ◌^◌};
ghost use Rattle.std.specs.Thread.{IsSync};
ghost use mathlib.Core.List.{IsPrefix};
ghost use Rattle.pj_machine.specs.declared.limits.Limits.{Limits};
ghost use Rattle.pj_machine.specs.Call.{PassView, IsResult, IsAtEnd, GainsAtMostLast};

use crate::command::Command;
use crate::reply::Numbered;
use std::alloc::Global;
use std::sync::Wait;
use std::thread::Threads;

/// Who answers the commands of passes, each as one thread would at its place in the journal.
pub trait Replier {
    /// What a session holds: it has a number and counts its calls.
    type Pass;

    /// What is known of a pass.
    ghost view: { Self.Pass → PassView };

    /// The limits of what it answers.
    ghost limits: { Self → Limits };

    /// Answers one command, which is one call of the pass. It may wait.
    fn answer<R: Threads + Wait + Sync>(
        &self,
        rt: &R,
        alloc: Global,
        pass: &mut Self::Pass,
        command: &Command,
    ) -> Numbered
        // Threads may share the handle, as the bound says: the proof of an `impl` knows it by this clause alone.
        requires sync { IsSync R.row }
        requires calls { (view pass.old).calls < 2 ^ 63 }
        // To quit is no call.
        requires asks { command.now ≢ Command.Quit }

        ensures number { (view pass.new).number ≡ (view pass.old).number }
        ensures calls { (view pass.new).calls ≡ (view pass.old).calls + 1 }
        ensures journal { IsPrefix (view pass.old).journal (view pass.new).journal }
        // At most one entry of the pass is new: one of this call, which is the last of the journal.
        ensures own { GainsAtMostLast (view pass.old) (view pass.new) }

        // A reply numbers the end of that journal, and is what one thread replies there. Want of memory enters nothing.
        ensures place { IsAtEnd (view pass.new).journal result }
        ensures result { IsResult (limits self.now) (view pass.new).journal (view pass.new).number (view pass.new).calls command.now result };
}
