//! How one command is answered.
ghost use Rattle.std.specs.Prelude.{◌≡◌, ℕ, ◌<◌, ◌^◌};
ghost use Rattle.std.specs.Thread.{IsSync};
ghost use Rattle.pj_machine.specs.declared.command.Command.{Command};
ghost use Rattle.pj_machine.specs.declared.reply.Numbered.{Numbered};
ghost use Rattle.pj_wire.specs.Requests.{IsCall};
ghost use Rattle.pj_session.specs.Steps.{Stepped, HasStepCause};

use pj_machine::{Command, Numbered, Replier};
use std::alloc::Global;
use std::sync::Wait;
use std::thread::Threads;

/// Why a command has no reply that may be given.
#[derive(Clone, Copy, Debug, PartialEq, Eq)]
pub enum StepRefusal {
    /// There was no memory before it was answered. It is no call of the pass.
    Memory,
    /// It was answered, and what keeps the writes of the session failed.
    Store,
}

/// How a session has a command answered: by the replier, with more to be done before the reply may be given, as where writes
/// are kept.
pub trait Step {
    /// Whether it may be asked.
    ghost ready: { Self → Type 0 };

    /// From what was there before to what is there after an answered command.
    ghost does: { Self → Command → Numbered → Self → Type 0 };

    /// How often it has failed.
    ghost faults: { Self → ℕ };

    /// Has one command answered. It may wait.
    ///
    /// # Errors
    /// `Memory`: nothing was done. `Store` only where the count of faults rose; the command was answered.
    fn step<P: Replier, R: Threads + Wait + Sync>(
        &mut self,
        rt: &R,
        alloc: Global,
        replier: &P,
        pass: &mut P::Pass,
        command: &Command,
    ) -> Result<Numbered, StepRefusal>
        // Threads may share the handle, as the bound says.
        requires sync { IsSync R.row }
        requires ready { ready self.old }
        requires calls { (P.view pass.old).calls < 2 ^ 63 }
        requires asks { IsCall command.now }
        ensures step { Stepped (λ s. ready s) (λ s x r t. does s x r t) (P.limits replier.now)
            self.old self.new (P.view pass.old) (P.view pass.new) command.now result }
        ensures cause { HasStepCause (faults self.old) (faults self.new) result };
}

/// The replier alone answers.
#[derive(Drop)]
pub struct Direct;

impl Step for Direct {
    ghost ready = { λ _. Unit {0} };

    ghost does = { λ _ _ _ _. Unit {0} };

    ghost faults = { λ _. 0 };

    fn step<P: Replier, R: Threads + Wait + Sync>(
        &mut self,
        rt: &R,
        alloc: Global,
        replier: &P,
        pass: &mut P::Pass,
        command: &Command,
    ) -> Result<Numbered, StepRefusal> {
        Ok(replier.answer(rt, alloc, pass, command))
    }
}
