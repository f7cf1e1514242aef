//! A session over a script.
ghost use Rattle.std.specs.Prelude.{◌≡◌};
ghost use mathlib.Core.List.{IsPrefix};
ghost use Rattle.pj_machine.specs.Call.{IsFresh};
ghost use Rattle.pj_load.specs.Speech.{Speech};

use crate::reading::Reading;
use pj_io::SureSink;
use pj_machine::Replier;
use pj_session::{End, Step, session_by};
use std::alloc::Global;
use std::sync::Wait;
use std::thread::Threads;

/// Runs one session to the end of its script. Its replies are seen and go nowhere.
pub(crate) fn speak<T: Step, P: Replier, R: Threads + Wait + Sync>(
    rt: &R,
    alloc: Global,
    seen: &mut T,
    replier: &P,
    pass: &mut P::Pass,
    script: &[u8],
) -> End
    requires ready { T.ready seen.old }
    requires sure { (t : _) → T.faults t ≡ 0 }
    requires fresh { IsFresh (P.view pass.old) }
    ensures number { (P.view pass.new).number ≡ (P.view pass.old).number }
    ensures journal { IsPrefix (P.view pass.old).journal (P.view pass.new).journal }
    ensures speech { Speech (λ s x r t. T.does s x r t) (P.limits replier.now) seen.old seen.new (P.view pass.new) script.now result }
{
    let mut source = Reading {
        left: script,
        was_shut: false,
    };
    let mut sink = SureSink::new();
    let limit = script.len() as u64 + 1;
    session_by(
        rt,
        alloc,
        seen,
        replier,
        pass,
        &mut source,
        &mut sink,
        limit,
    )
}
