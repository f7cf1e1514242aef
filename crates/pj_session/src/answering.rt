//! The requests that wait are answered.
ghost use Rattle.std.specs.Prelude.{◌≡◌, ◌≢◌, ◌↔◌, ◌+◌, ◌<◌, ◌^◌, IsTrue, Some, length};
ghost use Rattle.pj_io.specs.Told.{Where};
ghost use Rattle.pj_session.specs.Calls.{Calls, Chain};
ghost use Rattle.pj_session.specs.Turn.{Turn, WroteSoFar, HasEndCause};

use crate::end::End;
use crate::reply::write_reply;
use crate::step::{Step, StepRefusal};
use pj_change::Memory;
use pj_io::{Sink, WriteFault};
use pj_machine::{Command, Replier};
use pj_wire::{Decoder, Next};
use std::alloc::Global;
use std::sync::Wait;
use std::thread::Threads;

fn is_quit(command: &Command) -> bool
    ensures { IsTrue result ↔ (command.now ≡ Command.Quit) }
{
    match command {
        Command::Quit => true,
        _ => false,
    }
}

/// Answers the requests that are whole, in their order, each reply in full before the next one, and says whether the session
/// ended.
pub(crate) fn answer_all<T: Step, P: Replier, D: Sink, R: Threads + Wait + Sync>(
    rt: &R,
    alloc: Global,
    step: &mut T,
    replier: &P,
    pass: &mut P::Pass,
    decoder: &mut Decoder,
    sink: &mut D,
) -> Option<End>
    requires ready { T.ready step.old }
    requires calls { (P.view pass.old).calls + (P.view pass.old).calls + length decoder.old < 2 ^ 64 }
    ensures turn { Turn decoder.old decoder.new
        (λ xs rs. Calls (P.limits replier.now) (P.view pass.old) xs rs (P.view pass.new)
        × Chain (λ s x r t. T.does s x r t) step.old xs rs step.new
        × Where (D.meaning.tells sink.old) (WroteSoFar result (D.meaning.written sink.old) (D.meaning.written sink.new) rs))
        result }
    ensures ready { result ≢ Some End.StoreFault → T.ready step.new }
    ensures told { D.meaning.tells sink.new ≡ D.meaning.tells sink.old }
    ensures label { Where (D.meaning.tells sink.old) (D.meaning.label sink.new ≡ D.meaning.label sink.old) }
    ensures write_cause { HasEndCause (D.meaning.faults sink.old) (D.meaning.faults sink.new) End.WriteFault result }
    ensures store_cause { HasEndCause (T.faults step.old) (T.faults step.new) End.StoreFault result }
{
    loop {
        let command = match decoder.next(alloc) {
            Ok(Next::Message(command)) => command,
            Ok(Next::More) => return None,
            Ok(Next::Bad) => return Some(End::Bad),
            Err(Memory) => return Some(End::Memory),
        };
        if is_quit(&command) {
            return Some(End::Done);
        }
        let numbered = match step.step(rt, alloc, replier, pass, &command) {
            Ok(numbered) => numbered,
            Err(StepRefusal::Memory) => return Some(End::Memory),
            Err(StepRefusal::Store) => return Some(End::StoreFault),
        };
        match write_reply(sink, &numbered) {
            Ok(()) => {}
            Err(WriteFault) => return Some(End::WriteFault),
        }
    }
}
