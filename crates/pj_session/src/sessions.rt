//! One session, from its first byte to its end.
ghost use Rattle.std.specs.Prelude.{◌≡◌, ◌≢◌, ◌≤◌, [], ◌++◌, true};
ghost use mathlib.Core.List.{IsPrefix};
ghost use Rattle.pj_io.specs.Told.{Where};
ghost use Rattle.pj_io.specs.Causes.{Rose};
ghost use Rattle.pj_machine.specs.Call.{IsFresh};
ghost use Rattle.pj_session.specs.Calls.{Calls, Chain};
ghost use Rattle.pj_session.specs.Session.{IsSession};
ghost use Rattle.pj_session.specs.Spoke.{Spoke};
ghost use Rattle.pj_session.specs.Turn.{Wrote};

use crate::answering::answer_all;
use crate::end::End;
use crate::step::{Direct, Step};
use pj_change::Memory;
use pj_io::{Failed, Sink, Source};
use pj_machine::Replier;
use pj_wire::Decoder;
use std::alloc::Global;
use std::sync::Wait;
use std::thread::Threads;

/// The most bytes that are asked for at once.
const PIECE: usize = 4_096;

/// Answers each whole request of the source in order, and shuts the source and the sink at the end. It takes at most `limit`
/// bytes, asks for more only where no whole request waits, and may wait.
pub fn session<P: Replier, S: Source, D: Sink, R: Threads + Wait + Sync>(
    rt: &R,
    alloc: Global,
    replier: &P,
    pass: &mut P::Pass,
    source: &mut S,
    sink: &mut D,
    limit: u64,
) -> End
    requires fresh { IsFresh (P.view pass.old) }
    ensures number { (P.view pass.new).number ≡ (P.view pass.old).number }
    ensures journal { IsPrefix (P.view pass.old).journal (P.view pass.new).journal }
    ensures session { IsSession limit
        (λ taken. Where (S.meaning.tells source.old) (S.meaning.left source.old ≡ taken ++ S.meaning.left source.new))
        (Where (S.meaning.tells source.old) (S.meaning.left source.new ≡ []))
        (λ xs rs. Spoke (P.limits replier.now) (P.view pass.new).journal (P.view pass.new).number xs rs
        × Where (D.meaning.tells sink.old) (Wrote result (D.meaning.written sink.old) (D.meaning.written sink.new) rs))
        result }
    ensures no_store { result ≢ End.StoreFault }
    ensures read_cause { result ≡ End.ReadFault → Rose (S.meaning.faults source.old) (S.meaning.faults source.new) }
    ensures write_cause { result ≡ End.WriteFault → Rose (D.meaning.faults sink.old) (D.meaning.faults sink.new) }
    ensures source_shut { Where (S.meaning.tells source.old) (S.meaning.was_shut source.new ≡ true) }
    ensures sink_shut { Where (D.meaning.tells sink.old) (D.meaning.was_shut sink.new ≡ true) }
    ensures source_told { S.meaning.tells source.new ≡ S.meaning.tells source.old }
    ensures sink_told { D.meaning.tells sink.new ≡ D.meaning.tells sink.old }
    ensures label { Where (D.meaning.tells sink.old) (D.meaning.label sink.new ≡ D.meaning.label sink.old) }
    ensures source_count { S.meaning.faults source.old ≤ S.meaning.faults source.new }
    ensures sink_count { D.meaning.faults sink.old ≤ D.meaning.faults sink.new }
{
    let mut step = Direct;
    session_by(rt, alloc, &mut step, replier, pass, source, sink, limit)
}

/// The same where each command is answered by `step`, as where the writes of the session are kept. At `StoreFault` the last
/// command was answered and has no reply. Where `step` finds no memory the session ends before the command is answered.
pub fn session_by<T: Step, P: Replier, S: Source, D: Sink, R: Threads + Wait + Sync>(
    rt: &R,
    alloc: Global,
    step: &mut T,
    replier: &P,
    pass: &mut P::Pass,
    source: &mut S,
    sink: &mut D,
    limit: u64,
) -> End
    requires ready { T.ready step.old }
    requires fresh { IsFresh (P.view pass.old) }
    ensures number { (P.view pass.new).number ≡ (P.view pass.old).number }
    ensures journal { IsPrefix (P.view pass.old).journal (P.view pass.new).journal }
    ensures session { IsSession limit
        (λ taken. Where (S.meaning.tells source.old) (S.meaning.left source.old ≡ taken ++ S.meaning.left source.new))
        (Where (S.meaning.tells source.old) (S.meaning.left source.new ≡ []))
        (λ xs rs. Spoke (P.limits replier.now) (P.view pass.new).journal (P.view pass.new).number xs rs
        × Chain (λ s x r t. T.does s x r t) step.old xs rs step.new
        × Where (D.meaning.tells sink.old) (Wrote result (D.meaning.written sink.old) (D.meaning.written sink.new) rs))
        result }
    ensures ready { result ≢ End.StoreFault → T.ready step.new }
    ensures read_cause { result ≡ End.ReadFault → Rose (S.meaning.faults source.old) (S.meaning.faults source.new) }
    ensures write_cause { result ≡ End.WriteFault → Rose (D.meaning.faults sink.old) (D.meaning.faults sink.new) }
    ensures store_cause { result ≡ End.StoreFault → Rose (T.faults step.old) (T.faults step.new) }
    ensures source_shut { Where (S.meaning.tells source.old) (S.meaning.was_shut source.new ≡ true) }
    ensures sink_shut { Where (D.meaning.tells sink.old) (D.meaning.was_shut sink.new ≡ true) }
    ensures source_told { S.meaning.tells source.new ≡ S.meaning.tells source.old }
    ensures sink_told { D.meaning.tells sink.new ≡ D.meaning.tells sink.old }
    ensures label { Where (D.meaning.tells sink.old) (D.meaning.label sink.new ≡ D.meaning.label sink.old) }
    ensures source_count { S.meaning.faults source.old ≤ S.meaning.faults source.new }
    ensures sink_count { D.meaning.faults sink.old ≤ D.meaning.faults sink.new }
    ensures step_count { T.faults step.old ≤ T.faults step.new }
{
    let end = talk(rt, alloc, step, replier, pass, source, sink, limit);
    source.shut();
    sink.shut();
    end
}

/// The loop of `session_by`, which then shuts the source and the sink. Its clause tells the calls one by one, for the proof of what
/// `session_by` says of them.
fn talk<T: Step, P: Replier, S: Source, D: Sink, R: Threads + Wait + Sync>(
    rt: &R,
    alloc: Global,
    step: &mut T,
    replier: &P,
    pass: &mut P::Pass,
    source: &mut S,
    sink: &mut D,
    limit: u64,
) -> End
    requires ready { T.ready step.old }
    requires no_call { (P.view pass.old).calls ≡ 0 }
    ensures talked { IsSession limit
        (λ taken. Where (S.meaning.tells source.old) (S.meaning.left source.old ≡ taken ++ S.meaning.left source.new))
        (Where (S.meaning.tells source.old) (S.meaning.left source.new ≡ []))
        (λ xs rs. Calls (P.limits replier.now) (P.view pass.old) xs rs (P.view pass.new)
        × Chain (λ s x r t. T.does s x r t) step.old xs rs step.new
        × Where (D.meaning.tells sink.old) (Wrote result (D.meaning.written sink.old) (D.meaning.written sink.new) rs))
        result }
    ensures ready { result ≢ End.StoreFault → T.ready step.new }
    ensures read_cause { result ≡ End.ReadFault → Rose (S.meaning.faults source.old) (S.meaning.faults source.new) }
    ensures write_cause { result ≡ End.WriteFault → Rose (D.meaning.faults sink.old) (D.meaning.faults sink.new) }
    ensures store_cause { result ≡ End.StoreFault → Rose (T.faults step.old) (T.faults step.new) }
    ensures source_told { S.meaning.tells source.new ≡ S.meaning.tells source.old }
    ensures sink_told { D.meaning.tells sink.new ≡ D.meaning.tells sink.old }
    ensures label { Where (D.meaning.tells sink.old) (D.meaning.label sink.new ≡ D.meaning.label sink.old) }
    ensures source_count { S.meaning.faults source.old ≤ S.meaning.faults source.new }
    ensures sink_count { D.meaning.faults sink.old ≤ D.meaning.faults sink.new }
    ensures step_count { T.faults step.old ≤ T.faults step.new }
{
    let mut decoder = Decoder::new(alloc);
    let mut piece = [0; PIECE];
    let mut room = limit;
    while room > 0 {
        let wanted = room.min(PIECE as u64) as usize;
        let count = match source.take(&mut piece[..wanted]) {
            Ok(count) => count,
            Err(Failed) => return End::ReadFault,
        };
        if count == 0 {
            if decoder.idle() {
                return End::Done;
            }
            return End::Cut;
        }
        room -= count as u64;
        match decoder.feed(&piece[..count]) {
            Ok(()) => {}
            Err(Memory) => return End::Memory,
        }
        match answer_all(rt, alloc, step, replier, pass, &mut decoder, sink) {
            Some(end) => return end,
            None => {}
        }
    }
    End::Spent
}
