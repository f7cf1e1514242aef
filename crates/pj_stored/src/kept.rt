//! A session whose writes are kept.
ghost use Rattle.std.specs.Prelude.{◌≡◌, ◌≢◌, ◌≤◌, [], ◌++◌, true};
ghost use mathlib.Core.List.{IsPrefix};
ghost use Rattle.pj_io.specs.Told.{Where};
ghost use Rattle.pj_io.specs.Causes.{Rose};
ghost use Rattle.pj_machine.specs.Call.{IsFresh};
ghost use Rattle.pj_session.specs.Calls.{Chain};
ghost use Rattle.pj_session.specs.Session.{IsSession};
ghost use Rattle.pj_session.specs.Spoke.{Spoke};
ghost use Rattle.pj_session.specs.Turn.{Wrote};
ghost use Rattle.pj_session.specs.declared.end.End.{End};
ghost use Rattle.pj_stored.specs.Kept.{KeptBy};
ghost use Rattle.pj_stored.specs.Recorded.{IsReady, Recorded};

use crate::stored::Stored;
use pj_disk::Disk;
use pj_io::{Sink, Source};
use pj_machine::Replier;
use pj_session::{End, session_by};
use std::alloc::Global;
use std::sync::Wait;
use std::thread::Threads;

/// A session that gives the reply to a request which was accepted once the request is on the disk.
/// It may wait.
///
/// At each moment a crash leaves the list that was stored before, and behind it a prefix of the
/// accepted requests. At each end but `StoreFault` all of them are on the disk, and at `StoreFault`
/// all but at most the last.
pub fn kept_session<K: Disk, P: Replier, S: Source, D: Sink, R: Threads + Wait + Sync>(
    rt: &R,
    alloc: Global,
    stored: &mut Stored<K>,
    replier: &P,
    pass: &mut P::Pass,
    source: &mut S,
    sink: &mut D,
    limit: u64,
) -> End
    requires ready { IsReady K.tells K.seen K.may_leave stored.old }
    requires fresh { IsFresh (P.view pass.old) }
    ensures number { (P.view pass.new).number ≡ (P.view pass.old).number }
    ensures journal { IsPrefix (P.view pass.old).journal (P.view pass.new).journal }
    ensures session { IsSession limit
        (λ taken. Where (S.meaning.tells source.old) (S.meaning.left source.old ≡ taken ++ S.meaning.left source.new))
        (Where (S.meaning.tells source.old) (S.meaning.left source.new ≡ []))
        (λ xs rs. Spoke (P.limits replier.now) (P.view pass.new).journal (P.view pass.new).number xs rs
        × Chain (λ s x r t. Recorded K.tells K.seen K.may_leave K.moment K.left_since K.faults s x r t) stored.old xs rs stored.new
        × KeptBy K.tells K.seen K.may_leave K.moment K.left_since stored.old stored.new (result ≢ End.StoreFault) xs rs
        × Where (D.meaning.tells sink.old) (Wrote result (D.meaning.written sink.old) (D.meaning.written sink.new) rs))
        result }
    ensures ready { result ≢ End.StoreFault → IsReady K.tells K.seen K.may_leave stored.new }
    ensures read_cause { result ≡ End.ReadFault → Rose (S.meaning.faults source.old) (S.meaning.faults source.new) }
    ensures write_cause { result ≡ End.WriteFault → Rose (D.meaning.faults sink.old) (D.meaning.faults sink.new) }
    ensures store_cause { result ≡ End.StoreFault → Rose (K.faults stored.old.disk) (K.faults stored.new.disk) }
    ensures source_shut { Where (S.meaning.tells source.old) (S.meaning.was_shut source.new ≡ true) }
    ensures sink_shut { Where (D.meaning.tells sink.old) (D.meaning.was_shut sink.new ≡ true) }
    ensures source_told { S.meaning.tells source.new ≡ S.meaning.tells source.old }
    ensures sink_told { D.meaning.tells sink.new ≡ D.meaning.tells sink.old }
    ensures told { K.tells stored.new.disk ≡ K.tells stored.old.disk }
    ensures label { Where (D.meaning.tells sink.old) (D.meaning.label sink.new ≡ D.meaning.label sink.old) }
    ensures source_count { S.meaning.faults source.old ≤ S.meaning.faults source.new }
    ensures sink_count { D.meaning.faults sink.old ≤ D.meaning.faults sink.new }
    ensures store_count { K.faults stored.old.disk ≤ K.faults stored.new.disk }
{
    session_by(rt, alloc, stored, replier, pass, source, sink, limit)
}
