//! The command `load`: a large run over a repository of its own, and then its summary.
ghost use Rattle.std.specs.Prelude.{◌≡◌};
ghost use Rattle.pj_io.specs.Told.{Where};
ghost use Rattle.pj_io.specs.Sink.{NewSink};
ghost use Rattle.pj_serve.specs.Loads.{DoesLoad, WroteSummary};
ghost use Rattle.pj_serve.specs.Outside.{KeepsOffice};
ghost use Rattle.pj_serve.specs.Tasks.{IsBoundedRun};

use crate::finish::Finish;
use crate::opening::open_output;
use crate::status::Status;
use crate::task::Loading;
use pj_change::Bytes;
use pj_io::{Office, Sink, give_all};
use pj_load::{Loaded, large_run};
use pj_machine::Limits;
use std::alloc::Global;
use std::sync::Wait;
use std::thread::Threads;

/// Writes the summary, if there is one, to a new sink.
fn write_summary<D: Sink>(sink: &mut D, summary: &Option<Bytes>) -> Status
    requires { NewSink D.meaning sink.old }
    ensures wrote { WroteSummary (D.meaning.tells sink.new) (D.meaning.written sink.new) (D.meaning.faults sink.new) summary.now result }
    ensures told { D.meaning.tells sink.new ≡ D.meaning.tells sink.old }
    ensures label { Where (D.meaning.tells sink.old) (D.meaning.label sink.new ≡ D.meaning.label sink.old) }
{
    match summary {
        Some(summary) => match give_all(sink, summary.items()) {
            Ok(()) => Status::Done,
            Err(_) => Status::WriteFault,
        },
        None => Status::Memory,
    }
}

/// Opens the output, makes the large run, and writes its summary.
pub(crate) fn load<R: Threads + Wait + Sync, O: Office>(
    rt: &R,
    alloc: Global,
    office: &mut O,
    loading: Loading,
) -> Finish<O::Src, O::Dst, O::Way>
    requires { IsBoundedRun loading }
    ensures load { DoesLoad (record {
      offices = O.meaning;
      streams = record { sources = O.Src.meaning; sinks = O.Dst.meaning };
      doors = O.Way.meaning;
    }) office.old office.new result loading.number loading.changes loading.sessions }
    ensures office { KeepsOffice O.meaning office.old office.new }
{
    let mut out = match open_output(office) {
        Ok(out) => out,
        Err(status) => return Finish::idle(alloc, status, None, None),
    };
    let Loading {
        number,
        changes,
        sessions,
    } = loading;
    let Some(loaded) = large_run(rt, alloc, Limits::FULL, number, changes, sessions) else {
        return Finish::idle(alloc, Status::Memory, None, Some(out));
    };
    let status = write_summary(&mut out, &loaded.summary);
    let Loaded {
        journal,
        ends,
        summary: _,
    } = loaded;
    Finish {
        status: status.code(),
        journal,
        ends,
        kept: Vec::new(alloc),
        input: None,
        out: Some(out),
        doors: Vec::new(alloc),
    }
}
