//! The command `one`: a session over the input and the output.
ghost use Rattle.std.specs.Prelude.{◌≡◌};
ghost use Rattle.pj_serve.specs.Outside.{KeepsOffice};
ghost use Rattle.pj_serve.specs.Sessions.{DoesOne};

use crate::finish::Finish;
use crate::hold::run_sessions;
use crate::opening::open_input_and_output;
use crate::status::{Status, status_after};
use pj_io::Office;
use pj_machine::Limits;
use std::alloc::Global;
use std::sync::Wait;
use std::thread::Threads;

/// Opens the input and the output, and runs a session over them on a repository of its own.
pub(crate) fn one<R: Threads + Wait + Sync, O: Office>(
    rt: &R,
    alloc: Global,
    office: &mut O,
    limits: Limits,
) -> Finish<O::Src, O::Dst, O::Way>
    ensures one { DoesOne (record {
      offices = O.meaning;
      streams = record { sources = O.Src.meaning; sinks = O.Dst.meaning };
      doors = O.Way.meaning;
    }) limits office.old office.new result }
    ensures office { KeepsOffice O.meaning office.old office.new }
{
    let opened = match open_input_and_output(office) {
        Ok(opened) => opened,
        Err(lacks) => {
            return Finish::stopped(alloc, lacks.status, Vec::new(alloc), lacks.source);
        }
    };
    let Ok(mut pairs) = Vec::with_capacity(alloc, 1) else {
        return Finish::idle(alloc, Status::Memory, None, None);
    };
    pairs.push_reserved(opened);
    let Some(held) = run_sessions(rt, alloc, limits, pairs) else {
        return Finish::idle(alloc, Status::Memory, None, None);
    };
    let status = status_after(held.ends.items(), true);
    Finish {
        status: status.code(),
        journal: held.journal,
        ends: held.ends,
        kept: held.kept,
        input: None,
        out: None,
        doors: Vec::new(alloc),
    }
}
