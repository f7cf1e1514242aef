//! The top call.
ghost use Rattle.pj_serve.specs.Promises.{Promises, FullPromises};

use crate::finish::Finish;
use crate::load::load;
use crate::one::one;
use crate::scripts::run_scripts;
use crate::serve::serve;
use crate::show::show;
use crate::task::{Task, task_of};
use pj_io::Office;
use pj_machine::Limits;
use std::alloc::Global;
use std::sync::Wait;
use std::thread::Threads;

/// All that the program does with these words, those after the program's name: `run_with` at the full limits.
pub fn run<R: Threads + Wait + Sync, O: Office>(
    rt: &R,
    alloc: Global,
    office: &mut O,
    words: &[String],
) -> Finish<O::Src, O::Dst, O::Way>
    ensures { FullPromises (record {
      offices = O.meaning;
      streams = record { sources = O.Src.meaning; sinks = O.Dst.meaning };
      doors = O.Way.meaning;
    }) office.old office.new words.now result }
{
    run_with(rt, alloc, office, words, Limits::FULL)
}

/// All that the program does with these words, those after the program's name, under these limits.
pub fn run_with<R: Threads + Wait + Sync, O: Office>(
    rt: &R,
    alloc: Global,
    office: &mut O,
    words: &[String],
    limits: Limits,
) -> Finish<O::Src, O::Dst, O::Way>
    ensures { Promises (record {
      offices = O.meaning;
      streams = record { sources = O.Src.meaning; sinks = O.Dst.meaning };
      doors = O.Way.meaning;
    }) limits office.old office.new words.now result }
{
    match task_of(alloc, words) {
        Err(status) => Finish::idle(alloc, status, None, None),
        Ok(Task::Show) => show(alloc, office),
        Ok(Task::One) => one(rt, alloc, office, limits),
        Ok(Task::Run) => run_scripts(rt, alloc, office, &words[1..], limits),
        Ok(Task::Serve(request)) => serve(rt, alloc, office, request, limits),
        Ok(Task::Load(loading)) => load(rt, alloc, office, loading),
    }
}
