//! The command `run`: a session for each of several scripts, in threads, and then the journal.
ghost use Rattle.std.specs.Prelude.{◌≡◌, ◌≢◌, ◌<◌, ◌≤◌, ◌^◌, [], length, vec_capacity, IfSome};
ghost use Rattle.pj_serve.specs.Outside.{KeepsOffice};
ghost use Rattle.pj_serve.specs.Opening.{handed_back};
ghost use Rattle.pj_serve.specs.Sessions.{HasNoSession, HoldsNone, DoesRun};
ghost use Rattle.pj_serve.specs.Status.{exit_status};

use crate::finish::{Finish, Kept};
use crate::hold::run_sessions;
use crate::listing::write_journal;
use crate::opening::{Opened, Unpaired, hand_back, open_output, open_scripts};
use crate::status::{Status, status_after};
use pj_io::Office;
use pj_machine::Limits;
use std::alloc::Global;
use std::sync::Wait;
use std::thread::Threads;

/// Room for so many pairs, as they are opened and as they are handed back.
fn room_for<S: Drop, D: Drop>(
    alloc: Global,
    count: usize,
) -> Option<(Vec<Opened<S, D>>, Vec<Kept<S, D>>)>
    ensures opened { IfSome result (λ room. (room.0.items ≡ []) × (count ≤ vec_capacity room.0)) }
    ensures kept { IfSome result (λ room. (room.1.items ≡ []) × (count ≤ vec_capacity room.1)) }
{
    let opened = Vec::with_capacity(alloc, count).ok()?;
    let kept = Vec::with_capacity(alloc, count).ok()?;
    Some((opened, kept))
}

/// What the call hands back where not all was opened: what was, except where memory was wanted.
fn stopped<S: Drop, D: Drop, V: Drop>(
    alloc: Global,
    lacks: Unpaired<S>,
    opened: Vec<Opened<S, D>>,
    kept: Vec<Kept<S, D>>,
) -> Finish<S, D, V>
    requires room { (kept.items ≡ []) × (length opened.items ≤ vec_capacity kept) }
    requires few { length opened.items < 2 ^ 32 }
    ensures status { result.status ≡ exit_status lacks.status }
    ensures memory { lacks.status ≡ Status.Memory → HoldsNone result }
    ensures kept { lacks.status ≢ Status.Memory → result.kept.items ≡ handed_back 1 opened.items }
    ensures input { lacks.status ≢ Status.Memory → result.input ≡ lacks.source }
    ensures none { HasNoSession result }
{
    match lacks.status {
        Status::Memory => Finish::idle(alloc, Status::Memory, None, None),
        status => Finish::stopped(alloc, status, hand_back(opened, kept), lacks.source),
    }
}

/// Opens all scripts and their replies, and the output; runs a session over each script, all on one repository; and writes its
/// journal to the output once all have ended.
pub(crate) fn run_scripts<R: Threads + Wait + Sync, O: Office>(
    rt: &R,
    alloc: Global,
    office: &mut O,
    paths: &[String],
    limits: Limits,
) -> Finish<O::Src, O::Dst, O::Way>
    requires { length paths.now ≤ 64 }
    ensures run { DoesRun (record {
      offices = O.meaning;
      streams = record { sources = O.Src.meaning; sinks = O.Dst.meaning };
      doors = O.Way.meaning;
    }) limits office.old office.new result paths.now }
    ensures office { KeepsOffice O.meaning office.old office.new }
{
    let Some((mut opened, kept)) = room_for(alloc, paths.len()) else {
        return Finish::idle(alloc, Status::Memory, None, None);
    };
    match open_scripts(alloc, office, paths, &mut opened) {
        Ok(()) => {}
        Err(lacks) => return stopped(alloc, lacks, opened, kept),
    }
    let mut out = match open_output(office) {
        Ok(out) => out,
        Err(status) => {
            let lacks = Unpaired {
                status,
                source: None,
            };
            return stopped(alloc, lacks, opened, kept);
        }
    };
    let Some(held) = run_sessions(rt, alloc, limits, opened) else {
        return Finish::idle(alloc, Status::Memory, None, None);
    };
    let whole = write_journal(&mut out, held.journal.items()).is_ok();
    let status = status_after(held.ends.items(), whole);
    Finish {
        status: status.code(),
        journal: held.journal,
        ends: held.ends,
        kept: held.kept,
        input: None,
        out: Some(out),
        doors: Vec::new(alloc),
    }
}
