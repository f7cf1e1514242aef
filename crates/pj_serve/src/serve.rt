//! The command `serve`: workers at the doors of one address.
ghost use Rattle.std.specs.Prelude.{◌≡◌, ◌≤◌, IfOk, IfErr, length};
ghost use Rattle.pj_io.specs.Told.{Where};
ghost use Rattle.pj_serve.specs.Outside.{KeepsOffice};
ghost use Rattle.pj_io.specs.Causes.{Rose};
ghost use Rattle.pj_serve.specs.Opening.{OpeningFailed};
ghost use Rattle.pj_serve.specs.Serves.{AreDoors, DoesServe};

use crate::finish::Finish;
use crate::shares::shares;
use crate::staff::run_workers;
use crate::status::{Status, status_after};
use pj_io::{Door, DoorRefusal, Office};
use pj_machine::Limits;
use pj_words::Request;
use std::alloc::Global;
use std::sync::Wait;
use std::thread::Threads;

/// A door tells as many sessions as it has still to give, where it tells. It does nothing.
fn tells_all<V: Door>()
    ensures { (door : V) → Where (V.meaning.tells door) (length (V.meaning.coming door) ≡ V.meaning.left door) }
{}

/// Opens a door for each share.
///
/// # Errors
/// The status of the call.
fn open_doors<O: Office>(
    office: &mut O,
    address: &str,
    shares: &[u32],
) -> Result<Vec<O::Way>, Status>
    ensures opened { IfOk result (λ opened. AreDoors O.meaning O.Way.meaning office.old address.now shares.now opened.items) }
    ensures refused { IfErr result (λ status.
        OpeningFailed Status.ReadFault (Rose (O.meaning.read_faults office.old) (O.meaning.read_faults office.new)) status) }
    ensures write_faults { O.meaning.write_faults office.new ≡ O.meaning.write_faults office.old }
    ensures office { KeepsOffice O.meaning office.old office.new }
{
    match office.doors(address, shares) {
        Ok(doors) => Ok(doors),
        Err(DoorRefusal::Failed) => Err(Status::ReadFault),
        Err(DoorRefusal::Memory) => Err(Status::Memory),
    }
}

/// Opens a door for each worker, all at one address, and lets the workers serve what comes, each as many sessions as its share, all on
/// one repository.
pub(crate) fn serve<R: Threads + Wait + Sync, O: Office>(
    rt: &R,
    alloc: Global,
    office: &mut O,
    request: Request<'_>,
    limits: Limits,
) -> Finish<O::Src, O::Dst, O::Way>
    requires some { 1 ≤ request.workers }
    requires few { request.workers ≤ 64 }
    requires sessions { request.sessions ≤ 65536 }
    ensures serve { DoesServe (record {
      offices = O.meaning;
      streams = record { sources = O.Src.meaning; sinks = O.Dst.meaning };
      doors = O.Way.meaning;
    }) limits office.old office.new result request.entry.address.now request.entry.sessions request.entry.workers }
    ensures office { KeepsOffice O.meaning office.old office.new }
{
    tells_all::<O::Way>();
    let Some(shares) = shares(alloc, request.sessions, request.workers) else {
        return Finish::idle(alloc, Status::Memory, None, None);
    };
    let doors = match open_doors(office, request.address, shares.as_slice()) {
        Ok(doors) => doors,
        Err(status) => return Finish::idle(alloc, status, None, None),
    };
    let Some(done) = run_workers(rt, alloc, limits, doors, request) else {
        return Finish::idle(alloc, Status::Memory, None, None);
    };
    let status = status_after(done.ends.items(), true);
    Finish {
        status: status.code(),
        journal: done.journal,
        ends: done.ends,
        kept: done.kept,
        input: None,
        out: None,
        doors: done.doors,
    }
}
