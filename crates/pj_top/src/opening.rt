//! What is opened for `keep`.
ghost use Rattle.std.specs.Prelude.{◌≡◌, IfOk, IfErr, Some, None};
ghost use Rattle.pj_io.specs.Causes.{Rose};
ghost use Rattle.pj_serve.specs.Outside.{KeepsOffice};
ghost use Rattle.pj_serve.specs.Opening.{IsInputAndOutput, LacksPair, OpeningFailed};
ghost use Rattle.pj_top.specs.Keeps.{IsStore, SameOffice};

use pj_bureau::Bureau;
use pj_io::{DoorRefusal, Office};
use pj_serve::{Opened, Status};

/// Why the input and the output were not both opened: the status of the call; and the input, where the output was not opened.
#[derive(Drop)]
pub(crate) struct Unpaired<S> {
    pub(crate) status: Status,
    pub(crate) source: Option<S>,
}

/// Opens the store under a path.
///
/// # Errors
/// The status of the call.
pub(crate) fn open_store<B: Bureau>(bureau: &mut B, path: &str) -> Result<B::Store, Status>
    ensures store { IfOk result (IsStore (record {
      outside = record {
        offices = B.meaning;
        streams = record { sources = B.Src.meaning; sinks = B.Dst.meaning };
        doors = B.Way.meaning;
      };
      bureaus = B.bureaus;
      disks = record {
        tells = B.Store.tells;
        seen = B.Store.seen;
        may_leave = B.Store.may_leave;
        moment = B.Store.moment;
        left_since = B.Store.left_since;
        faults = B.Store.faults;
      };
    }) bureau.old path.now) }
    ensures refused { IfErr result (λ status.
        OpeningFailed Status.Store (Rose (B.bureaus.faults bureau.old) (B.bureaus.faults bureau.new)) status) }
    ensures same { SameOffice B.meaning bureau.old bureau.new }
{
    match bureau.store(path) {
        Ok(store) => Ok(store),
        Err(DoorRefusal::Failed) => Err(Status::Store),
        Err(DoorRefusal::Memory) => Err(Status::Memory),
    }
}

/// No input is handed back.
fn unopened<S>(status: Status) -> Unpaired<S>
    ensures { result ≡ record { status = status; source = None } }
{
    Unpaired {
        status,
        source: None,
    }
}

/// The output could not be opened.
fn without_output<S>(source: S) -> Unpaired<S>
    ensures { result ≡ record { status = Status.WriteFault; source = Some source } }
{
    Unpaired {
        status: Status::WriteFault,
        source: Some(source),
    }
}

/// Opens the input and the output.
///
/// # Errors
/// The status of the call, by the first opening that failed, and the input, where that of the output did.
pub(crate) fn open_streams<O: Office>(
    office: &mut O,
) -> Result<Opened<O::Src, O::Dst>, Unpaired<O::Src>>
    ensures opened { IfOk result (λ opened. IsInputAndOutput O.meaning (record { sources = O.Src.meaning; sinks = O.Dst.meaning }) office.old opened) }
    ensures refused { IfErr result (λ lacks. LacksPair O.meaning (record { sources = O.Src.meaning; sinks = O.Dst.meaning })
        office.old office.new (O.meaning.contents office.old).input lacks.source lacks.status) }
    ensures office { KeepsOffice O.meaning office.old office.new }
{
    let source = match office.input() {
        Ok(source) => source,
        Err(DoorRefusal::Failed) => return Err(unopened(Status::ReadFault)),
        Err(DoorRefusal::Memory) => return Err(unopened(Status::Memory)),
    };
    match office.output() {
        Ok(sink) => Ok(Opened { source, sink }),
        Err(DoorRefusal::Failed) => Err(without_output(source)),
        Err(DoorRefusal::Memory) => Err(unopened(Status::Memory)),
    }
}
