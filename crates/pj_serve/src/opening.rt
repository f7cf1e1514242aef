//! What is opened for sessions.
ghost use Rattle.std.specs.Prelude.{◌≡◌, ◌++◌, ◌<◌, ◌≤◌, ◌^◌, IfOk, OnOk, IfErr, Some, None, codes, string_bytes, length, vec_capacity, []};
ghost use Rattle.pj_io.specs.Told.{Where};
ghost use Rattle.pj_io.specs.Causes.{Rose};
ghost use Rattle.pj_io.specs.Source.{NewSource};
ghost use Rattle.pj_serve.specs.Outside.{KeepsOffice};
ghost use Rattle.pj_serve.specs.Opening.{IsOutput, IsInputAndOutput, IsScript, AreScripts, OpeningFailed, LacksPair, LacksScript, handed_back};

use crate::finish::Kept;
use crate::status::Status;
use pj_io::{DoorRefusal, Office};
use std::alloc::{AllocError, Global};
use std::collections::VecDeque;

/// What is opened for one session.
#[derive(Drop)]
pub struct Opened<S, D> {
    pub source: S,
    pub sink: D,
}

/// Why a source and its sink were not both opened: the status of the call; and the source, where the sink could not be opened.
#[derive(Drop)]
pub(crate) struct Unpaired<S> {
    pub(crate) status: Status,
    pub(crate) source: Option<S>,
}

/// No source is handed back.
fn unopened<S>(status: Status) -> Unpaired<S>
    ensures { result ≡ record { status = status; source = None } }
{
    Unpaired {
        status,
        source: None,
    }
}

/// The sink could not be opened.
fn without_sink<S>(source: S) -> Unpaired<S>
    ensures { result ≡ record { status = Status.WriteFault; source = Some source } }
{
    Unpaired {
        status: Status::WriteFault,
        source: Some(source),
    }
}

/// Opens the input alone.
///
/// # Errors
/// The status of the call.
pub(crate) fn open_input<O: Office>(office: &mut O) -> Result<O::Src, Status>
    ensures source { IfOk result (NewSource (O.meaning.tells office.old) O.Src.meaning) }
    ensures bytes { Where (O.meaning.tells office.old)
        (IfOk result (λ source. O.Src.meaning.left source ≡ (O.meaning.contents office.old).input)) }
    ensures refused { IfErr result (λ status.
        OpeningFailed Status.ReadFault (Rose (O.meaning.read_faults office.old) (O.meaning.read_faults office.new)) status) }
    ensures write_faults { O.meaning.write_faults office.new ≡ O.meaning.write_faults office.old }
    ensures office { KeepsOffice O.meaning office.old office.new }
{
    match office.input() {
        Ok(source) => Ok(source),
        Err(DoorRefusal::Failed) => Err(Status::ReadFault),
        Err(DoorRefusal::Memory) => Err(Status::Memory),
    }
}

/// Opens the output alone.
///
/// # Errors
/// The status of the call.
pub(crate) fn open_output<O: Office>(office: &mut O) -> Result<O::Dst, Status>
    ensures opened { IfOk result (IsOutput (record { sources = O.Src.meaning; sinks = O.Dst.meaning })) }
    ensures refused { IfErr result (λ status.
        OpeningFailed Status.WriteFault (Rose (O.meaning.write_faults office.old) (O.meaning.write_faults office.new)) status) }
    ensures read_faults { O.meaning.read_faults office.new ≡ O.meaning.read_faults office.old }
    ensures office { KeepsOffice O.meaning office.old office.new }
{
    match office.output() {
        Ok(sink) => Ok(sink),
        Err(DoorRefusal::Failed) => Err(Status::WriteFault),
        Err(DoorRefusal::Memory) => Err(Status::Memory),
    }
}

/// Opens the input and the output.
///
/// # Errors
/// The status of the call, by the first opening that failed, and the input, where that of the output did.
pub(crate) fn open_input_and_output<O: Office>(
    office: &mut O,
) -> Result<Opened<O::Src, O::Dst>, Unpaired<O::Src>>
    ensures opened { IfOk result (λ opened. IsInputAndOutput O.meaning (record { sources = O.Src.meaning; sinks = O.Dst.meaning }) office.old opened) }
    ensures refused { IfErr result (λ lacks. LacksPair O.meaning (record { sources = O.Src.meaning; sinks = O.Dst.meaning })
        office.old office.new (O.meaning.contents office.old).input lacks.source lacks.status) }
    ensures office { KeepsOffice O.meaning office.old office.new }
{
    let source = match office.input() {
        Ok(source) => source,
        Err(DoorRefusal::Failed) => return Err(unopened(Status::ReadFault)),
        Err(DoorRefusal::Memory) => return Err(unopened(Status::Memory)),
    };
    match office.output() {
        Ok(sink) => Ok(Opened { source, sink }),
        Err(DoorRefusal::Failed) => Err(without_sink(source)),
        Err(DoorRefusal::Memory) => Err(unopened(Status::Memory)),
    }
}

/// Where the replies to the script under a path go.
fn replies_path(alloc: Global, path: &str) -> Result<String, AllocError>
    ensures { IfOk result (λ replies. string_bytes replies ≡ path.now ++ codes ".out") }
{
    format!(in alloc; "{path}.out")
}

/// Opens the script under a path, and the sink for the replies to it.
///
/// # Errors
/// The status of the call, by the first opening that failed, and the script, where that of the sink did.
fn open_script<O: Office>(
    alloc: Global,
    office: &mut O,
    path: &str,
) -> Result<Opened<O::Src, O::Dst>, Unpaired<O::Src>>
    ensures opened { IfOk result (λ opened. IsScript O.meaning (record { sources = O.Src.meaning; sinks = O.Dst.meaning }) office.old path.now opened) }
    ensures refused { IfErr result (λ lacks. LacksPair O.meaning (record { sources = O.Src.meaning; sinks = O.Dst.meaning })
        office.old office.new ((O.meaning.contents office.old).script path.now) lacks.source lacks.status) }
    ensures office { KeepsOffice O.meaning office.old office.new }
{
    let source = match office.script(path) {
        Ok(source) => source,
        Err(DoorRefusal::Failed) => return Err(unopened(Status::ReadFault)),
        Err(DoorRefusal::Memory) => return Err(unopened(Status::Memory)),
    };
    let Ok(replies) = replies_path(alloc, path) else {
        return Err(unopened(Status::Memory));
    };
    match office.replies(replies.as_str()) {
        Ok(sink) => Ok(Opened { source, sink }),
        Err(DoorRefusal::Failed) => Err(without_sink(source)),
        Err(DoorRefusal::Memory) => Err(unopened(Status::Memory)),
    }
}

/// Opens the script under each path and the sink for the replies to it, in order. The list, which is empty, takes all that is opened.
///
/// # Errors
/// The status of the call, by the first opening that failed, and the script, where that of a sink did.
pub(crate) fn open_scripts<O: Office>(
    alloc: Global,
    office: &mut O,
    paths: &[String],
    opened: &mut Vec<Opened<O::Src, O::Dst>>,
) -> Result<(), Unpaired<O::Src>>
    requires { (opened.old.items ≡ []) × (length paths.now ≤ vec_capacity opened.old) }
    ensures opened { OnOk result (AreScripts O.meaning (record { sources = O.Src.meaning; sinks = O.Dst.meaning }) office.old paths.now opened.new.items) }
    ensures few { length opened.new.items ≤ length paths.now }
    ensures refused { IfErr result (λ lacks. LacksScript O.meaning (record { sources = O.Src.meaning; sinks = O.Dst.meaning })
        office.old office.new paths.now opened.new.items lacks.source lacks.status) }
    ensures office { KeepsOffice O.meaning office.old office.new }
{
    for path in paths {
        match open_script(alloc, office, path.as_str()) {
            Ok(one) => opened.push_reserved(one),
            Err(lacks) => return Err(lacks),
        }
    }
    Ok(())
}

/// What was opened for sessions that do not run, in a list that has room for it. It takes no memory.
pub(crate) fn hand_back<S: Drop, D: Drop>(
    opened: Vec<Opened<S, D>>,
    mut kept: Vec<Kept<S, D>>,
) -> Vec<Kept<S, D>>
    requires room { (kept.items ≡ []) × (length opened.items ≤ vec_capacity kept) }
    requires few { length opened.items < 2 ^ 32 }
    ensures { result.items ≡ handed_back 1 opened.items }
{
    let mut opened = VecDeque::from_vec(opened);
    let mut pass = 0;
    while let Some(Opened { source, sink }) = opened.pop_front() {
        pass += 1;
        kept.push_reserved(Kept { pass, source, sink });
    }
    kept
}
