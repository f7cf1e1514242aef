//! The command `show`: the name of one change text, and the positions of its hunks.
ghost use Rattle.std.specs.Prelude.{◌≡◌, ◌≢◌, ◌+◌, ◌<◌, ◌^◌, ◌++◌, IfOk, OnOk};
ghost use Rattle.pj_io.specs.Told.{Where};
ghost use Rattle.pj_io.specs.Causes.{Rose};
ghost use Rattle.pj_change.specs.Rules.{position_count};
ghost use Rattle.pj_change.specs.Shown.{shown, shown_from, shown_hunk};
ghost use Rattle.pj_serve.specs.Outside.{KeepsOffice};
ghost use Rattle.pj_serve.specs.Show.{Judged, Wrote, Showed};
ghost use Rattle.pj_serve.specs.Promises.{HasShown};

use crate::finish::Finish;
use crate::input::{InputRefusal, take_all};
use crate::opening::{open_input, open_output};
use crate::status::Status;
use pj_change::{Bytes, Change, Hunk, Record};
use pj_io::{Office, Sink, Source, give_all};
use pj_text::{ReadRefusal, read};
use std::alloc::{AllocError, Global};

/// Opens the input and the output, and shows the one change text that the input is.
pub(crate) fn show<O: Office>(alloc: Global, office: &mut O) -> Finish<O::Src, O::Dst, O::Way>
    ensures shown { HasShown O.meaning (record { sources = O.Src.meaning; sinks = O.Dst.meaning }) office.old office.new result }
    ensures office { KeepsOffice O.meaning office.old office.new }
{
    let mut source = match open_input(office) {
        Ok(source) => source,
        Err(status) => return Finish::idle(alloc, status, None, None),
    };
    let mut sink = match open_output(office) {
        Ok(sink) => sink,
        Err(status) => return Finish::idle(alloc, status, Some(source), None),
    };
    let status = show_all(alloc, &mut source, &mut sink);
    Finish::idle(alloc, status, Some(source), Some(sink))
}

/// Reads the source, and writes to the sink what `show` writes of it.
fn show_all<S: Source, D: Sink>(alloc: Global, source: &mut S, sink: &mut D) -> Status
    ensures read_cause { result ≡ Status.ReadFault → Rose (S.meaning.faults source.old) (S.meaning.faults source.new) }
    ensures write_cause { result ≡ Status.WriteFault → Rose (D.meaning.faults sink.old) (D.meaning.faults sink.new) }
    ensures showed { Showed (S.meaning.tells source.old) (S.meaning.left source.old) (S.meaning.left source.new)
        (λ text. Where (D.meaning.tells sink.old) (Wrote (Rose (D.meaning.faults sink.old) (D.meaning.faults sink.new))
        text (D.meaning.written sink.old) (D.meaning.written sink.new) result)) result }
    ensures source_tells { S.meaning.tells source.new ≡ S.meaning.tells source.old }
    ensures sink_tells { D.meaning.tells sink.new ≡ D.meaning.tells sink.old }
    ensures label { Where (D.meaning.tells sink.old) (D.meaning.label sink.new ≡ D.meaning.label sink.old) }
{
    match take_all(alloc, source) {
        Ok(text) => answer(alloc, text, sink),
        Err(InputRefusal::Fault) => Status::ReadFault,
        Err(InputRefusal::Memory) => Status::Memory,
    }
}

/// Writes to the sink what `show` writes of a text.
fn answer<D: Sink>(alloc: Global, text: Vec<u8>, sink: &mut D) -> Status
    ensures judged { Judged text.items result }
    ensures not_reading { result ≢ Status.ReadFault }
    ensures written { Where (D.meaning.tells sink.old) (Wrote (Rose (D.meaning.faults sink.old) (D.meaning.faults sink.new))
        text.items (D.meaning.written sink.old) (D.meaning.written sink.new) result) }
    ensures cause { result ≡ Status.WriteFault → Rose (D.meaning.faults sink.old) (D.meaning.faults sink.new) }
    ensures tells { D.meaning.tells sink.new ≡ D.meaning.tells sink.old }
    ensures label { Where (D.meaning.tells sink.old) (D.meaning.label sink.new ≡ D.meaning.label sink.old) }
{
    match read(alloc, text.as_slice()) {
        Ok(change) => show_record(alloc, &Record::of(Bytes::of(text), change), sink),
        Err(ReadRefusal::Malformed) => {
            // The status is that of the text, also where the sink fails.
            let _ = give_all(sink, b"malformed\n");
            Status::Malformed
        }
        Err(ReadRefusal::Memory) => Status::Memory,
    }
}

/// Writes the lines of a change.
fn show_record<D: Sink>(alloc: Global, named: &Record, sink: &mut D) -> Status
    ensures judged { Judged named.now.text result }
    ensures not_reading { result ≢ Status.ReadFault }
    ensures written { Where (D.meaning.tells sink.old) (Wrote (Rose (D.meaning.faults sink.old) (D.meaning.faults sink.new))
        named.now.text (D.meaning.written sink.old) (D.meaning.written sink.new) result) }
    ensures cause { result ≡ Status.WriteFault → Rose (D.meaning.faults sink.old) (D.meaning.faults sink.new) }
    ensures tells { D.meaning.tells sink.new ≡ D.meaning.tells sink.old }
    ensures label { Where (D.meaning.tells sink.old) (D.meaning.label sink.new ≡ D.meaning.label sink.old) }
{
    let Ok(lines) = lines(alloc, named) else {
        return Status::Memory;
    };
    match give_all(sink, lines.as_slice()) {
        Ok(()) => Status::Done,
        Err(_) => Status::WriteFault,
    }
}

/// The lines that `show` writes of a change.
#[tactic(auto, unfolding(pj_change::specs::Shown::shown))]
fn lines(alloc: Global, named: &Record) -> Result<Vec<u8>, AllocError>
    ensures { IfOk result (λ lines. lines.items ≡ shown named.now.change) }
{
    let mut lines = Vec::new(alloc);
    lines.extend_from_slice(b"change ")?;
    lines.extend_from_slice(&named.name.hex())?;
    lines.push(b'\n')?;
    add_hunks(alloc, &named.change, &mut lines)?;
    Ok(lines)
}

/// Adds the lines of the hunks of a change.
fn add_hunks(alloc: Global, change: &Change, lines: &mut Vec<u8>) -> Result<(), AllocError>
    ensures { OnOk result (lines.new.items ≡ lines.old.items ++ shown_from 0 0 change.now.hunks) }
{
    let mut first = 0;
    for (number, hunk) in change.hunks.items().iter().enumerate() {
        add_hunk(alloc, number, first, hunk, lines)?;
        first += hunk.position_count();
    }
    Ok(())
}

/// Adds the line of a hunk by its number and its first position.
fn add_hunk(
    alloc: Global,
    number: usize,
    first: usize,
    hunk: &Hunk,
    lines: &mut Vec<u8>,
) -> Result<(), AllocError>
    requires { first + position_count hunk.now < 2 ^ 64 }
    ensures { OnOk result (lines.new.items ≡ lines.old.items ++ shown_hunk number first hunk.now) }
{
    let head = format!(in alloc; "{number} ")?;
    let end = first + hunk.position_count();
    let tail = format!(in alloc; " {first}-{end}\n")?;
    lines.extend_from_slice(head.as_bytes())?;
    lines.extend_from_slice(hunk.word().as_bytes())?;
    lines.extend_from_slice(tail.as_bytes())
}
