//! The print of a list of changes.

ghost use Rattle.std.specs.Prelude.{◌≡◌, ◌↔◌, Err, IsTrue, IfOk, MatchResult};
ghost use Rattle.std.specs.List.{AllZip};
ghost use Rattle.pj_change.specs.FirstWide.{IsWide, IsFirstWideOf};
ghost use Rattle.pj_change.specs.Print.{AreEntries};
ghost use Rattle.pj_change.specs.Printing.{IsPrintAnswer};
ghost use Rattle.pj_dead.specs.Pseudo.{AreRowsOf};
ghost use Rattle.pj_output.specs.EntryTexts.{IsEntryText, IsNarrowWalk};
ghost use Rattle.pj_output.specs.LiveText.{AreLiveText};
ghost use Rattle.pj_view.specs.SetGraph.{graph_of};

use crate::file_text::text_of;
use crate::in_threads::{map_each, map_in_threads, threads_worth};
use crate::live_text::{LEAST_VERTICES, LiveVertex, live_text_in_threads, live_text_of, text_in};
use crate::walk::walk_of;
use pj_change::{Bytes, Point, PrintRefusal, Step, StepKind, Walk};
use pj_dead::Pseudo;
use pj_print::{Memory, put_entry};
use pj_tables::Tables;
use std::alloc::{AllocError, Global};
use std::thread::Threads;

/// Whether the entry is a file with more live vertices than the limit.
fn is_wide(tables: &Tables, entries: &[LiveVertex], limit: u32, step: &Step) -> bool
    requires { AreLiveText tables.now entries.now }
    ensures { IsTrue result ↔ IsWide tables.now limit step.now }
{
    match step.kind {
        StepKind::File => text_in(entries, step.inode).len() > limit as usize,
        StepKind::Dir | StepKind::Same => false,
    }
}

/// The inode of the first of the entries that is a file with more live vertices than the limit, if one is.
fn first_wide(tables: &Tables, entries: &[LiveVertex], limit: u32, steps: &[Step]) -> Option<Point>
    requires { AreLiveText tables.now entries.now }
    ensures { IsFirstWideOf tables.now limit steps.now result }
{
    for step in steps {
        if is_wide(tables, entries, limit, step) {
            return Some(step.inode);
        }
    }
    None
}

/// The text of the entry: that of its file, or none.
fn entry_text(
    alloc: Global,
    tables: &Tables,
    pseudo: &Pseudo,
    entries: &[LiveVertex],
    step: &Step,
) -> Result<Vec<u8>, Memory>
    requires rows { AreRowsOf (graph_of tables.now) pseudo.now }
    requires text { AreLiveText tables.now entries.now }
    ensures { IfOk result (λ text. IsEntryText tables.now step.now text.items) }
{
    match step.kind {
        StepKind::File => text_of(alloc, tables, pseudo, entries, step.inode),
        StepKind::Dir | StepKind::Same => Ok(Vec::new(alloc)),
    }
}

/// The texts of the entries, in their order.
fn entry_texts(
    alloc: Global,
    tables: &Tables,
    pseudo: &Pseudo,
    entries: &[LiveVertex],
    steps: &[Step],
) -> Result<Vec<Vec<u8>>, Memory>
    requires rows { AreRowsOf (graph_of tables.now) pseudo.now }
    requires text { AreLiveText tables.now entries.now }
    ensures { IfOk result (λ texts. AllZip (λ step text. IsEntryText tables.now step text.items) steps.now texts.items) }
{
    map_each(
        alloc,
        steps,
        &|step: &Step| -> Result<Vec<u8>, Memory>
            requires { AreRowsOf (graph_of tables.now) pseudo.now × AreLiveText tables.now entries.now }
            ensures { IfOk result (λ text. IsEntryText tables.entry.now step.now text.items) }
        { entry_text(alloc, tables, pseudo, entries, step) },
    )
}

/// The texts of the entries, in their order, worked out side by side.
fn entry_texts_in_threads<R: Threads + Sync>(
    rt: &R,
    alloc: Global,
    tables: &Tables,
    pseudo: &Pseudo,
    entries: &[LiveVertex],
    steps: &[Step],
) -> Result<Vec<Vec<u8>>, Memory>
    requires rows { AreRowsOf (graph_of tables.now) pseudo.now }
    requires text { AreLiveText tables.now entries.now }
    ensures { IfOk result (λ texts. AllZip (λ step text. IsEntryText tables.now step text.items) steps.now texts.items) }
{
    map_in_threads(
        rt,
        alloc,
        steps,
        threads_worth(rt, entries.len(), LEAST_VERTICES),
        &|step: &Step| -> Result<Vec<u8>, Memory>
            requires { AreRowsOf (graph_of tables.now) pseudo.now × AreLiveText tables.now entries.now }
            ensures { IfOk result (λ text. IsEntryText tables.entry.now step.now text.items) }
        { entry_text(alloc, tables, pseudo, entries, step) },
    )
}

/// The bytes of the entries, each with its text.
fn join_entries(
    alloc: Global,
    tables: &Tables,
    steps: &[Step],
    texts: &[Vec<u8>],
) -> Result<Vec<u8>, AllocError>
    requires { AllZip (λ step text. IsEntryText tables.now step text.items) steps.now texts.now }
    ensures { IfOk result (λ bytes. AreEntries tables.now steps.now bytes.items) }
{
    let _list = tables.list();
    let mut out = Vec::new(alloc);
    for (number, step) in steps.iter().enumerate() {
        put_entry(&mut out, step, &texts[number])?;
    }
    Ok(out)
}

/// The walk of the list, whose live text this is, where none of its files has more live vertices than the limit.
fn narrow_walk(
    alloc: Global,
    tables: &Tables,
    entries: &[LiveVertex],
    limit: u32,
) -> Result<Walk, PrintRefusal>
    requires { AreLiveText tables.now entries.now }
    ensures { MatchResult result (IsNarrowWalk tables.now limit) (λ refusal. IsPrintAnswer tables.now limit (Err refusal)) }
{
    let _list = tables.list();
    let walk = walk_of(alloc, tables, entries)?;
    match first_wide(tables, entries, limit, walk.items()) {
        Some(inode) => Err(PrintRefusal::Wide(inode)),
        None => Ok(walk),
    }
}

/// The print of the list: the entries of its walk, each with its text, which are worked out side by side.
///
/// `Wide` comes exactly where a file has more than `live` live vertices, with the inode of the first in the order of
/// the print. It is found before any text is made.
pub fn print_in_threads<R: Threads + Sync>(
    rt: &R,
    alloc: Global,
    tables: &Tables,
    live: u32,
) -> Result<Bytes, PrintRefusal>
    ensures { IsPrintAnswer tables.now live result }
{
    let _list = tables.list();
    let pseudo = tables.pseudo();
    let entries = live_text_in_threads(rt, alloc, tables)?;
    let walk = narrow_walk(alloc, tables, &entries, live)?;
    let texts = entry_texts_in_threads(rt, alloc, tables, pseudo, &entries, walk.items())?;
    let bytes = join_entries(alloc, tables, walk.items(), &texts)?;
    Ok(Bytes::of(bytes))
}

/// The same print, worked out in one thread.
pub fn print_serially(alloc: Global, tables: &Tables, live: u32) -> Result<Bytes, PrintRefusal>
    ensures { IsPrintAnswer tables.now live result }
{
    let _list = tables.list();
    let pseudo = tables.pseudo();
    let entries = live_text_of(alloc, tables)?;
    let walk = narrow_walk(alloc, tables, &entries, live)?;
    let texts = entry_texts(alloc, tables, pseudo, &entries, walk.items())?;
    let bytes = join_entries(alloc, tables, walk.items(), &texts)?;
    Ok(Bytes::of(bytes))
}
