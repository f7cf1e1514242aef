//! A run of operations on a channel.

use pj_change::{Applied, Operation, Record};
use pj_name::Name;
use pj_plain::{PlainChannel, Replayed, have_one_text, replay};
use pj_text::read_record;
use std::alloc::Global;
use std::sync::Arc;

/// A file of six bytes.
const FILE: &[u8] =
    b"pijul change 1\nmessage A\nauthor ann\ntime 1\nfile root a.txt\ninsert 0.1 after 0.1 before - 6\none\ntw\nend\n";

/// It inserts four bytes in the middle of them.
const LEFT: &[u8] =
    b"pijul change 1\nmessage B\nauthor ann\ntime 1\nneeds 4fdb5ea24421e6566f44e8d89fdde3a1c382dbec6da2808f7c88bcaf8b62d12e\ninsert 1.1 after 1.5 before 1.6 4\nBBB\n\nend\n";

/// So does this.
const RIGHT: &[u8] =
    b"pijul change 1\nmessage C\nauthor ann\ntime 1\nneeds 4fdb5ea24421e6566f44e8d89fdde3a1c382dbec6da2808f7c88bcaf8b62d12e\ninsert 1.1 after 1.5 before 1.6 4\nCCC\n\nend\n";

fn record(alloc: Global, text: &[u8]) -> Option<Arc<Record>> {
    Arc::new(alloc, read_record(alloc, text).ok()?).ok()
}

/// The channel with the change of this text.
fn with(alloc: Global, channel: &PlainChannel, text: &[u8]) -> Option<PlainChannel> {
    match channel.apply(alloc, &record(alloc, text)?) {
        Ok(Applied::New(after)) => Some(after),
        _ => None,
    }
}

/// The name of a text.
fn name(alloc: Global, text: &[u8]) -> Option<Name> {
    Some(record(alloc, text)?.name)
}

/// What the operations leave, where they bring one text per name.
fn replayed(alloc: Global, operations: &[Operation<PlainChannel>]) -> Option<Replayed> {
    if !have_one_text(operations) {
        return None;
    }
    replay(alloc, operations, 16_384).ok()
}

/// A run that pulls the file and the right insertion, applies the left one, and uproots the right one. The first application
/// is refused, since the file is not there, and so is the unrecord of the file, which two changes need.
fn run(alloc: Global) -> Option<Replayed> {
    let other = with(alloc, &PlainChannel::empty(alloc).ok()?, FILE)?;
    let other = with(alloc, &other, RIGHT)?;
    let operations = [
        Operation::Apply(record(alloc, LEFT)?),
        Operation::Pull(other),
        Operation::Apply(record(alloc, LEFT)?),
        Operation::Unrecord(name(alloc, FILE)?),
        Operation::Uproot(name(alloc, RIGHT)?),
    ];
    replayed(alloc, &operations)
}

/// Appends ASCII bytes to a text.
fn add(told: &mut String, bytes: &[u8]) -> Option<()> {
    for byte in bytes {
        told.push(*byte as char).ok()?;
    }
    Some(())
}

/// How many vertices and edges the run leaves, the names in the log, and the print.
pub fn told(alloc: Global) -> Option<String> {
    let left = run(alloc)?;
    let vertices = left.graph.vertices.items().len();
    let edges = left.graph.edges.items().len();
    let mut told = format!(in alloc; "{vertices} vertices, {edges} edges\n").ok()?;
    for name in left.log.items() {
        add(&mut told, &name.hex())?;
        add(&mut told, b"\n")?;
    }
    match &left.print {
        Ok(print) => add(&mut told, print.items())?,
        Err(_) => return None,
    }
    Some(told)
}
