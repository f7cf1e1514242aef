//! How names of channels, bodies and lines of the journal read in worked cases, that commands and entries may cross threads, and
//! what is replied before anything was entered.

ghost use Rattle.std.specs.Prelude.{◌<◌, [], None, Some, codes};
ghost use Rattle.pj_name.specs.declared.name.Name.{Name as ChangeName};
ghost use Rattle.pj_machine.specs.declared.limits.Limits.{Limits as AnyLimits};
ghost use Rattle.pj_machine.specs.Answer.{IsAnswer};

use super::*;
use pj_change::{
    Bytes, Change, Edge, Edges, Graph, Hunks, Label, Memory, Names, Place, Point, Record, Status,
    Vertex, VertexKind, Vertices,
};
use pj_name::Name;
use std::alloc::Global;
use std::sync::{Arc, Wait};
use std::test::Fail;
use std::thread::Threads;

/// The name of a change with a file of six bytes.
fn file_name() -> Option<Name> {
    Name::read(b"4fdb5ea24421e6566f44e8d89fdde3a1c382dbec6da2808f7c88bcaf8b62d12e")
}

/// A channel's name of these bytes.
fn channel(text: &[u8]) -> Result<ChannelName, Fail> {
    Ok(ChannelName::read(text).ok_or("no name")?)
}

#[test]
fn names_of_channels_are_read(rt: HostRuntime) -> Result<(), Fail> {
    let name = channel(b"a.B-0_")?;
    assert!(rt; name.bytes() == b"a.B-0_".as_slice());
    assert!(rt; channel(&[b'a'; 64])?.bytes().len() == 64);
    assert!(rt; ChannelName::read(&[b'a'; 65]).is_none());
    assert!(rt; ChannelName::read(b"").is_none());
    assert!(rt; ChannelName::read(b"a/b").is_none());
    assert!(rt; channel(b"l10")? < channel(b"l2")?);
    Ok(())
}

#[test]
fn a_graph_is_listed(rt: HostRuntime) -> Result<(), Fail> {
    let alloc = rt.alloc();
    let file = file_name().ok_or("no name")?;
    let vertex = Vertex {
        change: file,
        start: 2,
        end: 8,
        kind: VertexKind::Text,
        status: Status::Alive,
    };
    let edge = Edge {
        source: Place::Root,
        target: Point {
            change: file,
            offset: 0,
        },
        label: Label::Folder,
        status: Status::Alive,
        introducer: file,
    };
    let graph = Graph {
        vertices: Vertices::of(vec![in alloc; vertex]?),
        edges: Edges::of(vec![in alloc; edge]?),
    };
    let body = graph_body(alloc, &graph).map_err(|_| "out of memory")?;
    assert!(rt;
        body.items()
            == b"vertex 4fdb5ea24421e6566f44e8d89fdde3a1c382dbec6da2808f7c88bcaf8b62d12e.2-8 text alive\nedge root 4fdb5ea24421e6566f44e8d89fdde3a1c382dbec6da2808f7c88bcaf8b62d12e.0 folder alive 4fdb5ea24421e6566f44e8d89fdde3a1c382dbec6da2808f7c88bcaf8b62d12e\n".as_slice()
    );
    Ok(())
}

#[test]
fn a_log_and_the_channels_are_listed(rt: HostRuntime) -> Result<(), Fail> {
    let alloc = rt.alloc();
    let file = file_name().ok_or("no name")?;
    let log = log_body(alloc, &[file]).map_err(|_| "out of memory")?;
    assert!(rt;
        log.items()
            == b"4fdb5ea24421e6566f44e8d89fdde3a1c382dbec6da2808f7c88bcaf8b62d12e\n".as_slice()
    );
    let counts = [
        ChannelCount {
            name: channel(b"a")?,
            changes: 0,
        },
        ChannelCount {
            name: channel(b"main")?,
            changes: 1,
        },
    ];
    let channels = channels_body(alloc, &counts).map_err(|_| "out of memory")?;
    assert!(rt; channels.items() == b"a 0\nmain 1\n".as_slice());
    Ok(())
}

/// A change without hunks, as the store has it.
fn stored(alloc: Global) -> Result<Stored, Fail> {
    let text = Bytes::of(Vec::from_slice(
        alloc,
        b"pijul change 1\nmessage \nauthor \ntime 0\nend\n",
    )?);
    let change = Change::of(
        1,
        Bytes::of(Vec::new(alloc)),
        Bytes::of(Vec::new(alloc)),
        0,
        Names::of(Vec::new(alloc)),
        Names::of(Vec::new(alloc)),
        Hunks::of(Vec::new(alloc)),
    )
    .ok_or("no change")?;
    Ok(Stored::of(Arc::new(alloc, Record::of(text, change))?))
}

#[test]
fn a_journal_is_listed(rt: HostRuntime) -> Result<(), Fail> {
    let alloc = rt.alloc();
    let file = file_name().ok_or("no name")?;
    let main = channel(b"main")?;
    let put = stored(alloc)?.share().map_err(|_| "out of memory")?;
    let journal = Entries::of(vec![in alloc;
        Entry {
            pass: 1,
            call: 4,
            write: Write::Put(put)
        },
        Entry {
            pass: 1,
            call: 6,
            write: Write::Apply(main, file)
        },
    ]?);
    let body = journal_body(alloc, journal.items()).map_err(|_| "out of memory")?;
    assert!(rt;
        body.items()
            == b"1 1 4 put d2e490b5e5edbfe8fdd0a342691ef16aeb9220c804b9c65ea74611aad46ee0a1\n2 1 6 apply main 4fdb5ea24421e6566f44e8d89fdde3a1c382dbec6da2808f7c88bcaf8b62d12e\n".as_slice()
    );
    Ok(())
}

#[test]
fn a_line_of_a_journal_is_written(rt: HostRuntime) -> Result<(), Fail> {
    let entry = Entry {
        pass: 2,
        call: 3,
        write: Write::Fork(channel(b"main")?, channel(b"a")?),
    };
    let mut line = [0; 256];
    let len = journal_line(7, &entry, &mut line);
    assert!(rt; &line[..len] == b"7 2 3 fork main a\n".as_slice());
    Ok(())
}

fn crosses_threads<T: Send + Sync>() {}

/// Nothing runs: that this is proved tells that each of them may cross.
#[test]
fn commands_and_entries_cross_threads() {
    crosses_threads::<Command>();
    crosses_threads::<Entries>();
    crosses_threads::<Numbered>();
}

/// A repository in which nothing is entered, without memory for anything but the empty journal.
#[derive(Drop)]
struct Empty {
    limits: Limits,
}

/// How many calls a pass of it has made.
#[derive(Drop)]
struct Calls(u64);

impl Replier for Empty {
    type Pass = Calls;

    ghost use Rattle.std.specs.Prelude.{[]};

    ghost view = { λ pass. record { number = 1; calls = pass.0; journal = [] } };

    ghost limits = { λ empty. empty.limits };

    fn answer<R: Threads + Wait + Sync>(
        &self,
        _rt: &R,
        alloc: Global,
        pass: &mut Calls,
        command: &Command,
    ) -> Numbered {
        pass.0 += 1;
        match command {
            Command::Journal => Numbered::At {
                place: 0,
                reply: Reply::Body(Bytes::of(Vec::new(alloc))),
            },
            _ => Numbered::NoMemory,
        }
    }
}

#[test]
fn an_empty_journal_is_the_reply(rt: HostRuntime) -> Result<(), Fail> {
    let mut pass = Calls(0);
    let empty = Empty {
        limits: Limits::FULL,
    };
    let first = empty.answer(&rt, rt.alloc(), &mut pass, &Command::Journal);
    assert!(rt;
        matches!(
            first,
            Numbered::At {
                place: 0,
                reply: Reply::Body(_)
            }
        )
    );
    assert!(rt;
        matches!(
            empty.answer(&rt, rt.alloc(), &mut pass, &Command::Channels),
            Numbered::NoMemory
        )
    );
    assert!(rt; pass.0 == 2);
    Ok(())
}

/// Nothing runs: what is answered before anything was entered.
fn opening_is_answered()
    ensures taken { (limits : AnyLimits) → IsAnswer limits [] (Command.New (codes "main")) (Reply.No Refusal.Taken) None }
    ensures channel { (limits : AnyLimits) (name : ChangeName) → IsAnswer limits [] (Command.Apply (codes "nope") name) (Reply.No Refusal.Channel) None }
    ensures change { (limits : AnyLimits) (name : ChangeName) → IsAnswer limits [] (Command.Apply (codes "main") name) (Reply.No Refusal.Change) None }
    ensures full { (limits : AnyLimits) → limits.channels < 2 → IsAnswer limits [] (Command.New (codes "c")) (Reply.No Refusal.FullChannels) None }
    ensures done { (limits : AnyLimits) → 1 < limits.channels → 0 < limits.entries →
        IsAnswer limits [] (Command.New (codes "c")) Reply.Done (Some (Write.New (codes "c"))) }
{}

#[test]
fn the_opening_is_answered() {
    opening_is_answered();
}
