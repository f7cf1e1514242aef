//! A channel that is kept twice: as a plain list, and with the tables of its list. Each call is made on both, and both have to
//! answer the same.

use crate::lists::graph::is_shown;
use pj_change::{
    Applied, ApplyRefusal, Bytes, Graph, Memory, PrintRefusal, Record, UnrecordRefusal,
};
use pj_channel::Channel;
use pj_name::Name;
use pj_plain::PlainChannel;
use pj_pmap::Steps;
use pj_tables::Tables;
use std::alloc::{AllocError, AllocFailed, Global};
use std::sync::Arc;
use std::sync::ledger::Ledger;

/// Prints have no file of more live vertices.
const LIVE: u32 = 16_384;

/// Why a session came to no end.
#[derive(Clone, Copy, Debug)]
pub enum Fault {
    Memory,
    /// The two channels answered differently.
    Differ,
}

impl From<AllocError> for Fault {
    fn from(_: AllocError) -> Fault {
        Fault::Memory
    }
}

impl<T: Drop> From<AllocFailed<T>> for Fault {
    fn from(_: AllocFailed<T>) -> Fault {
        Fault::Memory
    }
}

impl From<Memory> for Fault {
    fn from(_: Memory) -> Fault {
        Fault::Memory
    }
}

/// Why a change neither comes nor goes.
#[derive(Clone, Copy, PartialEq, Eq)]
enum Refusal {
    Already,
    Needs(Name),
    Context(u32),
    Absent,
    Held(Name),
}

/// What a channel answers to a change that is to come.
fn after_apply<C: Drop>(
    answer: Result<Applied<C>, ApplyRefusal>,
) -> Result<Result<C, Refusal>, Fault> {
    match answer {
        Ok(Applied::New(channel)) => Ok(Ok(channel)),
        Ok(Applied::Already) => Ok(Err(Refusal::Already)),
        Err(ApplyRefusal::Needs(need)) => Ok(Err(Refusal::Needs(need))),
        Err(ApplyRefusal::Context(hunk)) => Ok(Err(Refusal::Context(hunk))),
        Err(ApplyRefusal::Memory) => Err(Fault::Memory),
    }
}

/// What a channel answers to a change that is to go.
fn after_unrecord<C: Drop>(
    answer: Result<C, UnrecordRefusal>,
) -> Result<Result<C, Refusal>, Fault> {
    match answer {
        Ok(channel) => Ok(Ok(channel)),
        Err(UnrecordRefusal::Absent) => Ok(Err(Refusal::Absent)),
        Err(UnrecordRefusal::Held(holder)) => Ok(Err(Refusal::Held(holder))),
        Err(UnrecordRefusal::Memory) => Err(Fault::Memory),
    }
}

/// Fails where the two do not agree.
fn agreed(agree: bool) -> Result<(), Fault> {
    if agree { Ok(()) } else { Err(Fault::Differ) }
}

/// Fails where the graphs differ.
fn same_graph(plain: &Graph, tabled: &Graph) -> Result<(), Fault> {
    agreed(plain.vertices.items() == tabled.vertices.items())?;
    agreed(plain.edges.items() == tabled.edges.items())
}

/// Fails where the prints differ.
fn same_print(
    plain: Result<Bytes, PrintRefusal>,
    tabled: Result<Bytes, PrintRefusal>,
) -> Result<(), Fault> {
    match (plain, tabled) {
        (Err(PrintRefusal::Memory), _) => Err(Fault::Memory),
        (_, Err(PrintRefusal::Memory)) => Err(Fault::Memory),
        (Ok(plain), Ok(tabled)) => agreed(plain.items() == tabled.items()),
        (Err(plain), Err(tabled)) => agreed(plain == tabled),
        _ => Err(Fault::Differ),
    }
}

/// The two channels.
#[derive(Drop)]
pub struct Both {
    plain: Arc<PlainChannel>,
    tabled: Channel,
}

impl Both {
    /// Two channels with no change.
    pub fn empty(alloc: Global) -> Result<Both, Fault> {
        let plain = PlainChannel::empty(alloc)?;
        let tabled = Channel::empty(alloc)?;
        Both::of(alloc, plain, tabled)
    }

    fn of(alloc: Global, plain: PlainChannel, tabled: Channel) -> Result<Both, Fault> {
        Ok(Both {
            plain: Arc::new(alloc, plain)?,
            tabled,
        })
    }

    /// The same two for a second owner.
    pub fn share(&self) -> Result<Both, Fault> {
        let tabled = self.tabled.share()?;
        let plain = Arc::try_clone(&self.plain)?;
        Ok(Both { plain, tabled })
    }

    /// The tables of the list.
    pub fn tables(&self) -> &Tables {
        self.tabled.tables()
    }

    /// Both channels as they are after a change comes or goes, or `None` where both refuse it for one cause.
    fn after(
        alloc: Global,
        plain: Result<PlainChannel, Refusal>,
        tabled: Result<Channel, Refusal>,
    ) -> Result<Option<Both>, Fault> {
        match (plain, tabled) {
            (Ok(plain), Ok(tabled)) => {
                let both = Both::of(alloc, plain, tabled)?;
                Ok(Some(both))
            }
            (Err(plain), Err(tabled)) => {
                agreed(plain == tabled)?;
                Ok(None)
            }
            _ => Err(Fault::Differ),
        }
    }

    /// Both with the change at the end, or `None` where it may not come.
    pub fn with<L: Ledger>(
        &self,
        alloc: Global,
        change: &Arc<Record>,
        steps: &mut Steps<L>,
    ) -> Result<Option<Both>, Fault> {
        let plain = after_apply(self.plain.apply(alloc, change))?;
        let tabled = after_apply(self.tabled.apply(alloc, change, steps))?;
        Both::after(alloc, plain, tabled)
    }

    /// Both without the change of this name, or `None` where it may not go.
    pub fn without<L: Ledger>(
        &self,
        alloc: Global,
        name: Name,
        steps: &mut Steps<L>,
    ) -> Result<Option<Both>, Fault> {
        let plain = after_unrecord(self.plain.unrecord(alloc, name))?;
        let tabled = after_unrecord(self.tabled.unrecord(alloc, name, steps))?;
        Both::after(alloc, plain, tabled)
    }

    /// Fails where the graphs differ, or where the look-ups of the tables show another one.
    fn same_graphs(&self, alloc: Global) -> Result<(), Fault> {
        let plain = self.plain.graph(alloc)?;
        let tabled = self.tabled.graph(alloc)?;
        same_graph(&plain, &tabled)?;
        let shown = is_shown(alloc, self.tables(), &plain)?;
        agreed(shown)
    }

    /// Fails where the two channels have different graphs or prints.
    pub fn same(&self, alloc: Global) -> Result<(), Fault> {
        self.same_graphs(alloc)?;
        same_print(
            self.plain.print(alloc, LIVE),
            self.tabled.print_serially(alloc, LIVE),
        )
    }
}
