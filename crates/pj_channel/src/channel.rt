//! The channel, and the calls that give another one.

use crate::listing::names_of;
use crate::lookups::{first_broken, first_missing, is_held};
use crate::one_text::all_agree;
use crate::union::union;
use crate::uproot::uprooted;
use pj_change::{
    Applied, ApplyRefusal, Bytes, Graph, Memory, Names, PrintRefusal, Record, UnrecordRefusal,
    UprootRefusal,
};
use pj_name::Name;
use pj_output::{graph, print_in_threads, print_serially};
use pj_pmap::Steps;
use pj_tables::{Tables, applied};
use pj_unrecord::removed;
use std::alloc::Global;
use std::marker::Model;
use std::sync::Arc;
use std::sync::ledger::Ledger;
use std::thread::Threads;

/// A list of changes that is lawful: none stands twice, the needs of each stand before it, and each context holds.
///
/// Contracts see the list of the records. No call changes a channel: each gives a new one, which shares with the old one what
/// did not change, or is made of it where the call takes it. Want of memory may come in place of any other answer, and a channel
/// that is lent is then as it was.
pub struct Channel {
    tables: Arc<Tables>,
}

/// Written out and not derived: whoever lets go of one cites this proof, and proves nothing anew of its parts.
impl Drop for Channel {
    fn drop(self) {
        let Channel { tables: _tables } = self;
    }
}

impl Model for Channel {
    ghost use Rattle.std.specs.Prelude.{List};
    ghost use Rattle.std.specs.Arc.{arc_value};
    ghost use Rattle.pj_change.specs.declared.change.Record.{Record};

    ghost Value = { List Record };

    ghost view = { λ c. arc_value c.tables };
}

impl Channel {
    ghost use Rattle.std.specs.Prelude.{◌≡◌, ◌+◌, ◌≤◌, ◌↔◌, [], ◌∷◌, ◌++◌, length, map, IsTrue, IfOk};
    ghost use Rattle.std.specs.Arc.{arc_value};
    ghost use Rattle.pj_apply.specs.StepBounds.{change_bound, pull_bound, unrecord_bound};
    ghost use Rattle.pj_change.specs.Apply.{IsApplyAnswer};
    ghost use Rattle.pj_change.specs.Graph.{IsGraph};
    ghost use Rattle.pj_change.specs.Lawful.{Follows, IsLawful};
    ghost use Rattle.pj_change.specs.Printing.{IsPrintAnswer};
    ghost use Rattle.pj_change.specs.Sets.{HaveOneText};
    ghost use Rattle.pj_channel.specs.Idle.{AppliesNothing, RemovesNothing};
    ghost use Rattle.pj_change.specs.Union as joined;
    ghost use Rattle.pj_change.specs.Unrecord.{IsUnrecordAnswer};
    ghost use Rattle.pj_change.specs.Uprooting.{IsUprootAnswer};

    /// A channel with no change.
    pub fn empty(alloc: Global) -> Result<Channel, Memory>
        ensures { IfOk result (λ c. c ≡ []) }
    {
        Channel::of(alloc, Tables::empty(alloc)?)
    }

    /// The channel of these tables.
    fn of(alloc: Global, tables: Tables) -> Result<Channel, Memory>
        ensures { IfOk result (λ c. c ≡ tables) }
    {
        Ok(Channel {
            tables: Arc::new(alloc, tables)?,
        })
    }

    /// The same channel for a second owner, in constant time and memory.
    pub fn share(&self) -> Result<Channel, Memory>
        ensures { IfOk result (λ c. c ≡ self.now) }
    {
        Ok(Channel {
            tables: Arc::try_clone(&self.tables)?,
        })
    }

    /// The number of its changes.
    pub fn len(&self) -> u128
        ensures { result ≡ length self.now }
    {
        self.tables().list().len()
    }

    /// The tables of its list. It takes no memory.
    pub fn tables(&self) -> &Tables
        ensures { result.now ≡ self.now }
    {
        &self.tables
    }

    /// The tables of its list for one owner, to be given up: themselves where no other channel has them, and else shared.
    fn into_tables(self) -> Result<Tables, Memory>
        ensures { IfOk result (λ t. t ≡ self) }
    {
        let Channel { tables } = self;
        match Arc::try_unwrap(tables) {
            Ok(tables) => Ok(tables),
            Err(shared) => shared.share(),
        }
    }

    /// The channel with the change at its end, which may follow its list, in place of this one.
    fn grown<L: Ledger>(
        self,
        alloc: Global,
        record: &Arc<Record>,
        steps: &mut Steps<L>,
    ) -> Result<Channel, Memory>
        requires { Follows self (arc_value «record».now) }
        ensures list { IfOk result (λ c. c ≡ self ++ arc_value «record».now ∷ []) }
        ensures cost { steps.new ≤ steps.old + change_bound self (arc_value «record».now) }
    {
        let tables = applied(alloc, self.into_tables()?, record, steps)?;
        Channel::of(alloc, tables)
    }

    /// The channel with the change at its end.
    ///
    /// `Already` comes exactly where it holds a change of that name. Else `Needs` comes exactly where a need is not
    /// held, with the least such, and else `Context` exactly where the context of a hunk does not hold, with the first.
    /// It looks at the change and its needs alone, and takes no step where one of these three comes.
    pub fn apply<L: Ledger>(
        &self,
        alloc: Global,
        record: &Arc<Record>,
        steps: &mut Steps<L>,
    ) -> Result<Applied<Channel>, ApplyRefusal>
        ensures answer { IsApplyAnswer self.now (arc_value «record».now) result }
        ensures cost { steps.new ≤ steps.old + change_bound self.now (arc_value «record».now) }
        ensures idle { AppliesNothing result → steps.new ≡ steps.old }
    {
        self.share()?.into_applied(alloc, record, steps)
    }

    /// The same of a channel that is given up: what no other channel shares is changed where it lies. It is gone whatever
    /// the answer is, so who wants it after a refusal shares it before.
    pub fn into_applied<L: Ledger>(
        self,
        alloc: Global,
        record: &Arc<Record>,
        steps: &mut Steps<L>,
    ) -> Result<Applied<Channel>, ApplyRefusal>
        ensures answer { IsApplyAnswer self (arc_value «record».now) result }
        ensures cost { steps.new ≤ steps.old + change_bound self (arc_value «record».now) }
        ensures idle { AppliesNothing result → steps.new ≡ steps.old }
    {
        let list = self.tables().list();
        if is_held(list, record.name) {
            return Ok(Applied::Already);
        }
        if let Some(name) = first_missing(list, record.change.needs.items()) {
            return Err(ApplyRefusal::Needs(name));
        }
        let broken = first_broken(alloc, list, record)?;
        if let Some(hunk) = broken {
            return Err(ApplyRefusal::Context(hunk));
        }
        let channel = self.grown(alloc, record, steps)?;
        Ok(Applied::New(channel))
    }

    /// The channel without the change of this name.
    ///
    /// `Absent` comes exactly where no change has the name. Else `Held` comes exactly where a change needs it, with the
    /// least such. It takes no step where one of these two comes.
    pub fn unrecord<L: Ledger>(
        &self,
        alloc: Global,
        name: Name,
        steps: &mut Steps<L>,
    ) -> Result<Channel, UnrecordRefusal>
        ensures answer { IsUnrecordAnswer self.now name result }
        ensures cost { steps.new ≤ steps.old + unrecord_bound self.now name }
        ensures idle { RemovesNothing result → steps.new ≡ steps.old }
    {
        let own = self.tables();
        if !is_held(own.list(), name) {
            return Err(UnrecordRefusal::Absent);
        }
        if let Some(holder) = own.deps().holder(name) {
            return Err(UnrecordRefusal::Held(holder));
        }
        let tables = removed(alloc, own, name, steps)?;
        let channel = Channel::of(alloc, tables)?;
        Ok(channel)
    }

    /// Whether its changes and those of the other channel have one text per name, as `pull` needs.
    pub fn agrees_with(&self, other: &Channel) -> bool
        ensures { IsTrue result ↔ HaveOneText (self.now ++ other.now) }
    {
        all_agree(self.tables(), other.tables())
    }

    /// The channel's changes, and then those of the other one that it lacks, in the other's order.
    ///
    /// It needs one text per name, which `agrees_with` tests.
    pub fn pull<L: Ledger>(
        &self,
        alloc: Global,
        other: &Channel,
        steps: &mut Steps<L>,
    ) -> Result<Channel, Memory>
        requires { HaveOneText (self.now ++ other.now) }
        ensures same { IfOk result (λ c. c ≡ joined.union self.now other.now) }
        ensures cost { steps.new ≤ steps.old + pull_bound self.now other.now }
    {
        let tables = union(alloc, self.tables(), other.tables(), steps)?;
        Channel::of(alloc, tables)
    }

    /// The channel without the change of this name and all that reach it by needs.
    ///
    /// `Absent` comes exactly where no change has the name.
    pub fn uproot<L: Ledger>(
        &self,
        alloc: Global,
        name: Name,
        steps: &mut Steps<L>,
    ) -> Result<Channel, UprootRefusal>
        ensures { IsUprootAnswer self.now name result }
    {
        let own = self.tables();
        if !is_held(own.list(), name) {
            return Err(UprootRefusal::Absent);
        }
        let tables = uprooted(alloc, own, name, steps)?;
        let channel = Channel::of(alloc, tables)?;
        Ok(channel)
    }

    /// The names of its changes, in their order.
    pub fn log(&self, alloc: Global) -> Result<Names, Memory>
        ensures log { IfOk result (λ names. names ≡ map (λ r. r.name) self.now) }
        ensures lawful { IsLawful self.now }
    {
        let names = names_of(alloc, self.tables().list())?;
        Ok(Names::of(names))
    }

    /// The graph of its set of changes.
    pub fn graph(&self, alloc: Global) -> Result<Graph, Memory>
        ensures { IfOk result (IsGraph self.now) }
    {
        graph(alloc, self.tables())
    }

    /// The print of its set of changes, the texts of its files worked out side by side.
    ///
    /// `Wide` comes exactly where a file has more than `live` live vertices, with the inode of the first in the order of
    /// the print.
    pub fn print<R: Threads + Sync>(
        &self,
        rt: &R,
        alloc: Global,
        live: u32,
    ) -> Result<Bytes, PrintRefusal>
        ensures { IsPrintAnswer self.now live result }
    {
        print_in_threads(rt, alloc, self.tables(), live)
    }

    /// The print of its set of changes, worked out in one thread.
    ///
    /// `Wide` comes exactly where a file has more than `live` live vertices, with the inode of the first in the order of
    /// the print.
    pub fn print_serially(&self, alloc: Global, live: u32) -> Result<Bytes, PrintRefusal>
        ensures { IsPrintAnswer self.now live result }
    {
        print_serially(alloc, self.tables(), live)
    }
}
