//! The plain channel: its list, and the calls that give another one.

use crate::graph::graph_of;
use crate::one_text::all_agree;
use crate::print::{Printed, print_of};
use crate::records::{
    first_broken, first_missing, is_held, least_holder, names_of, share_all, union, with, without,
};
use crate::uproot::uprooted;
use crate::walk::walk_of;
use pj_change::{
    Applied, ApplyRefusal, Bytes, Graph, Memory, Names, PrintRefusal, Record, UnrecordRefusal,
    UprootRefusal, Walk,
};
use pj_name::Name;
use std::alloc::Global;
use std::marker::Model;
use std::sync::Arc;

/// A list of changes that is lawful: none stands twice, the needs of each stand before it, and each context holds.
///
/// Contracts see the list of the records. No call changes a channel: each gives a new one, which shares the records.
/// Want of memory may come in place of any other answer, and the channel is then as it was.
#[derive(Drop)]
pub struct PlainChannel {
    changes: Vec<Arc<Record>>,
}

impl Model for PlainChannel {
    ghost use Rattle.std.specs.Prelude.{List};
    ghost use Rattle.pj_change.specs.declared.change.Record.{Record};
    ghost use Rattle.pj_change.specs.Lawful.{IsLawful};
    ghost use Rattle.pj_change.specs.Shared.{records};

    ghost Value = { List Record };

    ghost view = { λ c. records c.changes.items };

    ghost invariant = { λ c. IsLawful (records c.changes.items) };
}

impl PlainChannel {
    ghost use Rattle.std.specs.Prelude.{◌≡◌, ◌↔◌, [], ◌∷◌, ◌++◌, map, IsTrue, IfOk};
    ghost use Rattle.std.specs.Arc.{arc_value};
    ghost use Rattle.pj_change.specs.Graph.{IsGraph};
    ghost use Rattle.pj_change.specs.Lawful.{IsLawful};
    ghost use Rattle.pj_change.specs.Sets.{HaveOneText};
    ghost use Rattle.pj_change.specs.Union as joined;
    ghost use Rattle.pj_change.specs.Walk.{IsWalk};
    ghost use Rattle.pj_change.specs.Apply.{IsApplyAnswer};
    ghost use Rattle.pj_change.specs.Printing.{IsPrintAnswer};
    ghost use Rattle.pj_change.specs.Shared.{records};
    ghost use Rattle.pj_change.specs.Unrecord.{IsUnrecordAnswer};
    ghost use Rattle.pj_change.specs.Uprooting.{IsUprootAnswer};

    /// A channel with no change.
    pub fn empty(alloc: Global) -> Result<PlainChannel, Memory>
        ensures { IfOk result (λ c. c ≡ []) }
    {
        Ok(PlainChannel {
            changes: Vec::new(alloc),
        })
    }

    /// The channel of a lawful list of changes. It takes no memory.
    pub fn of(changes: Vec<Arc<Record>>) -> PlainChannel
        requires { IsLawful (records changes.items) }
        ensures { result ≡ records changes.items }
    {
        PlainChannel { changes }
    }

    /// The same list for a second owner.
    pub fn share(&self, alloc: Global) -> Result<PlainChannel, Memory>
        ensures { IfOk result (λ c. c ≡ self.now) }
    {
        let changes = share_all(alloc, &self.changes)?;
        Ok(PlainChannel { changes })
    }

    /// The channel with the change at its end.
    ///
    /// `Already` comes exactly where it holds a change of that name. Else `Needs` comes exactly where a need is not
    /// held, with the least such, and else `Context` exactly where the context of a hunk does not hold, with the first.
    pub fn apply(
        &self,
        alloc: Global,
        record: &Arc<Record>,
    ) -> Result<Applied<PlainChannel>, ApplyRefusal>
        ensures { IsApplyAnswer self.now (arc_value «record».now) result }
    {
        let list: &[Arc<Record>] = &self.changes;
        if is_held(list, record.name) {
            return Ok(Applied::Already);
        }
        if let Some(name) = first_missing(list, record.change.needs.items()) {
            return Err(ApplyRefusal::Needs(name));
        }
        let broken = first_broken(alloc, list, record)?;
        if let Some(hunk) = broken {
            return Err(ApplyRefusal::Context(hunk));
        }
        let changes = with(alloc, list, record)?;
        Ok(Applied::New(PlainChannel { changes }))
    }

    /// The channel without the change of this name.
    ///
    /// `Absent` comes exactly where no change has the name. Else `Held` comes exactly where a change needs it, with the
    /// least such.
    pub fn unrecord(&self, alloc: Global, name: Name) -> Result<PlainChannel, UnrecordRefusal>
        ensures { IsUnrecordAnswer self.now name result }
    {
        let list: &[Arc<Record>] = &self.changes;
        if !is_held(list, name) {
            return Err(UnrecordRefusal::Absent);
        }
        if let Some(holder) = least_holder(list, name) {
            return Err(UnrecordRefusal::Held(holder));
        }
        let changes = without(alloc, list, name)?;
        Ok(PlainChannel { changes })
    }

    /// Whether its changes and those of the other channel have one text per name, as `pull` needs.
    pub fn agrees_with(&self, other: &PlainChannel) -> bool
        ensures { IsTrue result ↔ HaveOneText (self.now ++ other.now) }
    {
        all_agree(&self.changes, &other.changes)
    }

    /// The channel's changes, and then those of the other one that it lacks, in the other's order.
    ///
    /// It needs one text per name, which `agrees_with` tests.
    pub fn pull(&self, alloc: Global, other: &PlainChannel) -> Result<PlainChannel, Memory>
        requires { HaveOneText (self.now ++ other.now) }
        ensures { IfOk result (λ c. c ≡ joined.union self.now other.now) }
    {
        let changes = union(alloc, &self.changes, &other.changes)?;
        Ok(PlainChannel { changes })
    }

    /// The channel without the change of this name and all that reach it by needs.
    ///
    /// `Absent` comes exactly where no change has the name.
    pub fn uproot(&self, alloc: Global, name: Name) -> Result<PlainChannel, UprootRefusal>
        ensures { IsUprootAnswer self.now name result }
    {
        let list: &[Arc<Record>] = &self.changes;
        if !is_held(list, name) {
            return Err(UprootRefusal::Absent);
        }
        let changes = uprooted(alloc, list, name)?;
        Ok(PlainChannel { changes })
    }

    /// The names of its changes, in their order.
    pub fn log(&self, alloc: Global) -> Result<Names, Memory>
        ensures log { IfOk result (λ names. names ≡ map (λ r. r.name) self.now) }
        ensures lawful { IsLawful self.now }
    {
        let names = names_of(alloc, &self.changes)?;
        Ok(Names::of(names))
    }

    /// The graph of its set of changes.
    pub fn graph(&self, alloc: Global) -> Result<Graph, Memory>
        ensures { IfOk result (IsGraph self.now) }
    {
        graph_of(alloc, &self.changes)
    }

    /// The walk of its set of changes: the entries of its print, without their texts.
    pub fn walk(&self, alloc: Global) -> Result<Walk, Memory>
        ensures { IfOk result (IsWalk self.now) }
    {
        walk_of(alloc, &self.changes)
    }

    /// The print of its set of changes: the entries of its walk, each with its text.
    ///
    /// `Wide` comes exactly where a file has more than `live` live vertices, with the inode of the first in the order of
    /// the print.
    pub fn print(&self, alloc: Global, live: u32) -> Result<Bytes, PrintRefusal>
        ensures { IsPrintAnswer self.now live result }
    {
        match print_of(alloc, &self.changes, live) {
            Ok(Printed::Text(bytes)) => Ok(Bytes::of(bytes)),
            Ok(Printed::Wide(inode)) => Err(PrintRefusal::Wide(inode)),
            Err(_) => Err(PrintRefusal::Memory),
        }
    }

    /// The changes of its list, in their order.
    pub fn changes(&self) -> &[Arc<Record>]
        ensures { records result.now ≡ self.now }
    {
        &self.changes
    }
}
