//! A list of changes with distinct names, by name.

ghost use Rattle.std.specs.Prelude.{◌≡◌, ◌+◌, ◌≤◌, ◌<◌, ◌^◌, ◌↔◌, [], ◌∷◌, ◌++◌, false, length, Some, None, IsTrue, IfOk, MatchOption};
ghost use Rattle.std.specs.Arc.{arc_value};
ghost use Rattle.pj_change.specs.Lawful.{is_held, record_of};
ghost use Rattle.pj_change.specs.Sets.{HaveDistinctNames};
ghost use Rattle.pj_change.specs.Unrecord as fewer;
ghost use Rattle.pj_apply.specs.Links.{first_name, key_cmp, link_of, moved_end, set_after, set_before, shown_link, AreDistinct, IsSet};
ghost use Rattle.pj_apply.specs.Walks.{remaining};
ghost use Rattle.pj_pmap.specs.Pairs.{IsRising};

use crate::link::{HeldName, Link};
use pj_change::Record;
use pj_name::Name;
use pj_pmap::{Memory, PMap, Share, Steps};
use std::alloc::Global;
use std::marker::Model;
use std::sync::Arc;
use std::sync::ledger::Ledger;

/// A list of changes with distinct names, each of which is found by its name. A list that changes is given up: whoever keeps it shares
/// it before.
///
/// Contracts see the list of the records.
pub struct Held {
    links: PMap<HeldName, Link>,
    first: Option<Name>,
    last: Option<Name>,
}

/// Written out and not derived: whoever lets go of one cites this proof, and proves nothing anew of its parts.
impl Drop for Held {
    fn drop(self) {
        let Held {
            links: _links,
            first: _first,
            last: _last,
        } = self;
    }
}

impl Model for Held {
    ghost use Rattle.std.specs.Prelude.{List, length};
    ghost use Rattle.pj_change.specs.declared.change.Record.{Record};
    ghost use Rattle.pj_apply.specs.Links.{listed, IsKept};

    ghost Value = { List Record };

    ghost view = { λ h. listed h.links (length h.links) h.first };

    ghost invariant = { λ h. IsKept (listed h.links (length h.links) h.first) h.links h.first h.last };
}

/// The links, with another neighbour before the one of this name. At most one step.
fn with_before<L: Ledger>(
    alloc: Global,
    links: PMap<HeldName, Link>,
    at: Option<Name>,
    before: Option<Name>,
    steps: &mut Steps<L>,
) -> Result<PMap<HeldName, Link>, Memory>
    requires { IsRising key_cmp links }
    ensures set { IfOk result (IsSet at (set_before before) links) }
    ensures cost { steps.new ≤ steps.old + 1 }
{
    let Some(name) = at else {
        return Ok(links);
    };
    let Some(link) = links.get(&HeldName { name }) else {
        return Ok(links);
    };
    let link = Link {
        change: link.change.share()?,
        before,
        after: link.after,
    };
    links.into_with(alloc, HeldName { name }, link, steps)
}

/// The links, with another neighbour after the one of this name. At most one step.
fn with_after<L: Ledger>(
    alloc: Global,
    links: PMap<HeldName, Link>,
    at: Option<Name>,
    after: Option<Name>,
    steps: &mut Steps<L>,
) -> Result<PMap<HeldName, Link>, Memory>
    requires { IsRising key_cmp links }
    ensures set { IfOk result (IsSet at (set_after after) links) }
    ensures cost { steps.new ≤ steps.old + 1 }
{
    let Some(name) = at else {
        return Ok(links);
    };
    let Some(link) = links.get(&HeldName { name }) else {
        return Ok(links);
    };
    let link = Link {
        change: link.change.share()?,
        before: link.before,
        after,
    };
    links.into_with(alloc, HeldName { name }, link, steps)
}

/// The end of a list: the other name, where nothing stands between it and the end.
fn moved_end(between: Option<Name>, other: Option<Name>, end: Option<Name>) -> Option<Name>
    ensures { result ≡ moved_end between other end }
{
    match between {
        None => other,
        Some(_) => end,
    }
}

impl Held {
    /// The list with no change. It takes no memory.
    pub fn empty() -> Held
        ensures { result ≡ [] }
    {
        Held {
            links: PMap::empty(),
            first: None,
            last: None,
        }
    }

    /// The same list for a second owner, in constant time.
    pub fn share(&self) -> Result<Held, Memory>
        ensures { IfOk result (λ h. h ≡ self.now) }
    {
        Ok(Held {
            links: self.links.share()?,
            first: self.first,
            last: self.last,
        })
    }

    /// The number of changes, which is below 2^80.
    pub fn len(&self) -> u128
        ensures same { result ≡ length self.now }
        ensures small { length self.now < 2 ^ 80 }
        ensures distinct { HaveDistinctNames self.now }
    {
        let _first = &self.first;
        self.links.len()
    }

    /// Whether there is no change.
    pub fn is_empty(&self) -> bool
        ensures { IsTrue result ↔ (self.now ≡ []) }
    {
        self.len() == 0
    }

    /// The link of this name.
    fn link(&self, name: Name) -> Option<&Link>
        ensures { MatchOption result (link_of None self.now None name ≡ None) (λ l. link_of None self.now None name ≡ Some (shown_link l.now)) }
    {
        self.links.get(&HeldName { name })
    }

    /// The change of this name, or `None` where no change has it.
    pub fn get(&self, name: Name) -> Option<&Arc<Record>>
        ensures { MatchOption result (record_of self.now name ≡ None) (λ r. record_of self.now name ≡ Some (arc_value r.now)) }
    {
        let link = self.link(name)?;
        Some(&link.change)
    }

    /// The name of the first change, or of the one after the change of this name.
    fn next_name(&self, after: Option<Name>) -> Option<Name>
        ensures name { result ≡ first_name (remaining self.now after) None }
        ensures distinct { AreDistinct self.now }
    {
        let _links = &self.links;
        match after {
            None => self.first,
            Some(name) => self.link(name)?.after,
        }
    }

    /// The first change, or the one after the change of this name, or `None` where there is none: a step of a walk.
    pub fn next(&self, after: Option<Name>) -> Option<&Arc<Record>>
        ensures { MatchOption result (remaining self.now after ≡ []) (λ r. remaining self.now after ≡ arc_value r.now ∷ remaining self.now (Some (arc_value r.now).name)) }
    {
        let name = self.next_name(after)?;
        self.get(name)
    }

    /// The list with the change at its end, where none of its name is there. At most two steps.
    pub fn with<L: Ledger>(
        self,
        alloc: Global,
        change: &Arc<Record>,
        steps: &mut Steps<L>,
    ) -> Result<Held, Memory>
        requires { is_held self (arc_value change.now).name ≡ false }
        ensures same { IfOk result (λ h. h ≡ self ++ arc_value change.now ∷ []) }
        ensures cost { steps.new ≤ steps.old + 2 }
    {
        let name = change.name;
        let Held { links, first, last } = self;
        let link = Link {
            change: change.share()?,
            before: last,
            after: None,
        };
        let links = links.into_with(alloc, HeldName { name }, link, steps)?;
        let links = with_after(alloc, links, last, Some(name), steps)?;
        Ok(Held {
            links,
            first: moved_end(first, Some(name), first),
            last: Some(name),
        })
    }

    /// The list without the change of this name, which is there. The others stay in their order. At most three steps.
    pub fn without<L: Ledger>(
        self,
        alloc: Global,
        name: Name,
        steps: &mut Steps<L>,
    ) -> Result<Held, Memory>
        requires { IsTrue (is_held self name) }
        ensures same { IfOk result (λ h. h ≡ fewer.without self name) }
        ensures cost { steps.new ≤ steps.old + 3 }
    {
        let Some(link) = self.link(name) else {
            return Ok(self);
        };
        let before = link.before;
        let after = link.after;
        let Held { links, first, last } = self;
        let links = links.into_without(alloc, &HeldName { name }, steps)?;
        let links = with_after(alloc, links, before, after, steps)?;
        let links = with_before(alloc, links, after, before, steps)?;
        Ok(Held {
            links,
            first: moved_end(before, after, first),
            last: moved_end(after, before, last),
        })
    }
}
