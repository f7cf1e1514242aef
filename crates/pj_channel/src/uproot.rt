//! The tables of a list without a change and all that reach it by needs.
//!
//! Only a change that none needs can be taken out. So the way goes from the change up to one that needs it, and to one that
//! needs that one, until none does; that one is taken out, and the way goes on from the one below it. No part of the list is
//! gone through.

ghost use Rattle.std.specs.Prelude.{◌≡◌, ◌++◌, ◌∷◌, [], IsTrue, IfOk};
ghost use Rattle.pj_change.specs.Lawful.{is_held, IsLawful};
ghost use Rattle.pj_change.specs.Unrecord.{IsHolder, MayLeave};
ghost use Rattle.pj_change.specs.Unrecord as fewer;
ghost use Rattle.pj_change.specs.Uproot.{IsUprooted};
ghost use Rattle.pj_name.specs.declared.name.Name.{Name as NameValue};
ghost use Rattle.pj_channel.specs.Ways.{IsWay};

use pj_change::Memory;
use pj_name::Name;
use pj_pmap::Steps;
use pj_tables::Tables;
use pj_unrecord::removed;
use std::alloc::Global;
use std::sync::ledger::Ledger;

/// The tables without the change of this name, which none needs, in place of these.
fn lessened<L: Ledger>(
    alloc: Global,
    tables: Tables,
    name: Name,
    steps: &mut Steps<L>,
) -> Result<Tables, Memory>
    requires { MayLeave tables name }
    ensures { IfOk result (λ t. t ≡ fewer.without tables name) }
{
    removed(alloc, &tables, name, steps)
}

/// The change that none needs at the end of a way up from this one. The names on the way to it are put behind the others.
fn climb(tables: &Tables, way: &mut Vec<Name>, from: Name) -> Result<Name, Memory>
    ensures way { IfOk result (λ top. (name : NameValue) → IsWay tables.now name (way.old.items ++ from ∷ []) → IsWay tables.now name (way.new.items ++ top ∷ [])) }
    ensures free { IfOk result (λ top. (holder : NameValue) → IsHolder tables.now top holder → ⊥) }
    ensures lawful { IsLawful tables.now }
{
    let _list = tables.list();
    let deps = tables.deps();
    let mut top = from;
    while let Some(holder) = deps.holder(top) {
        way.push(top)?;
        top = holder;
    }
    Ok(top)
}

/// The tables without the change of this name, which is there, and all that reach it.
pub fn uprooted<L: Ledger>(
    alloc: Global,
    tables: &Tables,
    name: Name,
    steps: &mut Steps<L>,
) -> Result<Tables, Memory>
    requires { IsTrue (is_held tables.now name) }
    ensures { IfOk result (λ left. IsUprooted tables.now name left) }
{
    let mut way = Vec::new(alloc);
    way.push(name)?;
    let mut left = tables.share()?;
    while let Some(from) = way.pop() {
        let top = climb(&left, &mut way, from)?;
        left = lessened(alloc, left, top, steps)?;
    }
    Ok(left)
}
