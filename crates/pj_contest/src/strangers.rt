//! Which changes are strangers to another, by their names, and how many these are.

ghost use Rattle.std.specs.Prelude.{◌≡◌, ◌∷◌, ◌⊎◌, Bool, true, false, Contains, IfOk, IsTrue, count_by, filter};
ghost use Rattle.pj_name.specs.declared.name.Name.{Name as NameValue};
ghost use Rattle.pj_change.specs.declared.change.Record.{Record as RecordValue};
ghost use Rattle.pj_change.specs.Lawful.{is_held};
ghost use Rattle.pj_change.specs.Sets.{HaveDistinctNames};
ghost use Rattle.pj_contest.specs.Contests.{IsFree};
ghost use Rattle.pj_contest.specs.Sought.{KnowNoMore};
ghost use Rattle.pj_contest.specs.Rivals as rival;
ghost use Rattle.pj_contest.specs.Rivals.{AreRivals, NameOnly};

use crate::distinct::distinct;
use crate::owners::Owners;
use pj_change::{Peers, Record, knows};
use pj_name::Name;
use pj_rows::Memory;
use std::alloc::Global;

/// Whether the peer of this name is a stranger to `change`. Unless `know_more`, no peer knows others beside its needs, and none is looked
/// up.
pub fn is_stranger<P: Peers>(
    owners: &mut Owners<'_, P>,
    know_more: bool,
    change: &Record,
    name: Name,
) -> bool
    requires held { is_held (change.now ∷ owners.old) name ≡ true }
    requires distinct { HaveDistinctNames owners.old }
    requires fresh { is_held owners.old change.now.name ≡ false }
    requires free { IsFree owners.old change.now }
    requires know_more { IsTrue know_more ⊎ KnowNoMore owners.old }
    ensures same { owners.new ≡ owners.old }
    ensures stranger { result ≡ rival.is_stranger_of owners.old change.now name }
{
    if name == change.name || knows(change, name) {
        return false;
    }
    if !know_more {
        return true;
    }
    match owners.get(name) {
        None => false,
        Some(i) => !knows(i, change.name),
    }
}

/// Those of some names whose changes are strangers to `change`.
fn strangers<P: Peers>(
    alloc: Global,
    peers: &P,
    know_more: bool,
    change: &Record,
    names: &[Name],
) -> Result<Vec<Name>, Memory>
    requires held { (n : NameValue) → Contains names.now n → is_held (P.records peers.now) n ≡ true }
    requires fresh { is_held (P.records peers.now) change.now.name ≡ false }
    requires free { IsFree (P.records peers.now) change.now }
    requires know_more { IsTrue know_more ⊎ KnowNoMore (P.records peers.now) }
    ensures { IfOk result (λ v. v.items ≡ filter (rival.is_stranger_of (P.records peers.now) change.now) names.now) }
{
    let mut owners = Owners::over(peers);
    let mut strangers = Vec::new(alloc);
    for name in names {
        if is_stranger(&mut owners, know_more, change, *name) {
            strangers.push(*name)?;
        }
    }
    Ok(strangers)
}

/// How many strangers to `change` have one of these names. Each is asked once.
pub fn count_strangers<P: Peers>(
    alloc: Global,
    peers: &P,
    know_more: bool,
    change: &Record,
    names: &[Name],
) -> Result<u128, Memory>
    requires named { NameOnly (P.records peers.now) names.now }
    requires fresh { is_held (P.records peers.now) change.now.name ≡ false }
    requires free { IsFree (P.records peers.now) change.now }
    requires know_more { IsTrue know_more ⊎ KnowNoMore (P.records peers.now) }
    ensures { IfOk result (λ n. (p : RecordValue → Bool) → AreRivals (P.records peers.now) change.now names.now p → n ≡ count_by p (P.records peers.now)) }
{
    let each = distinct(alloc, names)?;
    let rivals = strangers(alloc, peers, know_more, change, &each)?;
    Ok(rivals.len() as u128)
}
