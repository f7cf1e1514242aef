//! How many changes contest a deletion, found by what they insert after and build on.

ghost use Rattle.std.specs.Prelude.{◌≡◌, ◌⊎◌, false, IfOk, IsTrue, count_by, filter_map};
ghost use Rattle.pj_change.specs.Lawful.{is_held};
ghost use Rattle.pj_contest.specs.Marks.{base_cmp, up_cmp};
ghost use Rattle.pj_contest.specs.Given.{base_rows, up_rows};
ghost use Rattle.pj_contest.specs.Contests.{AreRowsOf, IsFree, IsIndexOf};
ghost use Rattle.pj_contest.specs.Sought.{KnowNoMore};
ghost use Rattle.pj_contest.specs.Rivals.{is_name_rival, is_rival_of, is_text_rival};

use crate::indexes::Indexes;
use crate::keys::key_of;
use crate::marks::{BaseMark, UpMark};
use crate::owners::Owners;
use crate::strangers::count_strangers;
use pj_change::{Deleted, Peers, Place, Point, Record};
use pj_context::{deleted_at, name_of};
use pj_name::Name;
use pj_pmap::PMap;
use pj_rows::{Here, Memory, keys_between};
use std::alloc::Global;

/// The names of the changes of some rows.
fn names_of_ups(alloc: Global, rows: &[UpMark]) -> Result<Vec<Name>, Memory>
    ensures { IfOk result (λ v. v.items ≡ filter_map (λ m. m.by) rows.now) }
{
    let names: Vec<Name> = rows.iter().filter_map(|row| row.by).collect(alloc)?;
    Ok(names)
}

/// The names of the changes of some rows.
fn names_of_bases(alloc: Global, rows: &[BaseMark]) -> Result<Vec<Name>, Memory>
    ensures { IfOk result (λ v. v.items ≡ filter_map (λ m. m.by) rows.now) }
{
    let names: Vec<Name> = rows.iter().filter_map(|row| row.by).collect(alloc)?;
    Ok(names)
}

/// How many peers contest a deletion of text by `change`.
fn text_rivals<P: Peers>(
    alloc: Global,
    ups: &PMap<UpMark, Here>,
    peers: &P,
    know_more: bool,
    change: &Record,
    name: Name,
    start: u32,
    end: u32,
) -> Result<u128, Memory>
    requires rows { IsIndexOf up_cmp up_rows (P.records peers.now) ups.now }
    requires fresh { is_held (P.records peers.now) change.now.name ≡ false }
    requires free { IsFree (P.records peers.now) change.now }
    requires know_more { IsTrue know_more ⊎ KnowNoMore (P.records peers.now) }
    ensures { IfOk result (λ n. n ≡ count_by (is_text_rival change.now name start end) (P.records peers.now)) }
{
    let from = Point {
        change: name,
        offset: start,
    };
    let upto = Point {
        change: name,
        offset: end,
    };
    let above = UpMark { at: from, by: None };
    let below = UpMark { at: upto, by: None };
    let rows = keys_between(alloc, ups, &above, &below)?;
    let names = names_of_ups(alloc, &rows)?;
    let count = count_strangers(alloc, peers, know_more, change, &names)?;
    Ok(count)
}

/// How many peers contest the deletion of a name of this child by `change`.
fn name_rivals<P: Peers>(
    alloc: Global,
    bases: &PMap<BaseMark, Here>,
    peers: &P,
    know_more: bool,
    change: &Record,
    child: Place,
) -> Result<u128, Memory>
    requires rows { IsIndexOf base_cmp base_rows (P.records peers.now) bases.now }
    requires fresh { is_held (P.records peers.now) change.now.name ≡ false }
    requires free { IsFree (P.records peers.now) change.now }
    requires know_more { IsTrue know_more ⊎ KnowNoMore (P.records peers.now) }
    ensures { IfOk result (λ n. n ≡ count_by (is_name_rival change.now child) (P.records peers.now)) }
{
    let at = key_of(child);
    let above = BaseMark {
        at,
        past: false,
        by: None,
    };
    let below = BaseMark {
        at,
        past: true,
        by: None,
    };
    let rows = keys_between(alloc, bases, &above, &below)?;
    let names = names_of_bases(alloc, &rows)?;
    let count = count_strangers(alloc, peers, know_more, change, &names)?;
    Ok(count)
}

/// How many peers contest a deletion by `change`.
pub fn rivals<P: Peers>(
    alloc: Global,
    indexes: &Indexes,
    owners: &mut Owners<'_, P>,
    know_more: bool,
    change: &Record,
    owner: u32,
    start: u32,
    end: u32,
) -> Result<u128, Memory>
    requires rows { AreRowsOf owners.old indexes.now }
    requires fresh { is_held owners.old change.now.name ≡ false }
    requires free { IsFree owners.old change.now }
    requires know_more { IsTrue know_more ⊎ KnowNoMore owners.old }
    ensures same { owners.new ≡ owners.old }
    ensures count { IfOk result (λ n. n ≡ count_by (is_rival_of owners.old change.now owner start end) owners.old) }
{
    let peers = owners.peers();
    let name = name_of(change, owner);
    match owners.get(name) {
        None => Ok(0),
        Some(o) => match deleted_at(o, start) {
            None => Ok(0),
            Some(Deleted::Text) => {
                let texts = text_rivals(
                    alloc,
                    &indexes.ups,
                    peers,
                    know_more,
                    change,
                    name,
                    start,
                    end,
                )?;
                Ok(texts)
            },
            Some(Deleted::NameOf(child)) => {
                let names = name_rivals(alloc, &indexes.bases, peers, know_more, change, child)?;
                Ok(names)
            },
        },
    }
}
