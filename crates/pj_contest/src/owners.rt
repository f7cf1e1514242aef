//! The changes that own what deletions speak of, by their names.

ghost use Rattle.std.specs.Prelude.{◌≡◌, false, Contains, MatchOption};
ghost use Rattle.pj_change.specs.Lawful.{is_held};
ghost use Rattle.pj_change.specs.Sets.{HaveDistinctNames};

use pj_change::{Peers, Record};
use pj_name::Name;
use std::marker::Model;

/// The record of this name.
pub fn peer_of<P: Peers>(peers: &P, name: Name) -> Option<&Record>
    ensures { MatchOption result (is_held (P.records peers.now) name ≡ false) (λ r. Contains (P.records peers.now) r.now × (r.now.name ≡ name)) }
{
    peers.peer(name)
}

/// Look-ups of records by name, one after the other. Where the name is that of the one before, the list is not searched.
///
/// Contracts see the records of the list.
#[derive(Drop)]
pub struct Owners<'a, P: Peers> {
    peers: &'a P,
    /// The record that was found last.
    last: Option<&'a Record>,
}

impl<'a, P: Peers> Model for Owners<'a, P> {
    ghost use Rattle.std.specs.Prelude.{List, Contains, IfSome};
    ghost use Rattle.pj_change.specs.declared.change.Record.{Record};

    ghost Value = { List Record };

    ghost view = { λ o. P.records o.peers.now };

    ghost invariant = { λ o. IfSome o.last (λ r. Contains (P.records o.peers.now) r.now) };
}

impl<'a, P: Peers> Owners<'a, P> {
    /// Look-ups in this list, of which there was none yet.
    pub fn over(peers: &'a P) -> Owners<'a, P>
        ensures { result ≡ P.records peers.now }
    {
        Owners { peers, last: None }
    }

    /// The list.
    pub fn peers(&self) -> &'a P
        ensures { P.records result.now ≡ self.now }
    {
        self.peers
    }

    /// The record of this name.
    pub fn get(&mut self, name: Name) -> Option<&'a Record>
        ensures same { self.new ≡ self.old }
        ensures found { MatchOption result (is_held self.old name ≡ false) (λ r. Contains self.old r.now × (r.now.name ≡ name)) }
        ensures distinct { HaveDistinctNames self.old }
    {
        if let Some(record) = self.last {
            if record.name == name {
                return Some(record);
            }
        }
        let record = peer_of(self.peers, name)?;
        self.last = Some(record);
        Some(record)
    }
}
