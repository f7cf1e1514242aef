//! Cursors, which go through a map from one key to the next.

ghost use Rattle.std.specs.Prelude.{◌≡◌, map, None, Some, MatchOption};
ghost use Rattle.pj_pmap.specs.Pairs.{IsRising, next_of, rest_after, shown_pair};
ghost use Rattle.pj_pmap.specs.Lookups.{IsRunOf};

use crate::map::PMap;
use crate::run::{first_pair, run_above};
use crate::share::Share;
use std::marker::Model;

/// Look-ups of next pairs, one after the other. Where the next pair lies in the leaf of the one before it, no node is searched.
///
/// Contracts see the list of the map's pairs.
#[derive(Drop)]
pub struct Cursor<'a, K: Ord + Share, V: Share> {
    source: &'a PMap<K, V>,
    /// What a leaf has from the pair on that was found last, or none.
    run: &'a [(K, V)],
}

impl<'a, K: Ord + Share, V: Share> Model for Cursor<'a, K, V> {
    ghost use Rattle.std.specs.Prelude.{List, map};
    ghost use Rattle.pj_pmap.specs.Pairs.{shown_pair, IsRising};
    ghost use Rattle.pj_pmap.specs.Lookups.{IsStretch};

    ghost Value = { List (K × V) };

    ghost view = { λ c. c.source.now };

    ghost invariant = { λ c. IsRising K.cmp c.source.now × IsStretch c.source.now (map (shown_pair V.shown) c.run.now) };
}

impl<'a, K: Ord + Share, V: Share> Cursor<'a, K, V> {
    /// A cursor that has found no pair yet.
    pub(crate) fn new(source: &'a PMap<K, V>) -> Cursor<'a, K, V>
        requires { IsRising K.cmp source.now }
        ensures { result ≡ source.now }
    {
        Cursor { source, run: &[] }
    }

    /// The pairs from that of the least key above this one on, as far as one leaf has them; none where no key is above.
    fn run_after(&self, key: &K) -> &'a [(K, V)]
        ensures { IsRunOf (rest_after K.cmp key.now self.now) (map (shown_pair V.shown) result.now) }
    {
        let near = run_above(self.run, key);
        if !near.is_empty() {
            return near;
        }
        self.source.run_after(key)
    }

    /// The pair of the least key above this one.
    pub fn next_after(&mut self, key: &K) -> Option<(&'a K, &'a V)>
        ensures same { self.new ≡ self.old }
        ensures next { MatchOption result (next_of K.cmp key.now self.old ≡ None) (λ p. next_of K.cmp key.now self.old ≡ Some (p.0.now, V.shown p.1.now)) }
    {
        let run = self.run_after(key);
        self.run = run;
        first_pair(run)
    }
}
