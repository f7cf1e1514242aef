//! The map as its users see it, and the list of trunks at its top.

ghost use Rattle.std.specs.Prelude.{◌≡◌, ℕ, ◌+◌, ◌^◌, ◌<◌, [], ◌∷◌, length, map, None, Some, MatchOption, IfOk, IsTrue, ◌↔◌};
ghost use Rattle.pj_pmap.specs.Pairs.{value_at, floor_of, next_of, rest_after, with_pair, without_key, shown_pair, IsRising};
ghost use Rattle.pj_pmap.specs.Lookups.{IsRunOf};
ghost use Rattle.std.specs.Arc.{arc_value};
ghost use Rattle.pj_pmap.specs.Nodes.{pairs_of};

use crate::child::Child;
use crate::cursor::Cursor;
use crate::node::{floor_in, get_in, run_in, shared, single_in, with_in, without_in};
use crate::place::{Place, placed};
use crate::run::first_pair;
use crate::share::Share;
use crate::steps::Steps;
use crate::trunk::Trunk;
use pj_memory::Memory;
use std::alloc::Global;
use std::marker::Model;
use std::sync::Arc;
use std::sync::ledger::Ledger;

/// The trunks of a map that has a pair, and the number of its pairs.
#[derive(Drop)]
struct Top<K: Ord + Share, V: Share> {
    trunks: Vec<Child<K, V, Trunk<K, V>>>,
    len: u64,
}

impl<K: Ord + Share, V: Share> Model for Top<K, V> {
    ghost use Rattle.std.specs.Prelude.{ℕ, ◌≡◌, ◌*◌, ◌<◌, List, length, flat_map};
    ghost use Rattle.pj_pmap.specs.Nodes.{IsLevel, pairs_of};

    ghost Value = { List (K × V) };

    ghost view = { λ t. flat_map (pairs_of (λ trunk. trunk.bough.branch)) t.trunks.items };

    ghost invariant = { λ t. IsLevel K.cmp (pairs_of (λ trunk. trunk.bough.branch)) (12 * (12 * (12 * (12 * 64)))) t.trunks.items × (0 < length t.trunks.items) × (t.len ≡ length (flat_map (pairs_of (λ trunk. trunk.bough.branch)) t.trunks.items)) };
}

impl<K: Ord + Share, V: Share> Top<K, V> {
    fn single(alloc: Global, key: K, value: V) -> Result<Top<K, V>, Memory>
        requires { (k : K) → K.shown k ≡ k }
        ensures { IfOk result (λ t. t ≡ (key, V.shown value) ∷ []) }
    {
        let trunks = single_in::<K, V, Trunk<K, V>>(alloc, key, value)?;
        Ok(Top { trunks, len: 1 })
    }

    fn len(&self) -> u128
        ensures same { result ≡ length self.now }
        ensures small { result < 2 ^ 80 }
        ensures rising { IsRising K.cmp self.now }
    {
        let _trunks = &self.trunks;
        u128::from(self.len)
    }

    fn get(&self, key: &K) -> Option<&V>
        ensures { MatchOption result (value_at K.cmp key.now self.now ≡ None) (λ v. value_at K.cmp key.now self.now ≡ Some (V.shown v.now)) }
    {
        get_in::<K, V, Trunk<K, V>>(&self.trunks, key)
    }

    fn floor(&self, key: &K) -> Option<(&K, &V)>
        ensures { MatchOption result (floor_of K.cmp key.now self.now ≡ None) (λ p. floor_of K.cmp key.now self.now ≡ Some (p.0.now, V.shown p.1.now)) }
    {
        floor_in::<K, V, Trunk<K, V>>(&self.trunks, key)
    }

    fn run_after(&self, key: &K) -> &[(K, V)]
        ensures { IsRunOf (rest_after K.cmp key.now self.now) (map (shown_pair V.shown) result.now) }
    {
        run_in::<K, V, Trunk<K, V>>(&self.trunks, key)
    }

    /// The same pairs for one owner.
    fn copy(&self, alloc: Global) -> Result<Top<K, V>, Memory>
        requires { (k : K) → K.shown k ≡ k }
        ensures { IfOk result (λ t. t ≡ self.now) }
    {
        let trunks = shared::<K, V, Trunk<K, V>>(alloc, &self.trunks)?;
        Ok(Top {
            trunks,
            len: self.len,
        })
    }

    fn with(self, alloc: Global, key: K, value: V) -> Result<Top<K, V>, Memory>
        requires { (k : K) → K.shown k ≡ k }
        ensures { IfOk result (λ t. t ≡ with_pair K.cmp key (V.shown value) self) }
    {
        let (trunks, is_new) = with_in::<K, V, Trunk<K, V>>(alloc, self.trunks, key, value)?;
        let len = self.len.checked_add(u64::from(is_new)).ok_or(Memory)?;
        Ok(Top { trunks, len })
    }

    /// None where no pair is left.
    fn without(self, alloc: Global, key: &K) -> Result<Option<Top<K, V>>, Memory>
        requires plain { (k : K) → K.shown k ≡ k }
        requires there { value_at K.cmp key.now self ≡ None → ⊥ }
        ensures { IfOk result (λ t. pairs_of (λ u. u) t ≡ without_key K.cmp key.now self) }
    {
        let len = self.len - 1;
        let trunks = without_in::<K, V, Trunk<K, V>>(alloc, self.trunks, key)?;
        if trunks.is_empty() {
            return Ok(None);
        }
        Ok(Some(Top { trunks, len }))
    }
}

/// The trunks for one owner, if there are any: these where no other map has them, and else a copy; and the place for them.
fn taken<K: Ord + Share, V: Share>(
    alloc: Global,
    place: Option<Arc<Option<Top<K, V>>>>,
) -> Result<(Option<Top<K, V>>, Place<Top<K, V>>), Memory>
    requires { (k : K) → K.shown k ≡ k }
    ensures { IfOk result (λ taken. pairs_of (λ t. t) taken.0 ≡ pairs_of (λ a. pairs_of (λ t. t) (arc_value a)) place) }
{
    let Some(mut place) = place else {
        return Ok((None, Place::none()));
    };
    let Some(held) = Arc::get_mut(&mut place) else {
        let shared: &Option<Top<K, V>> = &place;
        let Some(top) = shared else {
            return Ok((None, Place::none()));
        };
        let copy = top.copy(alloc)?;
        return Ok((Some(copy), Place::none()));
    };
    let top = held.take();
    Ok((top, Place::of(place)))
}

/// A sorted map. A changed copy shares with the map what did not change, and the map stays as it was.
///
/// Contracts see the list of its pairs in the order of their keys, the values as `V.shown` gives them.
pub struct PMap<K: Ord + Share, V: Share> {
    place: Option<Arc<Option<Top<K, V>>>>,
}

/// Written out and not derived: whoever lets go of a map then cites this proof, where it would prove anew of each part of a map that it
/// may be let go.
impl<K: Ord + Share, V: Share> Drop for PMap<K, V> {
    fn drop(self) {
        let PMap { place: _place } = self;
    }
}

impl<K: Ord + Share, V: Share> Model for PMap<K, V> {
    ghost use Rattle.std.specs.Prelude.{List};
    ghost use Rattle.std.specs.Arc.{arc_value};
    ghost use Rattle.pj_pmap.specs.Pairs.{IsRising};
    ghost use Rattle.pj_pmap.specs.Nodes.{pairs_of};

    ghost Value = { List (K × V) };

    ghost view = { λ m. pairs_of (λ a. pairs_of (λ t. t) (arc_value a)) m.place };

    ghost invariant = { λ m. IsRising K.cmp (pairs_of (λ a. pairs_of (λ t. t) (arc_value a)) m.place) };
}

impl<K: Ord + Share, V: Share> PMap<K, V> {
    /// The map with no pair. It takes no memory.
    pub fn empty() -> PMap<K, V>
        ensures { result ≡ [] }
    {
        PMap { place: None }
    }

    /// The trunks, if there are any.
    fn top(&self) -> Option<&Top<K, V>>
        ensures { MatchOption result (self.now ≡ []) (λ top. top.now ≡ self.now) }
    {
        let place: &Option<Top<K, V>> = self.place.as_ref()?;
        place.as_ref()
    }

    /// The number of pairs.
    pub fn len(&self) -> u128
        ensures same { result ≡ length self.now }
        ensures small { result < 2 ^ 80 }
        ensures rising { IsRising K.cmp self.now }
    {
        let _place = &self.place;
        match self.top() {
            Some(top) => top.len(),
            None => 0,
        }
    }

    /// Whether there is no pair.
    pub fn is_empty(&self) -> bool
        ensures { IsTrue result ↔ (self.now ≡ []) }
    {
        self.len() == 0
    }

    /// The value of the key.
    pub fn get(&self, key: &K) -> Option<&V>
        ensures { MatchOption result (value_at K.cmp key.now self.now ≡ None) (λ v. value_at K.cmp key.now self.now ≡ Some (V.shown v.now)) }
    {
        self.top()?.get(key)
    }

    /// The pair of the greatest key that is not above this one.
    pub fn floor(&self, key: &K) -> Option<(&K, &V)>
        ensures { MatchOption result (floor_of K.cmp key.now self.now ≡ None) (λ p. floor_of K.cmp key.now self.now ≡ Some (p.0.now, V.shown p.1.now)) }
    {
        self.top()?.floor(key)
    }

    /// The pair of the least key above this one.
    pub fn next_after(&self, key: &K) -> Option<(&K, &V)>
        ensures { MatchOption result (next_of K.cmp key.now self.now ≡ None) (λ p. next_of K.cmp key.now self.now ≡ Some (p.0.now, V.shown p.1.now)) }
    {
        let _place = &self.place;
        let run = self.run_after(key);
        first_pair(run)
    }

    /// The pairs from that of the least key above this one on, as far as one leaf has them; none where no key is above.
    pub(crate) fn run_after(&self, key: &K) -> &[(K, V)]
        ensures { IsRunOf (rest_after K.cmp key.now self.now) (map (shown_pair V.shown) result.now) }
    {
        match self.top() {
            Some(top) => top.run_after(key),
            None => &[],
        }
    }

    /// A cursor over the map, for look-ups of next pairs one after the other.
    pub fn cursor(&self) -> Cursor<'_, K, V>
        ensures { result ≡ self.now }
    {
        let _place = &self.place;
        Cursor::new(self)
    }

    /// The same map for a second owner, in constant time.
    pub fn share(&self) -> Result<PMap<K, V>, Memory>
        ensures same { IfOk result (λ m. m ≡ self.now) }
        ensures rising { IfOk result (IsRising K.cmp) }
    {
        let Some(place) = &self.place else {
            return Ok(PMap::empty());
        };
        let Ok(place) = Arc::try_clone(place) else {
            return Err(Memory);
        };
        Ok(PMap { place: Some(place) })
    }

    fn put(self, alloc: Global, key: K, value: V) -> Result<PMap<K, V>, Memory>
        requires plain { (k : K) → K.shown k ≡ k }
        ensures same { IfOk result (λ m. m ≡ with_pair K.cmp key (V.shown value) self) }
        ensures rising { IfOk result (IsRising K.cmp) }
    {
        let PMap { place } = self;
        let (top, place) = taken(alloc, place)?;
        let changed = match top {
            Some(top) => top.with(alloc, key, value)?,
            None => Top::single(alloc, key, value)?,
        };
        Ok(PMap {
            place: Some(placed(alloc, place, changed)?),
        })
    }

    fn take_out(self, alloc: Global, key: &K) -> Result<PMap<K, V>, Memory>
        requires plain { (k : K) → K.shown k ≡ k }
        ensures same { IfOk result (λ m. m ≡ without_key K.cmp key.now self) }
        ensures rising { IfOk result (IsRising K.cmp) }
    {
        if self.get(key).is_none() {
            return Ok(self);
        }
        let PMap { place } = self;
        let (top, place) = taken(alloc, place)?;
        let Some(top) = top else {
            return Ok(PMap::empty());
        };
        let Some(left) = top.without(alloc, key)? else {
            return Ok(PMap::empty());
        };
        Ok(PMap {
            place: Some(placed(alloc, place, left)?),
        })
    }

    /// The map with this pair, in place of one with its key. One step.
    pub fn with<L: Ledger>(
        &self,
        alloc: Global,
        key: K,
        value: V,
        steps: &mut Steps<L>,
    ) -> Result<PMap<K, V>, Memory>
        requires plain { (k : K) → K.shown k ≡ k }
        ensures same { IfOk result (λ m. m ≡ with_pair K.cmp key (V.shown value) self.now) }
        ensures rising { IfOk result (IsRising K.cmp) }
        ensures cost { steps.new ≡ steps.old + 1 }
    {
        steps.tick();
        self.share()?.put(alloc, key, value)
    }

    /// The same of a map that is given up: what no other map shares is changed where it lies. One step.
    pub fn into_with<L: Ledger>(
        self,
        alloc: Global,
        key: K,
        value: V,
        steps: &mut Steps<L>,
    ) -> Result<PMap<K, V>, Memory>
        requires plain { (k : K) → K.shown k ≡ k }
        ensures same { IfOk result (λ m. m ≡ with_pair K.cmp key (V.shown value) self) }
        ensures rising { IfOk result (IsRising K.cmp) }
        ensures cost { steps.new ≡ steps.old + 1 }
    {
        steps.tick();
        self.put(alloc, key, value)
    }

    /// The map without the key. One step.
    pub fn without<L: Ledger>(
        &self,
        alloc: Global,
        key: &K,
        steps: &mut Steps<L>,
    ) -> Result<PMap<K, V>, Memory>
        requires plain { (k : K) → K.shown k ≡ k }
        ensures same { IfOk result (λ m. m ≡ without_key K.cmp key.now self.now) }
        ensures rising { IfOk result (IsRising K.cmp) }
        ensures cost { steps.new ≡ steps.old + 1 }
    {
        steps.tick();
        self.share()?.take_out(alloc, key)
    }

    /// The same of a map that is given up: what no other map shares is changed where it lies. One step.
    pub fn into_without<L: Ledger>(
        self,
        alloc: Global,
        key: &K,
        steps: &mut Steps<L>,
    ) -> Result<PMap<K, V>, Memory>
        requires plain { (k : K) → K.shown k ≡ k }
        ensures same { IfOk result (λ m. m ≡ without_key K.cmp key.now self) }
        ensures rising { IfOk result (IsRising K.cmp) }
        ensures cost { steps.new ≡ steps.old + 1 }
    {
        steps.tick();
        self.take_out(alloc, key)
    }
}

impl<K: Ord + Share, V: Share> Share for PMap<K, V> {
    ghost shown = { λ m. m };

    fn share(&self) -> Result<PMap<K, V>, Memory> {
        PMap::share(self)
    }
}
