//! How a node is held by the list above it, and shared with other maps.

ghost use Rattle.std.specs.Prelude.{◌≡◌, ℕ, Option, Some, IfOk};
ghost use Rattle.pj_pmap.specs.Pairs.{least_of, starts_above};
ghost use Rattle.pj_pmap.specs.Nodes.{pairs_of};

use crate::node::Node;
use crate::place::{Place, Taken, placed};
use crate::share::Share;
use pj_memory::Memory;
use std::alloc::Global;
use std::marker::{Model, PhantomData};
use std::sync::Arc;

/// A node that maps share. The least of its keys stands beside the pointer, so that a search reads no node before it has chosen one.
///
/// Contracts see what stands in its place, which is a node.
#[derive(Drop)]
pub struct Child<K: Ord + Share, V: Share, N: Node<K, V>> {
    least: K,
    place: Arc<Option<N>>,
    of: PhantomData<V>,
}

impl<K: Ord + Share, V: Share, N: Node<K, V>> Model for Child<K, V, N> {
    ghost use Rattle.std.specs.Prelude.{◌≡◌, Option, Some};
    ghost use Rattle.std.specs.Arc.{arc_value};
    ghost use Rattle.pj_pmap.specs.Pairs.{least_of};
    ghost use Rattle.pj_pmap.specs.Nodes.{pairs_of};

    ghost Value = { Option N };

    ghost view = { λ c. arc_value c.place };

    ghost invariant = { λ c. least_of (pairs_of N.pairs (arc_value c.place)) ≡ Some c.least };
}

impl<K: Ord + Share, V: Share, N: Node<K, V>> Child<K, V, N> {
    /// The child of this node, in its place.
    pub fn in_place(alloc: Global, place: Place<N>, node: N) -> Result<Child<K, V, N>, Memory>
        requires { (k : K) → K.shown k ≡ k }
        ensures { IfOk result (λ c. c ≡ Some node) }
    {
        let least = node.least().share()?;
        let place = placed(alloc, place, node)?;
        let of = PhantomData;
        Ok(Child { least, place, of })
    }

    pub fn new(alloc: Global, node: N) -> Result<Child<K, V, N>, Memory>
        requires { (k : K) → K.shown k ≡ k }
        ensures { IfOk result (λ c. c ≡ Some node) }
    {
        Child::in_place(alloc, Place::none(), node)
    }

    pub fn node(&self) -> &N
        ensures { Some result.now ≡ self.now }
    {
        let place: &Option<N> = &self.place;
        place.as_ref().unwrap()
    }

    /// The node for one owner: itself where no other child has it, and else a copy.
    pub fn into_node(self, alloc: Global) -> Result<Taken<N>, Memory>
        requires { (k : K) → K.shown k ≡ k }
        ensures { IfOk result (λ taken. N.pairs taken.node ≡ pairs_of N.pairs self) }
    {
        let mut place = self.place;
        let Some(held) = Arc::get_mut(&mut place) else {
            let shared: &Option<N> = &place;
            let node = shared.as_ref().unwrap().copy(alloc)?;
            return Ok(Taken {
                node,
                place: Place::none(),
            });
        };
        let node = held.take().unwrap();
        Ok(Taken {
            node,
            place: Place::of(place),
        })
    }

    /// The least key of the node.
    pub fn least(&self) -> &K
        ensures { least_of (pairs_of N.pairs self.now) ≡ Some result.now }
    {
        let _place = &self.place;
        &self.least
    }

    /// The same node for a second owner.
    pub fn share(&self) -> Result<Child<K, V, N>, Memory>
        requires { (k : K) → K.shown k ≡ k }
        ensures { IfOk result (λ c. c ≡ self.now) }
    {
        let least = self.least.share()?;
        let place = self.place.share()?;
        let of = PhantomData;
        Ok(Child { least, place, of })
    }

    /// Whether the node can have one more owner.
    pub fn has_room(&self) -> bool {
        self.place.has_room()
    }

    /// Whether the least key is above this one.
    pub fn starts_above(&self, key: &K) -> bool
        ensures { result ≡ starts_above K.cmp key.now (pairs_of N.pairs self.now) }
    {
        key.cmp(&self.least).is_lt()
    }
}
