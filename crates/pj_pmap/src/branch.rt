//! The branches of a map, which hold nodes of the level below.

ghost use Rattle.std.specs.Prelude.{◌≡◌, ◌*◌, flat_map};
ghost use Rattle.pj_pmap.specs.Nodes.{IsNode, IsLevel, pairs_of};

use crate::child::Child;
use crate::node::{
    NARROW, Node, WIDEST, With, floor_in, get_in, merged_at, run_in, shared, single_in, spliced,
    split, with_in, without_in,
};
use crate::share::Share;
use pj_memory::Memory;
use std::alloc::Global;
use std::marker::Model;

/// At least one node of the level below and at most `WIDEST`, in the order of their keys.
#[derive(Drop)]
pub struct Branch<K: Ord + Share, V: Share, N: Node<K, V>> {
    nodes: Vec<Child<K, V, N>>,
}

impl<K: Ord + Share, V: Share, N: Node<K, V>> Model for Branch<K, V, N> {
    ghost use Rattle.std.specs.Prelude.{ℕ, ◌≤◌, ◌<◌, List, length, flat_map};
    ghost use Rattle.pj_pmap.specs.Nodes.{IsNode, IsLevel, pairs_of};

    ghost Value = { List (K × V) };

    ghost view = { λ b. flat_map (pairs_of N.pairs) b.nodes.items };

    ghost invariant = { λ b. IsLevel K.cmp (pairs_of N.pairs) N.most b.nodes.items × IsNode 12 b.nodes.items };
}

impl<K: Ord + Share, V: Share, N: Node<K, V>> Branch<K, V, N> {
    /// The branch over the nodes.
    fn over(nodes: Vec<Child<K, V, N>>) -> Branch<K, V, N>
        requires level { IsLevel K.cmp (pairs_of N.pairs) N.most nodes.items }
        requires node { IsNode 12 nodes.items }
        ensures same { result ≡ flat_map (pairs_of N.pairs) nodes.items }
        ensures node { IsNode (12 * N.most) result }
    {
        Branch { nodes }
    }
}

impl<K: Ord + Share, V: Share, N: Node<K, V>> Node<K, V> for Branch<K, V, N> {
    ghost pairs = { λ b. b };

    ghost most = { 12 * N.most };

    fn single(alloc: Global, key: K, value: V) -> Result<Branch<K, V, N>, Memory> {
        let nodes = single_in::<K, V, N>(alloc, key, value)?;
        Ok(Branch::over(nodes))
    }

    fn get(&self, key: &K) -> Option<&V> {
        get_in::<K, V, N>(&self.nodes, key)
    }

    fn floor(&self, key: &K) -> Option<(&K, &V)> {
        floor_in::<K, V, N>(&self.nodes, key)
    }

    fn run_after(&self, key: &K) -> &[(K, V)] {
        run_in::<K, V, N>(&self.nodes, key)
    }

    fn first_run(&self) -> &[(K, V)] {
        self.nodes[0].node().first_run()
    }

    fn least(&self) -> &K {
        self.nodes[0].least()
    }

    fn copy(&self, alloc: Global) -> Result<Branch<K, V, N>, Memory> {
        let nodes = shared::<K, V, N>(alloc, &self.nodes)?;
        Ok(Branch::over(nodes))
    }

    fn with(self, alloc: Global, key: K, value: V) -> Result<With<Branch<K, V, N>>, Memory> {
        let at_end = !self.nodes[self.nodes.len() - 1].starts_above(&key);
        let (nodes, is_new) = with_in::<K, V, N>(alloc, self.nodes, key, value)?;
        let (first, second) = split(nodes, WIDEST, at_end)?;
        let first = Branch::over(first);
        let Some(second) = second else {
            return Ok(With {
                first,
                second: None,
                is_new,
            });
        };
        Ok(With {
            first,
            second: Some(Branch::over(second)),
            is_new,
        })
    }

    fn without(self, alloc: Global, key: &K) -> Result<Option<Branch<K, V, N>>, Memory> {
        let nodes = without_in::<K, V, N>(alloc, self.nodes, key)?;
        if nodes.is_empty() {
            return Ok(None);
        }
        Ok(Some(Branch::over(nodes)))
    }

    fn merged(
        &self,
        alloc: Global,
        next: &Branch<K, V, N>,
    ) -> Result<Option<Branch<K, V, N>>, Memory> {
        let here = self.nodes.len();
        if here + next.nodes.len() > NARROW {
            return Ok(None);
        }
        let both = spliced::<K, V, N>(alloc, &self.nodes, None, None, &next.nodes)?;
        let nodes = merged_at::<K, V, N>(alloc, both, here - 1)?;
        Ok(Some(Branch::over(nodes)))
    }
}
