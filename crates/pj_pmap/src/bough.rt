//! Two levels of branches taken as one node.

ghost use Rattle.std.specs.Prelude.{◌*◌};

use crate::branch::Branch;
use crate::node::{Node, With};
use crate::share::Share;
use pj_memory::Memory;
use std::alloc::Global;

/// A node over two levels of branches. What a proof says of a type it says at each place that names
/// it, so a map of four levels names two.
#[derive(Drop)]
pub struct Bough<K: Ord + Share, V: Share, N: Node<K, V>> {
    branch: Branch<K, V, Branch<K, V, N>>,
}

impl<K: Ord + Share, V: Share, N: Node<K, V>> Node<K, V> for Bough<K, V, N> {
    ghost pairs = { λ b. b.branch };

    ghost most = { 12 * (12 * N.most) };

    fn single(alloc: Global, key: K, value: V) -> Result<Bough<K, V, N>, Memory> {
        let branch = Branch::single(alloc, key, value)?;
        Ok(Bough { branch })
    }

    fn get(&self, key: &K) -> Option<&V> {
        self.branch.get(key)
    }

    fn floor(&self, key: &K) -> Option<(&K, &V)> {
        self.branch.floor(key)
    }

    fn run_after(&self, key: &K) -> &[(K, V)] {
        self.branch.run_after(key)
    }

    fn first_run(&self) -> &[(K, V)] {
        self.branch.first_run()
    }

    fn least(&self) -> &K {
        self.branch.least()
    }

    fn copy(&self, alloc: Global) -> Result<Bough<K, V, N>, Memory> {
        let branch = self.branch.copy(alloc)?;
        Ok(Bough { branch })
    }

    fn with(self, alloc: Global, key: K, value: V) -> Result<With<Bough<K, V, N>>, Memory> {
        let With {
            first,
            second,
            is_new,
        } = self.branch.with(alloc, key, value)?;
        let first = Bough { branch: first };
        let Some(second) = second else {
            return Ok(With {
                first,
                second: None,
                is_new,
            });
        };
        Ok(With {
            first,
            second: Some(Bough { branch: second }),
            is_new,
        })
    }

    fn without(self, alloc: Global, key: &K) -> Result<Option<Bough<K, V, N>>, Memory> {
        let Some(branch) = self.branch.without(alloc, key)? else {
            return Ok(None);
        };
        Ok(Some(Bough { branch }))
    }

    fn merged(
        &self,
        alloc: Global,
        next: &Bough<K, V, N>,
    ) -> Result<Option<Bough<K, V, N>>, Memory> {
        let Some(branch) = self.branch.merged(alloc, &next.branch)? else {
            return Ok(None);
        };
        Ok(Some(Bough { branch }))
    }
}
