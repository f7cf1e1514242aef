//! The nodes at the top of a map, each with all levels below it.

ghost use Rattle.std.specs.Prelude.{◌*◌};

use crate::bough::Bough;
use crate::leaf::Leaf;
use crate::node::{Node, With};
use crate::share::Share;
use pj_memory::Memory;
use std::alloc::Global;

/// A node of the list at the top of a map: four levels of branches, of at most 12 nodes each, over leaves of at most 64 pairs. It is a
/// type of its own, since what a proof says of a type it says at each place that names it.
#[derive(Drop)]
pub struct Trunk<K: Ord + Share, V: Share> {
    bough: Bough<K, V, Bough<K, V, Leaf<K, V>>>,
}

impl<K: Ord + Share, V: Share> Node<K, V> for Trunk<K, V> {
    ghost pairs = { λ t. t.bough.branch };

    ghost most = { 12 * (12 * (12 * (12 * 64))) };

    fn single(alloc: Global, key: K, value: V) -> Result<Trunk<K, V>, Memory> {
        let bough = Bough::single(alloc, key, value)?;
        Ok(Trunk { bough })
    }

    fn get(&self, key: &K) -> Option<&V> {
        self.bough.get(key)
    }

    fn floor(&self, key: &K) -> Option<(&K, &V)> {
        self.bough.floor(key)
    }

    fn run_after(&self, key: &K) -> &[(K, V)] {
        self.bough.run_after(key)
    }

    fn first_run(&self) -> &[(K, V)] {
        self.bough.first_run()
    }

    fn least(&self) -> &K {
        self.bough.least()
    }

    fn copy(&self, alloc: Global) -> Result<Trunk<K, V>, Memory> {
        let bough = self.bough.copy(alloc)?;
        Ok(Trunk { bough })
    }

    fn with(self, alloc: Global, key: K, value: V) -> Result<With<Trunk<K, V>>, Memory> {
        let With {
            first,
            second,
            is_new,
        } = self.bough.with(alloc, key, value)?;
        let first = Trunk { bough: first };
        let Some(second) = second else {
            return Ok(With {
                first,
                second: None,
                is_new,
            });
        };
        Ok(With {
            first,
            second: Some(Trunk { bough: second }),
            is_new,
        })
    }

    fn without(self, alloc: Global, key: &K) -> Result<Option<Trunk<K, V>>, Memory> {
        let Some(bough) = self.bough.without(alloc, key)? else {
            return Ok(None);
        };
        Ok(Some(Trunk { bough }))
    }

    fn merged(&self, alloc: Global, next: &Trunk<K, V>) -> Result<Option<Trunk<K, V>>, Memory> {
        let Some(bough) = self.bough.merged(alloc, &next.bough)? else {
            return Ok(None);
        };
        Ok(Some(Trunk { bough }))
    }
}
