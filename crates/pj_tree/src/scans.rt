//! Lists of what the maps of a tree have, in order.

ghost use Rattle.std.specs.Prelude.{◌≡◌, IfOk, map};
ghost use Rattle.pj_pmap.specs.Pairs.{IsRising, rest_after};
ghost use Rattle.pj_tree.specs.Maps.{inode_key_cmp, inodes_of, inodes_from, rows_of, rows_from};
ghost use Rattle.pj_tree.specs.RowOrder.{key_cmp};

use crate::keys::{Here, InodeKey, InodeKind, RowKey};
use crate::row::{Inode, NameRow};
use pj_pmap::{Memory, PMap};
use std::alloc::Global;

/// The least key above this one.
fn row_key_after<'m>(pairs: &'m PMap<RowKey, Here>, key: &RowKey) -> Option<&'m RowKey>
    requires { IsRising key_cmp pairs.now }
    ensures { rows_from pairs.now result ≡ rest_after key_cmp key.now pairs.now }
{
    let (next, _) = pairs.next_after(key)?;
    Some(next)
}

/// The rows of a map, in order.
#[tactic(auto, using(crate::proofs::KeyScans::rows_least))]
pub fn rows_in(alloc: Global, pairs: &PMap<RowKey, Here>) -> Result<Vec<&NameRow>, Memory>
    requires { IsRising key_cmp pairs.now }
    ensures { IfOk result (λ rows. map (λ r. r.now) rows.items ≡ rows_of pairs.now) }
{
    let mut rows = Vec::new(alloc);
    let mut next = row_key_after(pairs, &RowKey::least());
    while let Some(key) = next {
        if let Some(row) = key.row() {
            rows.push(row)?;
        }
        next = row_key_after(pairs, key);
    }
    Ok(rows)
}

/// The least key above this one, with its kind.
fn inode_key_after(
    pairs: &PMap<InodeKey, InodeKind>,
    key: InodeKey,
) -> Option<(InodeKey, InodeKind)>
    requires { IsRising inode_key_cmp pairs.now }
    ensures { inodes_from pairs.now result ≡ rest_after inode_key_cmp key pairs.now }
{
    let (next, kind) = pairs.next_after(&key)?;
    Some((*next, *kind))
}

/// The inodes of a map, in order.
#[tactic(auto, using(crate::proofs::KeyScans::inodes_least))]
pub fn inodes_in(alloc: Global, pairs: &PMap<InodeKey, InodeKind>) -> Result<Vec<Inode>, Memory>
    requires { IsRising inode_key_cmp pairs.now }
    ensures { IfOk result (λ inodes. inodes.items ≡ inodes_of pairs.now) }
{
    let mut inodes = Vec::new(alloc);
    let mut next = inode_key_after(pairs, InodeKey { at: None });
    while let Some((key, kind)) = next {
        if let Some(at) = key.at {
            inodes.push(Inode { at, dir: kind.dir })?;
        }
        next = inode_key_after(pairs, key);
    }
    Ok(inodes)
}
