//! Where inodes stand in their list, and which of them have a name that is not dead.

ghost use Rattle.std.specs.Prelude.{◌≡◌, ◌<◌, Bool, List, Contains, map, length, slice_index_or, IfOk};
ghost use Rattle.std.specs.List.{list_any};
ghost use Rattle.std.specs.Ordering.{is_lt};
ghost use Rattle.std.specs.List.Sorted.{IsStrictlySortedBy};
ghost use Rattle.pj_change.specs.Graph.{point_cmp};
ghost use Rattle.pj_change.specs.Positions.{same_point};
ghost use Rattle.pj_tree.specs.declared.row.Inode.{Inode};
ghost use Rattle.pj_tree.specs.Rows.{inode_cmp};
ghost use Rattle.pj_tree.specs.Frames.{has_name};
ghost use Rattle.pj_tree.specs.declared.pairings.Pairing.{Pairing};

use crate::pairings::Pairing;
use crate::row::Inode;
use pj_change::Point;
use std::alloc::{AllocError, Global};
use std::cmp::Ordering;

/// The index of an inode. The inodes are in order, and it is one of them.
pub fn index_of(inodes: &[Inode], inode: Inode) -> usize
    requires sorted { IsStrictlySortedBy inode_cmp inodes.now }
    requires there { Contains inodes.now inode }
    ensures within { result < length inodes.now }
    ensures at { (d : Inode) → slice_index_or inodes.now result d ≡ inode }
{
    let at = inode.at;
    inodes.partition_point(
        |other| -> bool
            ensures { result ≡ is_lt (point_cmp other.now.at at) }
        { other.at.cmp(&at) == Ordering::Less },
    )
}

/// Whether each inode has a name that is not dead.
pub fn named(alloc: Global, inodes: &[Inode], pairings: &[Pairing]) -> Result<Vec<bool>, AllocError>
    requires sorted { IsStrictlySortedBy inode_cmp inodes.now }
    requires kinds { (e : Pairing) → Contains pairings.now e → Contains inodes.now (record { at = e.row.now.child; dir = e.row.now.dir }) }
    ensures { IfOk result (λ flags. flags.items ≡ map (λ i. has_name pairings.now i.at) inodes.now) }
{
    let mut named = vec![in alloc; false; inodes.len()]?;
    for pairing in pairings {
        let index = index_of(
            inodes,
            Inode {
                at: pairing.row.child,
                dir: pairing.row.dir,
            },
        );
        named[index] = true;
    }
    Ok(named)
}
