//! The tree itself, to which rows and inodes come and from which they go.

ghost use Rattle.std.specs.Prelude.{◌≡◌, ◌+◌, ◌≤◌, IfOk, [], map};
ghost use Rattle.std.specs.List.Sorted.{IsStrictlySortedBy};
ghost use Rattle.pj_tree.specs.Rows.{inode_cmp, row_cmp, HasAlso, HasInode, IsInOrder, LacksInode, LacksRow};

use crate::keys::{Here, InodeKey, InodeKind, RowKey};
use crate::row::{Inode, NameRow};
use crate::scans::{inodes_in, rows_in};
use pj_change::Point;
use pj_pmap::{Memory, PMap, Steps};
use std::alloc::Global;
use std::marker::Model;
use std::sync::Arc;
use std::sync::ledger::Ledger;

/// The names and the inodes of a set of changes. A changed copy shares with the tree what did not
/// change, and the tree stays as it was.
///
/// Contracts see the lists of its rows and of its inodes, each in order.
pub struct Tree {
    rows: PMap<RowKey, Here>,
    inodes: PMap<InodeKey, InodeKind>,
}

/// Written out and not derived: whoever lets go of one cites this proof, and proves nothing anew of its parts.
impl Drop for Tree {
    fn drop(self) {
        let Tree {
            rows: _rows,
            inodes: _inodes,
        } = self;
    }
}

impl Model for Tree {
    ghost use Rattle.pj_pmap.specs.Pairs.{IsRising};
    ghost use Rattle.pj_tree.specs.Rows.{Listing};
    ghost use Rattle.pj_tree.specs.Maps.{inode_key_cmp, inodes_of, rows_of};
    ghost use Rattle.pj_tree.specs.RowOrder.{key_cmp};

    ghost Value = { Listing };

    ghost view = { λ t. record { rows = rows_of t.rows; inodes = inodes_of t.inodes } };

    ghost invariant = { λ t. IsRising key_cmp t.rows × IsRising inode_key_cmp t.inodes };
}

impl Tree {
    /// The tree with no name and no inode. It takes no memory.
    pub fn empty() -> Tree
        ensures rows { result.rows ≡ [] }
        ensures inodes { result.inodes ≡ [] }
    {
        Tree {
            rows: PMap::empty(),
            inodes: PMap::empty(),
        }
    }

    /// The same tree for a second owner, in constant time.
    pub fn share(&self) -> Result<Tree, Memory>
        ensures same { IfOk result (λ t. t ≡ self.now) }
        ensures order { IfOk result IsInOrder }
    {
        Ok(Tree {
            rows: self.rows.share()?,
            inodes: self.inodes.share()?,
        })
    }

    /// The tree with this row too. One step.
    pub fn with<L: Ledger>(
        &self,
        alloc: Global,
        row: NameRow,
        steps: &mut Steps<L>,
    ) -> Result<Tree, Memory>
        ensures rows { IfOk result (λ t. HasAlso self.now.rows row t.rows) }
        ensures inodes { IfOk result (λ t. t.inodes ≡ self.now.inodes) }
        ensures order { IfOk result IsInOrder }
        ensures cost { steps.new ≤ steps.old + 1 }
    {
        let key = RowKey::of(Arc::new(alloc, row)?);
        Ok(Tree {
            rows: self.rows.with(alloc, key, Here, steps)?,
            inodes: self.inodes.share()?,
        })
    }

    /// The tree without this row. One step.
    pub fn without<L: Ledger>(
        &self,
        alloc: Global,
        row: &NameRow,
        steps: &mut Steps<L>,
    ) -> Result<Tree, Memory>
        ensures rows { IfOk result (λ t. LacksRow self.now.rows row.now t.rows) }
        ensures inodes { IfOk result (λ t. t.inodes ≡ self.now.inodes) }
        ensures order { IfOk result IsInOrder }
        ensures cost { steps.new ≤ steps.old + 1 }
    {
        let key = RowKey::of(Arc::new(alloc, row.copied(alloc)?)?);
        Ok(Tree {
            rows: self.rows.without(alloc, &key, steps)?,
            inodes: self.inodes.share()?,
        })
    }

    /// The tree with an inode at this point, in place of one that is there. One step.
    pub fn with_inode<L: Ledger>(
        &self,
        alloc: Global,
        at: Point,
        dir: bool,
        steps: &mut Steps<L>,
    ) -> Result<Tree, Memory>
        ensures rows { IfOk result (λ t. t.rows ≡ self.now.rows) }
        ensures inodes { IfOk result (λ t. HasInode self.now.inodes (record { at = at; dir = dir }) t.inodes) }
        ensures order { IfOk result IsInOrder }
        ensures cost { steps.new ≡ steps.old + 1 }
    {
        let key = InodeKey { at: Some(at) };
        Ok(Tree {
            inodes: self.inodes.with(alloc, key, InodeKind { dir }, steps)?,
            rows: self.rows.share()?,
        })
    }

    /// The tree without an inode at this point. One step.
    pub fn without_inode<L: Ledger>(
        &self,
        alloc: Global,
        at: Point,
        steps: &mut Steps<L>,
    ) -> Result<Tree, Memory>
        ensures rows { IfOk result (λ t. t.rows ≡ self.now.rows) }
        ensures inodes { IfOk result (λ t. LacksInode self.now.inodes at t.inodes) }
        ensures order { IfOk result IsInOrder }
        ensures cost { steps.new ≡ steps.old + 1 }
    {
        let key = InodeKey { at: Some(at) };
        Ok(Tree {
            inodes: self.inodes.without(alloc, &key, steps)?,
            rows: self.rows.share()?,
        })
    }

    /// Its rows, in order.
    pub(crate) fn rows(&self, alloc: Global) -> Result<Vec<&NameRow>, Memory>
        ensures same { IfOk result (λ rows. map (λ r. r.now) rows.items ≡ self.now.rows) }
        ensures sorted { IfOk result (λ rows. IsStrictlySortedBy row_cmp (map (λ r. r.now) rows.items)) }
    {
        rows_in(alloc, &self.rows)
    }

    /// Its inodes, in order.
    pub(crate) fn inodes(&self, alloc: Global) -> Result<Vec<Inode>, Memory>
        ensures same { IfOk result (λ inodes. inodes.items ≡ self.now.inodes) }
        ensures sorted { IfOk result (λ inodes. IsStrictlySortedBy inode_cmp inodes.items) }
    {
        inodes_in(alloc, &self.inodes)
    }
}
