//! Names and inodes of a set of changes, and the order of names.

ghost use Rattle.std.specs.Prelude.{◌≡◌, IfOk};
ghost use Rattle.std.specs.Ordering.{is_eq};
ghost use Rattle.pj_change.specs.Graph.{place_cmp};
ghost use Rattle.pj_tree.specs.Rows.{pair_cmp, row_cmp};

use pj_change::{Bytes, Place, Point};
use pj_pmap::Memory;
use std::alloc::Global;
use std::cmp::Ordering;

/// A name of a set of changes.
#[derive(Drop)]
pub struct NameRow {
    /// The root, or the directory that the name is in.
    pub parent: Place,
    pub name: Bytes,
    /// The inode that is named.
    pub child: Point,
    /// Where the name stands.
    pub at: Point,
    /// Whether the child is a directory.
    pub dir: bool,
    /// Whether the name is executable.
    pub exec: bool,
}

/// A file or a directory of a set of changes.
#[derive(Clone, Copy, PartialEq, Eq)]
pub struct Inode {
    pub at: Point,
    /// Whether it is a directory.
    pub dir: bool,
}

/// The root before each point.
pub fn place_order(one: Place, other: Place) -> Ordering
    ensures { result ≡ place_cmp one other }
{
    match (one, other) {
        (Place::Root, Place::Root) => Ordering::Equal,
        (Place::Root, Place::At(_)) => Ordering::Less,
        (Place::At(_), Place::Root) => Ordering::Greater,
        (Place::At(one), Place::At(other)) => one.cmp(&other),
    }
}

impl NameRow {
    /// By parent, then by name, then by child.
    pub fn pair_order(&self, other: &NameRow) -> Ordering
        ensures { result ≡ pair_cmp self.now other.now }
    {
        let parents = place_order(self.parent, other.parent);
        if parents != Ordering::Equal {
            return parents;
        }
        let names = self.name.items().cmp(other.name.items());
        names.then(self.child.cmp(&other.child))
    }

    /// Whether the two say one pair in one parent.
    pub fn has_pair_of(&self, other: &NameRow) -> bool
        ensures { result ≡ is_eq (pair_cmp self.now other.now) }
    {
        self.pair_order(other) == Ordering::Equal
    }

    /// By the pair, then by where the name stands.
    pub fn order(&self, other: &NameRow) -> Ordering
        ensures { result ≡ row_cmp self.now other.now }
    {
        let pairs = self.pair_order(other);
        if pairs != Ordering::Equal {
            return pairs;
        }
        let kinds = self.dir.cmp(&other.dir).then(self.exec.cmp(&other.exec));
        self.at.cmp(&other.at).then(kinds)
    }

    /// The same row, with a name of its own.
    pub fn copied(&self, alloc: Global) -> Result<NameRow, Memory>
        ensures { IfOk result (λ r. r ≡ self.now) }
    {
        let mut name = Vec::new(alloc);
        name.extend_from_slice(self.name.items())?;
        Ok(NameRow {
            parent: self.parent,
            name: Bytes::of(name),
            child: self.child,
            at: self.at,
            dir: self.dir,
            exec: self.exec,
        })
    }
}
