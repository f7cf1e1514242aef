//! Trees with and without a name and an inode.

ghost use Rattle.std.specs.Prelude.{◌≡◌, ◌<◌};

use pj_change::{Bytes, Place, Point};
use pj_name::Name;
use pj_pmap::{Memory, Steps};
use pj_tree::{NameRow, Tree};
use std::alloc::{AllocError, Global};
use std::marker::Brand;
use std::sync::ledger::{Blank, Ledger};

fn point(offset: u32) -> Point {
    Point {
        change: Name::least(),
        offset,
    }
}

/// A name in the root.
fn row(alloc: Global) -> Result<NameRow, AllocError> {
    Ok(NameRow {
        parent: Place::Root,
        name: Bytes::of(Vec::from_slice(alloc, b"a")?),
        child: point(1),
        at: point(0),
        dir: false,
        exec: false,
    })
}

fn named<L: Ledger>(alloc: Global, steps: &mut Steps<L>) -> Result<Tree, Memory> {
    let bare = Tree::empty().with_inode(alloc, point(1), false, steps)?;
    bare.with(alloc, row(alloc)?, steps)
}

fn unnamed<L: Ledger>(alloc: Global, tree: &Tree, steps: &mut Steps<L>) -> Result<Tree, Memory> {
    let bare = tree.without(alloc, &row(alloc)?, steps)?;
    bare.without_inode(alloc, point(1), steps)
}

fn changed<L: Ledger>(alloc: Global, blank: Blank) -> Result<(), Memory>
    requires name { blank.name ≡ L.name }
    requires parts { blank.parts ≡ L.parts }
    requires some { 0 < blank.parts }
{
    let mut steps = Steps::<L>::new(blank);
    let tree = named(alloc, &mut steps)?;
    let other = tree.share()?;
    unnamed(alloc, &other, &mut steps)?;
    Ok(())
}

/// A tree with a name and its inode, and then without them.
pub fn made(alloc: Global) -> Result<(), Memory> {
    changed::<Brand>(alloc, Blank::new(1))
}
