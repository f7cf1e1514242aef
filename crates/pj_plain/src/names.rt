//! The tree of a set of changes: its names and its inodes.

ghost use Rattle.std.specs.Prelude.{◌≡◌, ◌+◌, ◌<◌, ◌^◌, length, Contains, IfOk, OnOk, MatchOption, Some, []};
ghost use Rattle.pj_change.specs.declared.graph.Vertex.{Vertex as AVertex};
ghost use Rattle.pj_change.specs.Context as context;
ghost use Rattle.pj_change.specs.Graph.{vertex_cmp, Lists};
ghost use Rattle.pj_change.specs.Lawful.{IsLawful};
ghost use Rattle.pj_change.specs.Positions.{IsNumbered};
ghost use Rattle.pj_change.specs.Positions as position;
ghost use Rattle.pj_change.specs.Rules.{position_count};
ghost use Rattle.pj_change.specs.Vertices.{first_point, IsVertex};
ghost use Rattle.pj_tree.specs.Rows.{HasAlso, HasInode};
ghost use Rattle.pj_change.specs.Gathers.{Gathers, IsOfOne};
ghost use Rattle.pj_change.specs.Shared.{records};
ghost use Rattle.pj_tree.specs.TreeOf.{hunk_row, IsRowOf, IsTreeOf};
ghost use Rattle.pj_tree.specs.TreeOf as tree_part;

use pj_change::{
    Bytes, Hunk, Kind, Place, Point, Record, Ref, Vertex, VertexKind, kind_at, resolve,
};
use pj_context::own_point;
use pj_pmap::{Memory, Steps};
use pj_tree::{Inode, NameRow, Tree};
use std::alloc::Global;
use std::sync::Arc;
use std::sync::ledger::{Blank, Ledger};

/// Whether the change has a directory at the position.
fn has_dir(owner: &Record, offset: u32) -> bool
    ensures { result ≡ context.is_dir_inode (position.kind_at owner.now.change.hunks offset) }
{
    matches!(kind_at(&owner.change, offset), Some(Kind::DirInode { .. }))
}

/// Whether a directory of the set is at the point.
fn is_dir(changes: &[Arc<Record>], p: Point) -> bool
    ensures { result ≡ tree_part.is_dir (records changes.now) p }
{
    changes
        .iter()
        .any(|owner| owner.name == p.change && has_dir(owner, p.offset))
}

/// The row of the name at a position of `r`. The root has no name.
fn row_of(
    alloc: Global,
    changes: &[Arc<Record>],
    r: &Record,
    at: u32,
    parent: Ref,
    child: Place,
    name: &Bytes,
    exec: bool,
) -> Result<Option<NameRow>, Memory>
    requires { IsNumbered (length r.now.change.needs) parent }
    ensures { IfOk result (λ row. row ≡ tree_part.row_of (records changes.now) (record {
      parent = position.resolve r.now parent;
      bytes = name.now;
      child = child;
      exec = exec;
      at = position.own_point r.now at;
    })) }
{
    let Place::At(child) = child else {
        return Ok(None);
    };
    Ok(Some(NameRow {
        parent: resolve(r, parent),
        name: Bytes::of(name.items().to_vec(alloc)?),
        child,
        at: own_point(r, at),
        dir: is_dir(changes, child),
        exec,
    }))
}

/// The row of the name that the hunk of `r` makes whose first position is `first`.
fn row_of_hunk(
    alloc: Global,
    changes: &[Arc<Record>],
    r: &Record,
    first: u32,
    hunk: &Hunk,
) -> Result<Option<NameRow>, Memory>
    requires member { Contains r.now.change.hunks hunk.now }
    requires small { first + position_count hunk.now < 2 ^ 32 }
    ensures { IfOk result (λ row. row ≡ hunk_row (records changes.now) r.now first hunk.now) }
{
    match hunk {
        Hunk::File { parent, name, exec } => {
            let child = Place::At(own_point(r, first + 1));
            row_of(alloc, changes, r, first, *parent, child, name, *exec)
        }
        Hunk::Dir { parent, name } => {
            let child = Place::At(own_point(r, first + 1));
            row_of(alloc, changes, r, first, *parent, child, name, false)
        }
        Hunk::NameOf {
            parent,
            child,
            name,
            exec,
        } => {
            let child = resolve(r, *child);
            row_of(alloc, changes, r, first, *parent, child, name, *exec)
        }
        Hunk::Insert { .. } | Hunk::Order { .. } | Hunk::Delete { .. } | Hunk::Revive { .. } => Ok(
            None,
        ),
    }
}

/// Adds the row, if there is one.
fn add_row<L: Ledger>(
    alloc: Global,
    tree: &mut Tree,
    row: Option<NameRow>,
    steps: &mut Steps<L>,
) -> Result<(), Memory>
    ensures rows { OnOk result (MatchOption row (tree.new.rows ≡ tree.old.rows) (λ one. HasAlso tree.old.rows one tree.new.rows)) }
    ensures inodes { OnOk result (tree.new.inodes ≡ tree.old.inodes) }
{
    if let Some(row) = row {
        *tree = tree.with(alloc, row, steps)?;
    }
    Ok(())
}

/// Adds the rows of the names that `r` makes.
fn add_rows<L: Ledger>(
    alloc: Global,
    tree: &mut Tree,
    changes: &[Arc<Record>],
    r: &Record,
    steps: &mut Steps<L>,
) -> Result<(), Memory>
    ensures rows { OnOk result (Gathers (IsRowOf (records changes.now) r.now) tree.old.rows tree.new.rows) }
    ensures inodes { OnOk result (tree.new.inodes ≡ tree.old.inodes) }
{
    let mut first = 0;
    for hunk in r.change.hunks.items() {
        let row = row_of_hunk(alloc, changes, r, first, hunk)?;
        add_row(alloc, tree, row, steps)?;
        first += hunk.position_count() as u32;
    }
    Ok(())
}

/// The inode that a vertex is.
fn inode_of(vertex: &Vertex) -> Option<Inode>
    ensures { result ≡ tree_part.inode_of vertex.now }
{
    let at = Point {
        change: vertex.change,
        offset: vertex.start,
    };
    match vertex.kind {
        VertexKind::File => Some(Inode { at, dir: false }),
        VertexKind::Dir => Some(Inode { at, dir: true }),
        VertexKind::Name | VertexKind::ExecName | VertexKind::Text => None,
    }
}

/// Adds the inode, if there is one, in place of one at the same point.
fn add_inode<L: Ledger>(
    alloc: Global,
    tree: &mut Tree,
    inode: Option<Inode>,
    steps: &mut Steps<L>,
) -> Result<(), Memory>
    ensures rows { OnOk result (tree.new.rows ≡ tree.old.rows) }
    ensures inodes { OnOk result (MatchOption inode (tree.new.inodes ≡ tree.old.inodes) (λ one. HasInode tree.old.inodes one tree.new.inodes)) }
{
    if let Some(inode) = inode {
        *tree = tree.with_inode(alloc, inode.at, inode.dir, steps)?;
    }
    Ok(())
}

/// Adds the inodes that are among the vertices.
fn add_inodes<L: Ledger>(
    alloc: Global,
    tree: &mut Tree,
    vertices: &[Vertex],
    steps: &mut Steps<L>,
) -> Result<(), Memory>
    requires none { tree.now.inodes ≡ [] }
    requires tied { (v w : AVertex) → Contains vertices.now v → Contains vertices.now w → first_point v ≡ first_point w → v ≡ w }
    ensures rows { OnOk result (tree.new.rows ≡ tree.old.rows) }
    ensures inodes { OnOk result (Gathers (IsOfOne (λ v i. tree_part.inode_of v ≡ Some i) vertices.now) [] tree.new.inodes) }
{
    for vertex in vertices {
        add_inode(alloc, tree, inode_of(vertex), steps)?;
    }
    Ok(())
}

/// The tree of the set of these changes, which has these vertices.
pub fn tree_of<L: Ledger>(
    alloc: Global,
    changes: &[Arc<Record>],
    vertices: &[Vertex],
    blank: Blank,
) -> Result<Tree, Memory>
    requires lawful { IsLawful (records changes.now) }
    requires vertices { Lists vertex_cmp (IsVertex (records changes.now)) vertices.now }
    requires name { blank.name ≡ L.name }
    requires parts { blank.parts ≡ L.parts }
    requires some { 0 < blank.parts }
    ensures { IfOk result (IsTreeOf (records changes.now)) }
{
    let mut steps = Steps::<L>::new(blank);
    let mut tree = Tree::empty();
    for r in changes {
        add_rows(alloc, &mut tree, changes, r, &mut steps)?;
    }
    add_inodes(alloc, &mut tree, vertices, &mut steps)?;
    Ok(tree)
}
