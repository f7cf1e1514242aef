//! The row and the inode of a hunk.

ghost use Rattle.std.specs.Prelude.{◌≡◌, ◌+◌, ◌<◌, ◌^◌, length, Contains, IfOk, false, List, [], ◌∷◌, ◌++◌};
ghost use Rattle.pj_change.specs.declared.change.Record.{Record as RecordValue};
ghost use Rattle.pj_change.specs.Context as context;
ghost use Rattle.pj_change.specs.Lawful.{is_held};
ghost use Rattle.pj_change.specs.Positions.{IsNumbered};
ghost use Rattle.pj_change.specs.Positions as position;
ghost use Rattle.pj_change.specs.Rules.{position_count};
ghost use Rattle.pj_names.specs.Changes.{HaveOneEach};
ghost use Rattle.pj_names.specs.Given as given;
ghost use Rattle.pj_tree.specs.TreeOf.{hunk_row};
ghost use Rattle.pj_tree.specs.TreeOf as tree_part;

use pj_change::{Bytes, Hunk, Kind, Peers, Place, Point, Record, Ref, kind_at, resolve};
use pj_pmap::Memory;
use pj_tree::{Inode, NameRow};
use std::alloc::Global;

/// Whether the change has a directory at the position.
fn has_dir(owner: &Record, offset: u32) -> bool
    ensures { result ≡ context.is_dir_inode (position.kind_at owner.now.change.hunks offset) }
{
    matches!(kind_at(&owner.change, offset), Some(Kind::DirInode { .. }))
}

/// Whether a directory of the change or of the others is at the point.
fn is_dir<P: Peers>(change: &Record, others: &P, at: Point) -> bool
    requires fresh { is_held (P.records others.now) change.now.name ≡ false }
    requires one { HaveOneEach (P.records others.now) }
    ensures { result ≡ tree_part.is_dir (P.records others.now ++ change.now ∷ []) at }
{
    if at.change == change.name {
        return has_dir(change, at.offset);
    }
    match others.peer(at.change) {
        Some(owner) => has_dir(owner, at.offset),
        None => false,
    }
}

/// The row of the name at a position of the change. The root has no name.
fn row_of<P: Peers>(
    alloc: Global,
    change: &Record,
    others: &P,
    at: u32,
    parent: Ref,
    child: Place,
    name: &Bytes,
    exec: bool,
) -> Result<Option<NameRow>, Memory>
    requires fresh { is_held (P.records others.now) change.now.name ≡ false }
    requires one { HaveOneEach (P.records others.now) }
    requires numbered { IsNumbered (length change.now.change.needs) parent }
    ensures { IfOk result (λ row. row ≡ tree_part.row_of (P.records others.now ++ change.now ∷ []) (record {
      parent = position.resolve change.now parent;
      bytes = name.now;
      child = child;
      exec = exec;
      at = position.own_point change.now at;
    })) }
{
    let Place::At(child) = child else {
        return Ok(None);
    };
    let at = Point {
        change: change.name,
        offset: at,
    };
    Ok(Some(NameRow {
        parent: resolve(change, parent),
        name: Bytes::of(name.items().to_vec(alloc)?),
        child,
        at,
        dir: is_dir(change, others, child),
        exec,
    }))
}

/// The row of the name that a hunk of the change makes whose first position is `first`.
pub fn row_of_hunk<P: Peers>(
    alloc: Global,
    change: &Record,
    others: &P,
    first: u32,
    hunk: &Hunk,
) -> Result<Option<NameRow>, Memory>
    requires fresh { is_held (P.records others.now) change.now.name ≡ false }
    requires one { HaveOneEach (P.records others.now) }
    requires member { Contains change.now.change.hunks hunk.now }
    requires small { first + position_count hunk.now < 2 ^ 32 }
    ensures { IfOk result (λ row. row ≡ hunk_row (P.records others.now ++ change.now ∷ []) change.now first hunk.now) }
{
    match hunk {
        Hunk::File { parent, name, exec } => {
            let child = Place::At(Point {
                change: change.name,
                offset: first + 1,
            });
            row_of(alloc, change, others, first, *parent, child, name, *exec)
        }
        Hunk::Dir { parent, name } => {
            let child = Place::At(Point {
                change: change.name,
                offset: first + 1,
            });
            row_of(alloc, change, others, first, *parent, child, name, false)
        }
        Hunk::NameOf {
            parent,
            child,
            name,
            exec,
        } => {
            let child = resolve(change, *child);
            row_of(alloc, change, others, first, *parent, child, name, *exec)
        }
        Hunk::Insert { .. } | Hunk::Order { .. } | Hunk::Delete { .. } | Hunk::Revive { .. } => Ok(
            None,
        ),
    }
}

/// The inode that a hunk of the change makes whose first position is `first`.
pub fn inode_in(change: &Record, first: u32, hunk: &Hunk) -> Option<Inode>
    requires { first + position_count hunk.now < 2 ^ 32 }
    ensures { result ≡ given.inode_in change.now first hunk.now }
{
    let dir = match hunk {
        Hunk::File { .. } => false,
        Hunk::Dir { .. } => true,
        Hunk::NameOf { .. } | Hunk::Insert { .. } | Hunk::Order { .. } => return None,
        Hunk::Delete { .. } | Hunk::Revive { .. } => return None,
    };
    let at = Point {
        change: change.name,
        offset: first + 1,
    };
    Some(Inode { at, dir })
}
