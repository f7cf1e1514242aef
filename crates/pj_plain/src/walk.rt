//! The walk of a lawful list of changes.

ghost use Rattle.std.specs.Prelude.{IfOk};
ghost use Rattle.pj_change.specs.Graph.{vertex_cmp, Lists};
ghost use Rattle.pj_change.specs.Lawful.{IsLawful};
ghost use Rattle.pj_change.specs.Vertices.{IsVertex};
ghost use Rattle.pj_change.specs.Walk.{IsWalk};
ghost use Rattle.pj_change.specs.Shared.{records};

use crate::live_text::SetWithVertices;
use crate::names::tree_of;
use crate::vertices::vertices_of;
use pj_change::{Memory, Record, Walk};
use std::alloc::Global;
use std::marker::Brand;
use std::sync::Arc;
use std::sync::ledger::Blank;

/// The walk of the set of these changes.
pub fn walk_of(alloc: Global, changes: &[Arc<Record>]) -> Result<Walk, Memory>
    requires { IsLawful (records changes.now) }
    ensures { IfOk result (IsWalk (records changes.now)) }
{
    let vertices = vertices_of(alloc, changes)?;
    let set = SetWithVertices {
        changes,
        vertices: &vertices,
    };
    walk_over(alloc, &set)
}

/// The walk of a set of changes with these vertices.
pub fn walk_over(alloc: Global, set: &SetWithVertices) -> Result<Walk, Memory>
    requires lawful { IsLawful (records set.now.changes.now) }
    requires vertices { Lists vertex_cmp (IsVertex (records set.now.changes.now)) set.now.vertices.now }
    ensures { IfOk result (IsWalk (records set.now.changes.now)) }
{
    let tree = tree_of::<Brand>(alloc, set.changes, set.vertices, Blank::new(1))?;
    tree.walk(alloc, set)
}
