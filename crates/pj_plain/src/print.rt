//! The print of a lawful list of changes.

ghost use Rattle.std.specs.Prelude.{◌≡◌, ◌<◌, ◌^◌, ◌↔◌, IsTrue, length, IfOk};
ghost use Rattle.pj_change.specs.declared.print.StepKind.TheVariants as step_kind;
ghost use Rattle.pj_change.specs.FileText.{IsFileText};
ghost use Rattle.pj_change.specs.FirstWide.{IsWide, IsFirstWideOf};
ghost use Rattle.pj_change.specs.Graph.{vertex_cmp, Lists};
ghost use Rattle.pj_change.specs.Lawful.{IsLawful};
ghost use Rattle.pj_change.specs.Print.{AreEntries};
ghost use Rattle.pj_change.specs.Vertices.{IsVertex};
ghost use Rattle.pj_plain.specs.Links.{AreJoins};
ghost use Rattle.pj_plain.specs.Printing.{IsPrinted};
ghost use Rattle.pj_change.specs.Shared.{records};

use crate::edges::edges_of;
use crate::file_text::{joined, live_list, text_of};
use crate::live_text::SetWithVertices;
use crate::vertices::vertices_of;
use crate::walk::walk_over;
use pj_change::{Point, Record, Step, StepKind};
use pj_print::{Memory, put_entry};
use std::alloc::{AllocError, Global};
use std::sync::Arc;

/// What a print comes to, but for want of memory.
#[derive(Drop)]
pub enum Printed {
    /// The bytes.
    Text(Vec<u8>),
    /// The inode of the first file that has more live vertices than the limit.
    Wide(Point),
}

/// Whether the entry is a file with more live vertices than the limit.
fn is_wide(
    alloc: Global,
    set: &SetWithVertices,
    limit: u32,
    step: &Step,
) -> Result<bool, AllocError>
    requires vertices { Lists vertex_cmp (IsVertex (records set.now.changes.now)) set.now.vertices.now }
    ensures { IfOk result (λ wide. IsTrue wide ↔ IsWide (records set.now.changes.now) limit step.now) }
{
    match step.kind {
        StepKind::File => {
            let live = live_list(alloc, set, step.inode)?;
            Ok(live.len() > limit as usize)
        }
        StepKind::Dir | StepKind::Same => Ok(false),
    }
}

/// The inode of the first of the entries that is a file with more live vertices than the limit, if one is.
fn first_wide(
    alloc: Global,
    set: &SetWithVertices,
    limit: u32,
    steps: &[Step],
) -> Result<Option<Point>, AllocError>
    requires vertices { Lists vertex_cmp (IsVertex (records set.now.changes.now)) set.now.vertices.now }
    ensures { IfOk result (IsFirstWideOf (records set.now.changes.now) limit steps.now) }
{
    for step in steps {
        let wide = is_wide(alloc, set, limit, step)?;
        if wide {
            return Ok(Some(step.inode));
        }
    }
    Ok(None)
}

/// The text of the entry: that of its file, or none.
fn entry_text(
    alloc: Global,
    set: &SetWithVertices,
    pairs: &[(u32, u32)],
    step: &Step,
) -> Result<Vec<u8>, Memory>
    requires lawful { IsLawful (records set.now.changes.now) }
    requires vertices { Lists vertex_cmp (IsVertex (records set.now.changes.now)) set.now.vertices.now }
    requires small { length set.now.vertices.now < 2 ^ 32 }
    requires joins { AreJoins (records set.now.changes.now) set.now.vertices.now pairs.now }
    ensures { IfOk result (λ text. step.now.kind ≡ step_kind.File → IsFileText (records set.now.changes.now) step.now.inode text.items) }
{
    match step.kind {
        StepKind::File => text_of(alloc, set, pairs, step.inode),
        StepKind::Dir | StepKind::Same => Ok(Vec::new(alloc)),
    }
}

/// The bytes of the entries.
fn entries(
    alloc: Global,
    set: &SetWithVertices,
    pairs: &[(u32, u32)],
    steps: &[Step],
) -> Result<Vec<u8>, Memory>
    requires lawful { IsLawful (records set.now.changes.now) }
    requires vertices { Lists vertex_cmp (IsVertex (records set.now.changes.now)) set.now.vertices.now }
    requires small { length set.now.vertices.now < 2 ^ 32 }
    requires joins { AreJoins (records set.now.changes.now) set.now.vertices.now pairs.now }
    ensures { IfOk result (λ bytes. AreEntries (records set.now.changes.now) steps.now bytes.items) }
{
    let mut out = Vec::new(alloc);
    for step in steps {
        let text = entry_text(alloc, set, pairs, step)?;
        put_entry(&mut out, step, &text)?;
    }
    Ok(out)
}

/// The print of the set of these changes, where no file has more live vertices than the limit.
pub fn print_of(alloc: Global, changes: &[Arc<Record>], limit: u32) -> Result<Printed, Memory>
    requires { IsLawful (records changes.now) }
    ensures { IfOk result (IsPrinted (records changes.now) limit) }
{
    let vertices = vertices_of(alloc, changes)?;
    let set = SetWithVertices {
        changes,
        vertices: &vertices,
    };
    let walk = walk_over(alloc, &set)?;
    if let Some(inode) = first_wide(alloc, &set, limit, walk.items())? {
        return Ok(Printed::Wide(inode));
    }
    let edges = edges_of(alloc, changes)?;
    let pairs = joined(alloc, &set, &edges)?;
    let bytes = entries(alloc, &set, &pairs, walk.items())?;
    Ok(Printed::Text(bytes))
}
