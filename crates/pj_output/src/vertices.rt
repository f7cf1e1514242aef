//! The vertices of a list of changes.

ghost use Rattle.std.specs.Prelude.{[], IfOk, OnOk};
ghost use Rattle.pj_change.specs.Gathers.{Gathers};
ghost use Rattle.pj_change.specs.Graph.{vertex_cmp, Lists};
ghost use Rattle.pj_change.specs.Vertices.{IsVertex};
ghost use Rattle.pj_tables.specs.VerticesIn.{IsVertexIn};

use pj_change::{Memory, Vertex};
use pj_name::Name;
use pj_print::list_vertices;
use pj_tables::Tables;
use std::alloc::Global;

/// Adds the vertices of the change of this name.
fn add_vertices(
    alloc: Global,
    tables: &Tables,
    change: Name,
    vertices: &mut Vec<Vertex>,
) -> Result<(), Memory>
    ensures { OnOk result (Gathers (IsVertexIn tables.now change) vertices.old.items vertices.new.items) }
{
    let more = tables.vertices(alloc, change)?;
    vertices.extend_from_slice(more.items())?;
    Ok(())
}

/// The vertices of the list, change by change.
pub fn vertices_by_change(alloc: Global, tables: &Tables) -> Result<Vec<Vertex>, Memory>
    ensures { IfOk result (λ vertices. Gathers (IsVertex tables.now) [] vertices.items) }
{
    let list = tables.list();
    let mut vertices = Vec::new(alloc);
    let mut after = None;
    while let Some(change) = list.next(after) {
        let name = change.name;
        add_vertices(alloc, tables, name, &mut vertices)?;
        after = Some(name);
    }
    Ok(vertices)
}

/// The vertices of the list, by their first points.
pub fn vertices_of(alloc: Global, tables: &Tables) -> Result<Vec<Vertex>, Memory>
    ensures { IfOk result (λ vertices. Lists vertex_cmp (IsVertex tables.now) vertices.items) }
{
    let _list = tables.list();
    let mut vertices = vertices_by_change(alloc, tables)?;
    list_vertices(&mut vertices);
    Ok(vertices)
}
