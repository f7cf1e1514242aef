//! The real edges of a list of changes.

ghost use Rattle.std.specs.Prelude.{◌≡◌, IfOk, OnOk};
ghost use Rattle.pj_change.specs.declared.point.Place.TheVariants as placed;
ghost use Rattle.pj_change.specs.EdgeRows.{IsEdgeRow};
ghost use Rattle.pj_change.specs.Graph.{edge_cmp, Lists};
ghost use Rattle.pj_change.specs.RealEdges.{IsEdge};
ghost use Rattle.pj_edges.specs.Orders.{least_out, out_cmp, out_row};
ghost use Rattle.pj_output.specs.Scans.{rows_from, HasAlso};
ghost use Rattle.pj_pmap.specs.Pairs.{rest_after};

use pj_change::{Edge, EdgeRow, Label, Memory, Place, Point};
use pj_edges::{EdgeRows, OutRow};
use pj_name::Name;
use pj_tables::Tables;
use std::alloc::Global;

/// The first row after this one, by source, target, label and introducer.
fn row_after(rows: &EdgeRows, after: EdgeRow) -> Option<EdgeRow>
    ensures { rows_from rows.now.out result ≡ rest_after out_cmp (out_row after) rows.now.out }
{
    let (next, _) = rows.by_source().next_after(&OutRow { row: after })?;
    Some(next.row)
}

/// The row that is not after any other.
fn least_row() -> EdgeRow
    ensures { result ≡ least_out placed.Root }
{
    let least = Name::least();
    EdgeRow {
        source: Place::Root,
        target: Point {
            change: least,
            offset: 0,
        },
        label: Label::Block,
        introducer: least,
    }
}

/// The first of the rows.
fn first_row(rows: &EdgeRows) -> Option<EdgeRow>
    ensures { rows_from rows.now.out result ≡ rows.now.out }
{
    let _rows = rows.by_source();
    let least = least_row();
    if rows.has(least) {
        return Some(least);
    }
    row_after(rows, least)
}

/// Adds the edge with this row.
fn add_edge(edges: &mut Vec<Edge>, tables: &Tables, row: EdgeRow) -> Result<(), Memory>
    requires { IsEdgeRow tables.now row }
    ensures { OnOk result (HasAlso (IsEdge tables.now) row edges.old.items edges.new.items) }
{
    let _list = tables.list();
    if let Some(edge) = tables.edge(row) {
        edges.push(edge)?;
    }
    Ok(())
}

/// The real edges of the list, in order.
pub fn edges_of(alloc: Global, tables: &Tables) -> Result<Vec<Edge>, Memory>
    ensures { IfOk result (λ edges. Lists edge_cmp (IsEdge tables.now) edges.items) }
{
    let _list = tables.list();
    let rows = tables.edges();
    let _rising = rows.by_source();
    let mut edges = Vec::new(alloc);
    let mut next = first_row(rows);
    while let Some(row) = next {
        add_edge(&mut edges, tables, row)?;
        next = row_after(rows, row);
    }
    Ok(edges)
}
