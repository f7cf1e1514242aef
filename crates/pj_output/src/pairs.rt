//! The pairs of live vertices, by number, that an edge or a pseudo row joins.

ghost use Rattle.std.specs.Prelude.{◌≡◌, ◌<◌, ◌^◌, ℕ, length, Contains, Some, slice_get, IfOk, OnOk, MatchOption};
ghost use Rattle.std.specs.List.Sorted.{IsStrictlySortedBy};
ghost use Rattle.std.specs.Ordering.{is_lt};
ghost use Rattle.pj_change.specs.declared.graph.Vertex.{Vertex as AVertex};
ghost use Rattle.pj_change.specs.Before.{IsLiveText};
ghost use Rattle.pj_change.specs.Gathers.{Gathers};
ghost use Rattle.pj_change.specs.Graph.{point_cmp, vertex_cmp};
ghost use Rattle.pj_change.specs.PseudoRows.{HasEdgeOrRow};
ghost use Rattle.pj_change.specs.Vertices as vertex;
ghost use Rattle.pj_dead.specs.Pseudo as dead;
ghost use Rattle.pj_edges.specs.OwnRows.{AreRowsOf};
ghost use Rattle.pj_output.specs.Pairs.{BeginsAt, IsPairOf, IsPairTo};
ghost use Rattle.pj_output.specs.Targets.{LeadsTo};
ghost use Rattle.pj_print.specs.JoinedPairs.{ArePairsOf};
ghost use Rattle.pj_view.specs.SetGraph.{graph_of};

use crate::targets::{first_point, next_target};
use pj_change::{Memory, Point, Vertex};
use pj_dead::Pseudo;
use pj_edges::OutWalk;
use pj_tables::Tables;
use std::alloc::{AllocError, Global};
use std::cmp::Ordering;

/// The number of the vertex that begins at the point, if one does.
fn number_at(live: &[Vertex], first: Point) -> Option<u32>
    requires sorted { IsStrictlySortedBy vertex_cmp live.now }
    requires small { length live.now < 2 ^ 32 }
    ensures { MatchOption result ((number : ℕ) → BeginsAt live.now first number → ⊥) (BeginsAt live.now first) }
{
    let number = live.partition_point(
        |v| -> bool
            ensures { result ≡ is_lt (point_cmp (vertex.first_point v.now) first) }
        { first_point(v).cmp(&first) == Ordering::Less },
    );
    let v = live.get(number)?;
    if first_point(v) == first {
        Some(number as u32)
    } else {
        None
    }
}

/// Adds the pair of the number and that of the vertex that begins at the point, if one does.
fn add_pair(
    pairs: &mut Vec<(u32, u32)>,
    live: &[Vertex],
    from: u32,
    target: Point,
) -> Result<(), AllocError>
    requires sorted { IsStrictlySortedBy vertex_cmp live.now }
    requires small { length live.now < 2 ^ 32 }
    ensures { OnOk result (Gathers (IsPairTo live.now from target) pairs.old.items pairs.new.items) }
{
    if let Some(to) = number_at(live, target) {
        pairs.push((from, to))?;
    }
    Ok(())
}

/// Adds the pairs of the number of a live vertex and those of the vertices to which an edge or a pseudo row leads from it.
fn add_pairs(
    pairs: &mut Vec<(u32, u32)>,
    tables: &Tables,
    pseudo: &Pseudo,
    walk: &mut OutWalk<'_>,
    live: &[Vertex],
    from: u32,
    u: &Vertex,
) -> Result<(), AllocError>
    requires text { IsLiveText tables.now u.now }
    requires edges { AreRowsOf tables.now walk.old }
    requires sorted { IsStrictlySortedBy vertex_cmp live.now }
    requires small { length live.now < 2 ^ 32 }
    ensures same { walk.new ≡ walk.old }
    ensures pairs { OnOk result (Gathers (IsPairOf (LeadsTo tables.now pseudo.now u.now) live.now from) pairs.old.items pairs.new.items) }
{
    let mut found = next_target(tables, pseudo, walk, u, None);
    while let Some(target) = found {
        add_pair(pairs, live, from, target)?;
        found = next_target(tables, pseudo, walk, u, Some(target));
    }
    Ok(())
}

/// The pairs of numbers of live vertices that an edge or a pseudo row joins.
pub fn pairs_of(
    alloc: Global,
    tables: &Tables,
    pseudo: &Pseudo,
    live: &[Vertex],
) -> Result<Vec<(u32, u32)>, Memory>
    requires rows { dead.AreRowsOf (graph_of tables.now) pseudo.now }
    requires text { (v : AVertex) → Contains live.now v → IsLiveText tables.now v }
    requires sorted { IsStrictlySortedBy vertex_cmp live.now }
    requires small { length live.now < 2 ^ 32 }
    ensures { IfOk result (λ pairs. ArePairsOf (HasEdgeOrRow tables.now) live.now pairs.items) }
{
    let _list = tables.list();
    let mut walk = tables.edges().walk_out();
    let mut pairs = Vec::new(alloc);
    for (from, u) in live.iter().enumerate() {
        add_pairs(&mut pairs, tables, pseudo, &mut walk, live, from as u32, u)?;
    }
    Ok(pairs)
}
