//! Edges in the order of a graph.

ghost use Rattle.std.specs.Prelude.{◌≡◌, Contains};
ghost use Rattle.std.specs.declared.cmp.Ordering.TheVariants.{Equal};
ghost use Rattle.pj_change.specs.declared.graph.Edge.{Edge as AnEdge};
ghost use Rattle.pj_change.specs.Graph.{place_cmp, edge_cmp, label_rank, Lists};
ghost use Rattle.std.specs.Ordering.{nat_cmp};

use pj_change::{Edge, Label, Place};
use std::cmp::Ordering;

/// The order of places: the root before each point.
fn by_place(p: Place, q: Place) -> Ordering
    ensures { result ≡ place_cmp p q }
{
    p.cmp(&q)
}

/// The order of labels: block, folder, order.
fn by_label(k: Label, l: Label) -> Ordering
    ensures { result ≡ nat_cmp (label_rank k) (label_rank l) }
{
    k.cmp(&l)
}

/// The order of edges: by source, target, label and introducer.
fn by_ends(e: &Edge, f: &Edge) -> Ordering
    ensures { result ≡ edge_cmp e.now f.now }
{
    by_place(e.source, f.source).then(
        e.target.cmp(&f.target).then(by_label(e.label, f.label).then(
            e.introducer.cmp(&f.introducer),
        )),
    )
}

/// Puts the edges in order, each once.
pub fn list_edges(edges: &mut Vec<Edge>)
    requires { (e f : AnEdge) → Contains edges.old.items e → Contains edges.old.items f → edge_cmp e f ≡ Equal → e ≡ f }
    ensures { Lists edge_cmp (Contains edges.old.items) edges.new.items }
{
    edges.sort_unstable_by(|e, f| by_ends(e, f));
    edges.dedup_by(|e, f| by_ends(e, f).is_eq());
}
