//! The keys of the two maps of edges, and their orders.

ghost use Rattle.std.specs.Prelude.{◌≡◌};
ghost use Rattle.std.specs.Ordering.{as_partial_cmp, eq_by_cmp, nat_cmp, ordering_then};
ghost use Rattle.std.proofs.Common.{refl};
ghost use Rattle.pj_name.specs.Name.{name_cmp};
ghost use Rattle.pj_change.specs.Graph.{place_cmp, label_rank};
ghost use Rattle.pj_edges.specs.Orders.{out_cmp, into_cmp};
ghost use Rattle.pj_edges.specs.Totals.{out_total, out_equivalence, out_partial_equivalence, out_partial_order, into_total, into_equivalence, into_partial_equivalence, into_partial_order};

use pj_change::{EdgeRow, Label, Place};
use pj_pmap::{Memory, Share};
use std::cmp::Ordering;

/// The root before each point.
pub fn by_place(one: Place, other: Place) -> Ordering
    ensures { result ≡ place_cmp one other }
{
    one.cmp(&other)
}

/// Block, folder, order.
fn by_label(one: Label, other: Label) -> Ordering
    ensures { result ≡ nat_cmp (label_rank one) (label_rank other) }
{
    one.cmp(&other)
}

/// By label, then by introducer.
fn by_rest(one: &EdgeRow, other: &EdgeRow) -> Ordering
    ensures { result ≡ ordering_then (nat_cmp (label_rank one.now.label) (label_rank other.now.label)) (name_cmp one.now.introducer other.now.introducer) }
{
    by_label(one.label, other.label).then(one.introducer.cmp(&other.introducer))
}

/// A row among those of its source: by source, target, label and introducer.
#[derive(Clone, Copy)]
pub struct OutRow {
    pub row: EdgeRow,
}

impl Ord for OutRow {
    ghost cmp = { out_cmp };

    ghost total = { out_total };

    ghost matches_partial_cmp = { λ x y. refl };

    ghost matches_eq = { λ x y. refl };

    fn cmp(&self, other: &OutRow) -> Ordering {
        let (row, other) = (&self.row, &other.row);
        match by_place(row.source, other.source) {
            Ordering::Less => Ordering::Less,
            Ordering::Equal => match row.target.cmp(&other.target) {
                Ordering::Less => Ordering::Less,
                Ordering::Equal => by_rest(row, other),
                Ordering::Greater => Ordering::Greater,
            },
            Ordering::Greater => Ordering::Greater,
        }
    }
}

impl PartialOrd for OutRow {
    ghost partial_cmp = { as_partial_cmp out_cmp };

    ghost laws = { out_partial_order };

    fn partial_cmp(&self, other: &OutRow) -> Option<Ordering> {
        Some(self.cmp(other))
    }
}

impl PartialEq for OutRow {
    ghost eq = { eq_by_cmp out_cmp };

    ghost laws = { out_partial_equivalence };

    fn eq(&self, other: &OutRow) -> bool {
        self.cmp(other) == Ordering::Equal
    }
}

impl Eq for OutRow {
    ghost laws = { out_equivalence };
}

impl Share for OutRow {
    ghost shown = { λ k. k };

    fn share(&self) -> Result<OutRow, Memory> {
        Ok(*self)
    }
}

/// A row among those of its target: by target, source, label and introducer.
#[derive(Clone, Copy)]
pub struct IntoRow {
    pub row: EdgeRow,
}

impl Ord for IntoRow {
    ghost cmp = { into_cmp };

    ghost total = { into_total };

    ghost matches_partial_cmp = { λ x y. refl };

    ghost matches_eq = { λ x y. refl };

    fn cmp(&self, other: &IntoRow) -> Ordering {
        let (row, other) = (&self.row, &other.row);
        match row.target.cmp(&other.target) {
            Ordering::Less => Ordering::Less,
            Ordering::Equal => match by_place(row.source, other.source) {
                Ordering::Less => Ordering::Less,
                Ordering::Equal => by_rest(row, other),
                Ordering::Greater => Ordering::Greater,
            },
            Ordering::Greater => Ordering::Greater,
        }
    }
}

impl PartialOrd for IntoRow {
    ghost partial_cmp = { as_partial_cmp into_cmp };

    ghost laws = { into_partial_order };

    fn partial_cmp(&self, other: &IntoRow) -> Option<Ordering> {
        Some(self.cmp(other))
    }
}

impl PartialEq for IntoRow {
    ghost eq = { eq_by_cmp into_cmp };

    ghost laws = { into_partial_equivalence };

    fn eq(&self, other: &IntoRow) -> bool {
        self.cmp(other) == Ordering::Equal
    }
}

impl Eq for IntoRow {
    ghost laws = { into_equivalence };
}

impl Share for IntoRow {
    ghost shown = { λ k. k };

    fn share(&self) -> Result<IntoRow, Memory> {
        Ok(*self)
    }
}
