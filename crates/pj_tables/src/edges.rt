//! The real edges of the list, with their statuses.

ghost use Rattle.std.specs.Prelude.{◌≡◌, MatchOption};
ghost use Rattle.std.specs.Option.{option_map};
ghost use Rattle.pj_change.specs.declared.graph.Status.{Status as StatusValue};
ghost use Rattle.pj_change.specs.declared.graph.Label.TheVariants as label;
ghost use Rattle.pj_change.specs.EdgeRows as row;
ghost use Rattle.pj_change.specs.Graph.{edge_cmp};
ghost use Rattle.pj_change.specs.Positions as position;
ghost use Rattle.pj_change.specs.RealEdges.{IsEdge};
ghost use Rattle.pj_tables.specs.NextEdges.{into_cmp, ComesOut, LeadsInto, IsEdgeOut, IsEdgeInto, IsNext, NoneAfter};

use crate::tables::Tables;
use pj_change::{Edge, EdgeRow, Kind, Label, Place, Point, Record, Status, kind_at};

/// An edge without its status.
fn row_of(edge: Edge) -> EdgeRow
    ensures { result ≡ row.row_of edge }
{
    EdgeRow {
        source: edge.source,
        target: edge.target,
        label: edge.label,
        introducer: edge.introducer,
    }
}

/// The row of the edge, if there is one.
fn row_after(after: Option<Edge>) -> Option<EdgeRow>
    ensures { result ≡ option_map row.row_of after }
{
    match after {
        Some(edge) => Some(row_of(edge)),
        None => None,
    }
}

/// Whether the change has a name at the position.
fn has_name(owner: &Record, offset: u32) -> bool
    ensures { result ≡ row.is_name_kind (position.kind_at owner.now.change.hunks offset) }
{
    matches!(kind_at(&owner.change, offset), Some(Kind::NameAt { .. }))
}

impl Tables {
    /// Whether a change of the list has a name at the point.
    fn is_name(&self, at: Point) -> bool
        ensures { result ≡ row.is_name_point self.now at }
    {
        match self.list().get(at.change) {
            Some(owner) => has_name(owner, at.offset),
            None => false,
        }
    }

    /// The status of the point at a place. The root is alive.
    fn status_at(&self, at: Place) -> Status
        ensures { result ≡ row.status_at self.now at }
    {
        match at {
            Place::Root => Status::Alive,
            Place::At(point) => self.status(point),
        }
    }

    /// The status of the edge into or out of a name.
    fn folder_status(&self, source: Place, target: Point) -> Status
        ensures { result ≡ row.edge_status self.now source target label.Folder }
    {
        if self.is_name(target) {
            self.status(target)
        } else {
            self.status_at(source)
        }
    }

    /// The status of the edge with this row.
    fn row_status(&self, edge: EdgeRow) -> Status
        ensures { result ≡ row.row_status self.now edge }
    {
        match edge.label {
            Label::Block => self.status(edge.target),
            Label::Folder => self.folder_status(edge.source, edge.target),
            Label::Order => Status::Alive,
        }
    }

    /// The row with the status of its edge.
    fn with_status(&self, edge: EdgeRow) -> Edge
        ensures { result ≡ row.with_status edge (row.row_status self.now edge) }
    {
        Edge {
            source: edge.source,
            target: edge.target,
            label: edge.label,
            status: self.row_status(edge),
            introducer: edge.introducer,
        }
    }

    /// The edge of the list with this row, or `None` where the list has none. It takes no memory.
    ///
    /// For an edge of a folder it goes once over the hunks of the change that has the target.
    pub fn edge(&self, edge: EdgeRow) -> Option<Edge>
        ensures { MatchOption result ((status : StatusValue) → IsEdge self.now (row.with_status edge status) → ⊥)
            (λ e. IsEdge self.now e × (row.row_of e ≡ edge)) }
    {
        let _list = self.list();
        if !self.edges().has(edge) {
            return None;
        }
        Some(self.with_status(edge))
    }

    /// The first edge of the list out of the place after this one, or the first of all for `None`, by target, label and introducer.
    ///
    /// It takes no memory, and the edge after which it looks need not be there, nor does its status matter.
    pub fn next_out(&self, source: Place, after: Option<Edge>) -> Option<Edge>
        requires { ComesOut source after }
        ensures { MatchOption result (NoneAfter edge_cmp (IsEdgeOut self.now source) after) (IsNext edge_cmp (IsEdgeOut self.now source) after) }
    {
        let _list = self.list();
        let row = self.edges().next_out(source, row_after(after))?;
        Some(self.with_status(row))
    }

    /// The first edge of the list into the point after this one, or the first of all for `None`, by source, label and introducer.
    ///
    /// It takes no memory, and the edge after which it looks need not be there, nor does its status matter.
    pub fn next_into(&self, target: Point, after: Option<Edge>) -> Option<Edge>
        requires { LeadsInto target after }
        ensures { MatchOption result (NoneAfter into_cmp (IsEdgeInto self.now target) after) (IsNext into_cmp (IsEdgeInto self.now target) after) }
    {
        let _list = self.list();
        let row = self.edges().next_into(target, row_after(after))?;
        Some(self.with_status(row))
    }
}
