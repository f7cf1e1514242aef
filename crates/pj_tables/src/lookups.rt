//! What the tables say of a point of their list.

ghost use Rattle.std.specs.Prelude.{◌≡◌, List, find, MatchOption};
ghost use Rattle.pj_change.specs.declared.graph.Vertex.{Vertex as VertexValue};
ghost use Rattle.pj_change.specs.declared.version.Version.{Version as VersionValue};
ghost use Rattle.pj_change.specs.Status as status;
ghost use Rattle.pj_change.specs.SurvivingVersions.{AreSurvivors};
ghost use Rattle.pj_states.specs.Survivals.{comes_after};
ghost use Rattle.pj_tables.specs.TextAt.{IsTextAt};

use crate::tables::Tables;
use pj_change::{Point, Status, Version, Vertex, VertexKind};
use pj_view::ContestedIn;

impl Tables {
    /// The status of the point in the list. It takes no memory.
    pub fn status(&self, at: Point) -> Status
        ensures { result ≡ status.status_of self.now at }
    {
        let _list = self.list();
        let contests = self.contests();
        let _counts = contests.counts();
        self.versions().status(at, &ContestedIn { contests })
    }

    /// The first surviving version of the point after `after`, or of all, in the order of the surviving versions of the list.
    /// It takes no memory.
    pub fn surviving(&self, at: Point, after: Option<Version>) -> Option<Version>
        ensures { (versions : List VersionValue) → AreSurvivors self.now at versions → result ≡ find (comes_after after) versions }
    {
        self.versions().surviving(at, after)
    }

    /// The vertex of text of the list that has the point, or `None` where no text has it. It takes no memory.
    pub fn text_at(&self, at: Point) -> Option<Vertex>
        ensures { MatchOption result ((v : VertexValue) → IsTextAt self.now at v → ⊥) (IsTextAt self.now at) }
    {
        let _list = self.list();
        let (start, end) = self.cuts().vertex_of(at)?;
        let first = Point {
            change: at.change,
            offset: start,
        };
        let status = self.status(first);
        Some(Vertex {
            change: at.change,
            start,
            end,
            kind: VertexKind::Text,
            status,
        })
    }
}
