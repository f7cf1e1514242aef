//! The view of a lawful list over its tables.

ghost use Rattle.std.specs.Prelude.{◌≡◌, ◌↔◌, ℕ, MatchOption, IsTrue, Some, false, Contains, slice_get};
ghost use Rattle.pj_change.specs.declared.change.Record.{Record as RecordValue};
ghost use Rattle.pj_change.specs.declared.hunk.Hunk.{Hunk as HunkValue};
ghost use Rattle.pj_change.specs.Children.{IsInode};
ghost use Rattle.pj_change.specs.Context as context;
ghost use Rattle.pj_change.specs.Contested.{is_hunk_contested};
ghost use Rattle.pj_change.specs.Lawful.{IsLawful};
ghost use Rattle.pj_change.specs.Status as status;
ghost use Rattle.pj_change.specs.Vertices as vertices;
ghost use Rattle.pj_contest.specs.Contests.{IsContestsOf};
ghost use Rattle.pj_cuts.specs.CutsOf.{AreCutsOf};
ghost use Rattle.pj_edges.specs.OwnRows.{AreRowsOf};
ghost use Rattle.pj_view.specs.Ends.{IsLastOf, IsNoText, IsTextFrom};
ghost use Rattle.pj_view.specs.Parts.{AreParts};
ghost use Rattle.pj_view.specs.SetGraph.{graph_of, first_at};
ghost use Rattle.pj_view.specs.ShownGraph.{graph_whole};
ghost use Rattle.pj_view.specs.Touched as touch;

use crate::contested::ContestedIn;
use crate::ends::{next_source, next_target};
use pj_apply::Held;
use pj_change::{Kind, Memory, Place, Point, Status, kind_at};
use pj_contest::{Contests, HunkAt};
use pj_dead::View;
use pj_edges::EdgeRows;
use pj_outline::{Cuts, Outline};
use pj_states::Versions;
use std::alloc::Global;
use std::marker::Model;

/// Whether what stands at a position is the inode of a file.
fn is_file_inode(kind: Option<Kind>) -> bool
    ensures { result ≡ context.is_file_inode kind }
{
    match kind {
        Some(Kind::FileInode { .. }) => true,
        Some(Kind::DirInode { .. }) => false,
        Some(Kind::NameAt { .. } | Kind::Text { .. }) | None => false,
    }
}

/// Whether what has this status is dead.
fn is_dead(status: Status) -> bool
    ensures { result ≡ touch.is_dead status }
{
    match status {
        Status::Dead => true,
        Status::Alive | Status::Zombie => false,
    }
}

/// The text of a lawful list and the inodes of its files, over the tables of the list.
///
/// Contracts see the list of the records.
#[derive(Drop)]
pub struct SetView<'a> {
    list: &'a Held,
    outline: &'a Outline,
    versions: &'a Versions,
    contests: &'a Contests,
}

impl<'a> Model for SetView<'a> {
    ghost use Rattle.std.specs.Prelude.{List};
    ghost use Rattle.pj_change.specs.declared.change.Record.{Record};
    ghost use Rattle.pj_view.specs.Parts.{AreParts};

    ghost Value = { List Record };

    ghost view = { λ v. v.list.now };

    ghost invariant = { λ v. AreParts v.list.now v.outline.now v.versions.now v.contests.now };
}

impl<'a> SetView<'a> {
    /// The view of a list over its tables. It takes no memory.
    pub fn of(
        list: &'a Held,
        outline: &'a Outline,
        versions: &'a Versions,
        contests: &'a Contests,
    ) -> SetView<'a>
        requires { AreParts list.now outline.now versions.now contests.now }
        ensures { result ≡ list.now }
    {
        SetView {
            list,
            outline,
            versions,
            contests,
        }
    }

    /// The changes, in their order.
    pub(crate) fn list(&self) -> &Held
        ensures same { result.now ≡ self.now }
        ensures lawful { IsLawful self.now }
    {
        self.list
    }

    /// Where the text of the list is cut.
    fn cuts(&self) -> &Cuts
        ensures { AreCutsOf self.now result.now }
    {
        let outline = self.outline;
        &outline.cuts
    }

    /// The edges of the list, without their statuses.
    fn edges(&self) -> &EdgeRows
        ensures { AreRowsOf self.now result.now }
    {
        let outline = self.outline;
        &outline.edges
    }

    /// Which deletions of the list are contested.
    pub(crate) fn contests(&self) -> &Contests
        ensures { IsContestsOf self.now result.now }
    {
        self.contests
    }

    /// Where the text that has a point begins, or `None` where no text has it.
    fn start_of(&self, at: Point) -> Option<u32>
        ensures { MatchOption result (IsNoText self.now at) (λ start. (end : ℕ) × IsTextFrom self.now at start end) }
    {
        let _list = self.list();
        self.cuts().start_of(at)
    }

    /// Where the text that has a point ends, or `None` where no text has it.
    pub(crate) fn end_of(&self, at: Point) -> Option<u32>
        ensures { MatchOption result (IsNoText self.now at) (λ end. (start : ℕ) × IsTextFrom self.now at start end) }
    {
        let _list = self.list();
        self.cuts().end_of(at)
    }

    /// The last point of the text that has a point, or the point itself where no text has it.
    fn last_of(&self, at: Point) -> Point
        ensures { IsLastOf self.now at result }
    {
        match self.end_of(at) {
            Some(end) => Point {
                change: at.change,
                offset: end - 1,
            },
            None => at,
        }
    }

    /// Whether the inode of a file is at the point. It goes once over the hunks of the change.
    fn is_file(&self, at: Point) -> bool
        ensures { IsTrue result ↔ IsInode self.now at false }
    {
        match self.list().get(at.change) {
            Some(owner) => is_file_inode(kind_at(&owner.change, at.offset)),
            None => false,
        }
    }

    /// Whether a change of the list cuts before the point.
    pub(crate) fn is_cut(&self, at: Point) -> bool
        ensures { result ≡ vertices.is_cut self.now at }
    {
        let _list = self.list();
        self.cuts().count(at) > 0
    }

    /// Whether the hunk of a change of the list at this place is contested.
    pub(crate) fn is_contested(&self, at: HunkAt) -> bool
        ensures { (d : RecordValue) → Contains self.now d → d.name ≡ at.change → (h : HunkValue) → slice_get d.change.hunks at.hunk ≡ Some h → result ≡ is_hunk_contested self.now d h }
    {
        let _list = self.list();
        self.contests().contested(at.change, at.hunk)
    }

    /// The status of the point.
    fn status(&self, at: Point) -> Status
        ensures { result ≡ status.status_of self.now at }
    {
        let _list = self.list();
        let contests = self.contests;
        let _counts = contests.counts();
        let versions = self.versions;
        versions.status(at, &ContestedIn { contests })
    }

    /// Whether the point is dead.
    pub(crate) fn is_dead(&self, at: Point) -> bool
        ensures { result ≡ touch.is_dead_in self.now at }
    {
        is_dead(self.status(at))
    }

    /// The vertex that has a place, or `None` where none has it.
    fn vertex_at(&self, place: Place) -> Option<Point>
        ensures { result ≡ first_at (graph_of self.now) place }
    {
        match place {
            Place::At(point) => self.first(point),
            Place::Root => None,
        }
    }
}

impl View for SetView<'_> {
    ghost graph = { graph_of };

    fn outs(&self, alloc: Global, at: Point) -> Result<Vec<Point>, Memory> {
        let _list = self.list();
        let edges = self.edges();
        let mut walk = edges.walk_out();
        let source = Place::At(self.last_of(at));
        let mut outs = Vec::new(alloc);
        let mut next = next_target(&mut walk, source, None);
        while let Some(target) = next {
            outs.push(target)?;
            next = next_target(&mut walk, source, Some(target));
        }
        Ok(outs)
    }

    /// Rows that lead to the inode of a file come from names, which are no vertices: the first of them ends the walk.
    fn ins(&self, alloc: Global, at: Point) -> Result<Vec<Point>, Memory> {
        let _list = self.list();
        let edges = self.edges();
        let mut walk = edges.walk_into();
        let mut ins = Vec::new(alloc);
        let mut next = next_source(&mut walk, at, None);
        while let Some(source) = next {
            let Some(from) = self.vertex_at(source) else {
                return Ok(ins);
            };
            ins.push(from)?;
            next = next_source(&mut walk, at, Some(source));
        }
        Ok(ins)
    }

    fn last(&self, at: Point) -> Point {
        let _list = self.list();
        self.last_of(at)
    }

    fn dead(&self, at: Point) -> bool {
        let _list = self.list();
        if !self.is_dead(at) {
            return false;
        }
        self.start_of(at).is_some()
    }

    fn first(&self, at: Point) -> Option<Point> {
        let _list = self.list();
        match self.start_of(at) {
            Some(start) => Some(Point {
                change: at.change,
                offset: start,
            }),
            None => { if self.is_file(at) { Some(at) } else { None } }
        }
    }

    ghost lawful = { graph_whole };
}
