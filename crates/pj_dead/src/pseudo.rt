//! The rows of a whole view, what they become in a later view, and where they lead from a source.

ghost use Rattle.std.specs.Prelude.{◌≡◌, ◌≢◌, ◌<◌, ◌^◌, [], IfOk, MatchOption, Some, None};
ghost use Rattle.std.specs.declared.cmp.Ordering.TheVariants.{Greater};
ghost use Rattle.pj_change.specs.declared.point.Point.{Point as APoint};
ghost use Rattle.pj_change.specs.Graph.{point_cmp};
ghost use Rattle.pj_dead.specs.Pseudo.{AreRowsOf, IsNoTarget, IsNextTarget, IsNoneAbove, IsFirstAbove, least_point};
ghost use Rattle.pj_dead.specs.Refreshed.{Refreshes};
ghost use Rattle.pj_dead.specs.Touched.{IsKept};

use crate::row::PseudoRow;
use crate::touched::touched_rows;
use crate::view::View;
use pj_change::{Memory, Point};
use pj_name::Name;
use pj_pmap::{PMap, Steps};
use pj_rows::{Here, with_keys, without_keys};
use std::alloc::Global;
use std::cmp::Ordering;
use std::marker::{Brand, Model};
use std::sync::ledger::{Blank, Ledger};

/// The rows without the ones and with the others, by a count of steps that is let go.
fn changed<L: Ledger>(
    alloc: Global,
    rows: PMap<PseudoRow, Here>,
    gone: &[PseudoRow],
    made: &[PseudoRow],
    blank: Blank,
) -> Result<PMap<PseudoRow, Here>, Memory>
    requires name { blank.name ≡ L.name }
    requires parts { blank.parts ≡ L.parts }
    requires some { 0 < blank.parts }
    ensures { IfOk result (Refreshes rows gone.now made.now) }
{
    let mut steps = Steps::<L>::new(blank);
    let left = without_keys(alloc, rows, gone, &mut steps)?;
    let new = with_keys(alloc, left, made, &mut steps)?;
    Ok(new)
}

/// The position of a point, which has 32 bits.
fn offset_of(point: Point) -> u32
    ensures same { result ≡ point.offset }
    ensures small { result < 2 ^ 32 }
{
    point.offset
}

/// The target of the row after a key, if that has the key's source.
fn target_after(rows: &PMap<PseudoRow, Here>, key: PseudoRow) -> Option<Point>
    ensures { MatchOption result (IsNoneAbove rows.now key) (λ target. IsFirstAbove rows.now key target) }
{
    let _rising = rows.len();
    let (found, _) = rows.next_after(&key)?;
    let row = *found;
    let _offset = offset_of(row.least);
    match row.source.cmp(&key.source) {
        Ordering::Equal => Some(row.target),
        Ordering::Less => None,
        Ordering::Greater => None,
    }
}

/// What no point is above.
fn greatest_point() -> Point
    ensures { (p : APoint) → p.offset < 2 ^ 32 → point_cmp p result ≢ Greater }
{
    Point {
        change: Name::of([255; 32]),
        offset: u32::MAX,
    }
}

/// What is not above any point.
fn least_point() -> Point
    ensures { result ≡ least_point }
{
    Point {
        change: Name::least(),
        offset: 0,
    }
}

/// The rows of a view: one for each way from live text, or from the inode of a file, across a dead set to live text.
pub struct Pseudo {
    rows: PMap<PseudoRow, Here>,
}

/// Written out and not derived: whoever lets go of one cites this proof, and proves nothing anew of its parts.
impl Drop for Pseudo {
    fn drop(self) {
        let Pseudo { rows: _rows } = self;
    }
}

impl Model for Pseudo {
    ghost use Rattle.std.specs.Prelude.{List};
    ghost use Rattle.pj_dead.specs.declared.row.PseudoRow.{PseudoRow};
    ghost use Rattle.pj_rows.specs.declared.values.Here.{Here};

    ghost Value = { List (PseudoRow × Here) };

    ghost view = { λ p. p.rows };
}

impl Pseudo {
    /// No row, as of a view without dead vertices. It takes no memory.
    pub fn empty() -> Pseudo
        ensures { result ≡ [] }
    {
        Pseudo {
            rows: PMap::empty(),
        }
    }

    /// The same rows for a second owner, in constant time.
    pub fn share(&self) -> Result<Pseudo, Memory>
        ensures { IfOk result (λ same. same ≡ self.now) }
    {
        let rows = self.rows.share()?;
        Ok(Pseudo { rows })
    }

    /// The rows by source, then by target, then by least point.
    pub fn rows(&self) -> &PMap<PseudoRow, Here>
        ensures { result.now ≡ self.now }
    {
        &self.rows
    }

    /// The least target above the point to which a row leads from the source.
    fn next_above(&self, source: Point, above: Point) -> Option<Point>
        ensures { MatchOption result (IsNoTarget self.now source (Some above)) (λ target. IsNextTarget self.now source (Some above) target) }
    {
        let least = greatest_point();
        target_after(
            &self.rows,
            PseudoRow {
                source,
                target: above,
                least,
            },
        )
    }

    /// The least target to which a row leads from the source.
    fn first(&self, source: Point) -> Option<Point>
        ensures { MatchOption result (IsNoTarget self.now source None) (λ target. IsNextTarget self.now source None target) }
    {
        let least = least_point();
        let row = PseudoRow {
            source,
            target: least,
            least,
        };
        match self.rows.get(&row) {
            Some(_) => Some(least),
            None => target_after(&self.rows, row),
        }
    }

    /// The least target above `after`, or the least of all for `None`, to which a row leads from the source.
    ///
    /// It takes no memory. A target to which several rows lead comes once.
    pub fn next(&self, source: Point, after: Option<Point>) -> Option<Point>
        ensures { MatchOption result (IsNoTarget self.now source after) (λ target. IsNextTarget self.now source after target) }
    {
        match after {
            Some(target) => self.next_above(source, target),
            None => self.first(source),
        }
    }

    /// The rows of a later view, from the rows of an earlier one: without those across the touched dead sets of the earlier view, and with
    /// those across the touched dead sets of the later one, as `touched_rows` gives them.
    ///
    /// Each dead vertex of either view that has none of the touched points has to be a dead vertex of the other view, with the
    /// same last point, the same dead neighbours, and edges from live vertices with the same last points and to the same live
    /// vertices.
    ///
    /// # Errors
    /// `Memory` where there was none.
    pub fn changed(
        self,
        alloc: Global,
        gone: &[PseudoRow],
        made: &[PseudoRow],
    ) -> Result<Pseudo, Memory>
        ensures { IfOk result (Refreshes self gone.now made.now) }
    {
        let blank = Blank::new(1);
        let Pseudo { rows } = self;
        let rows = changed::<Brand>(alloc, rows, gone, made, blank)?;
        Ok(Pseudo { rows })
    }

    /// The same, where both views are at hand.
    ///
    /// # Errors
    /// `Memory` where there was none.
    pub fn refresh<V: View, W: View>(
        self,
        alloc: Global,
        before: &V,
        after: &W,
        touched: &[Point],
    ) -> Result<Pseudo, Memory>
        requires rows { AreRowsOf (V.graph before.now) self }
        requires there { IsKept (V.graph before.now) (W.graph after.now) touched.now }
        requires back { IsKept (W.graph after.now) (V.graph before.now) touched.now }
        ensures { IfOk result (λ rows. AreRowsOf (W.graph after.now) rows) }
    {
        let gone = touched_rows(alloc, before, touched)?;
        let made = touched_rows(alloc, after, touched)?;
        let rows = self.changed(alloc, &gone, &made)?;
        Ok(rows)
    }
}
