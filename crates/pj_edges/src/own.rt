//! Which rows the hunks of a change give, and the row to a point within a block.

ghost use Rattle.std.specs.Prelude.{◌≡◌, ◌+◌, ◌<◌, ◌^◌, IfOk, length, ◌++◌, flat_map, Contains};
ghost use Rattle.pj_change.specs.declared.point.Place.TheVariants as placed;
ghost use Rattle.pj_change.specs.declared.point.Ref.{Ref};
ghost use Rattle.pj_change.specs.declared.graph.Label.TheVariants as label;
ghost use Rattle.pj_change.specs.Rules.{position_count};
ghost use Rattle.pj_change.specs.Positions.{IsNumbered, own_point};
ghost use Rattle.pj_change.specs.Positions as position;
ghost use Rattle.pj_edges.specs.OwnRows.{row_to, name_rows, rows_in, rows_of, row_before};

use pj_change::{EdgeRow, Hunk, Label, Memory, Place, Point, Record, Ref, resolve};
use pj_name::Name;
use std::alloc::Global;

/// A position of the change itself.
fn own_place(record: &Record, offset: u32) -> Place
    ensures { result ≡ placed.At (own_point «record».now offset) }
{
    Place::At(Point {
        change: record.name,
        offset,
    })
}

/// Appends the row to a place, if that is a point.
fn push_row(
    rows: &mut Vec<EdgeRow>,
    introducer: Name,
    label: Label,
    source: Place,
    target: Place,
) -> Result<(), Memory>
    ensures { IfOk result (λ _. rows.new.items ≡ rows.old.items ++ row_to introducer label source target) }
{
    if let Place::At(target) = target {
        rows.push(EdgeRow {
            source,
            target,
            label,
            introducer,
        })?;
    }
    Ok(())
}

/// Appends the rows from the parent to the name at a position, and from the name to its child.
fn push_name(
    rows: &mut Vec<EdgeRow>,
    record: &Record,
    offset: u32,
    parent: Place,
    child: Place,
) -> Result<(), Memory>
    ensures { IfOk result (λ _. rows.new.items ≡ rows.old.items ++ name_rows «record».now offset parent child) }
{
    let name = own_place(record, offset);
    push_row(rows, record.name, Label::Folder, parent, name)?;
    push_row(rows, record.name, Label::Folder, name, child)
}

/// Appends the rows from the ups to the first position of a block.
fn push_ups(rows: &mut Vec<EdgeRow>, record: &Record, first: u32, ups: &[Ref]) -> Result<(), Memory>
    requires { (up : Ref) → Contains ups.now up → IsNumbered (length «record».now.change.needs) up }
    ensures { IfOk result (λ _. rows.new.items ≡ rows.old.items
        ++ flat_map (λ up. row_to «record».now.name label.Block (position.resolve «record».now up) (placed.At (own_point «record».now first))) ups.now) }
{
    for up in ups {
        push_row(
            rows,
            record.name,
            Label::Block,
            resolve(record, *up),
            own_place(record, first),
        )?;
    }
    Ok(())
}

/// Appends the rows from the last position of a block to the downs.
fn push_downs(
    rows: &mut Vec<EdgeRow>,
    record: &Record,
    last: u32,
    downs: &[Ref],
) -> Result<(), Memory>
    requires { (down : Ref) → Contains downs.now down → IsNumbered (length «record».now.change.needs) down }
    ensures { IfOk result (λ _. rows.new.items ≡ rows.old.items
        ++ flat_map (λ down. row_to «record».now.name label.Order (placed.At (own_point «record».now last)) (position.resolve «record».now down)) downs.now) }
{
    for down in downs {
        push_row(
            rows,
            record.name,
            Label::Order,
            own_place(record, last),
            resolve(record, *down),
        )?;
    }
    Ok(())
}

/// Appends the rows of the hunk whose first position is `first`.
fn push_hunk(
    rows: &mut Vec<EdgeRow>,
    record: &Record,
    first: u32,
    hunk: &Hunk,
) -> Result<(), Memory>
    requires member { Contains «record».now.change.hunks hunk.now }
    requires low { first + position_count hunk.now < 2 ^ 32 }
    ensures { IfOk result (λ _. rows.new.items ≡ rows.old.items ++ rows_in «record».now first hunk.now) }
{
    match hunk {
        Hunk::File { parent, .. } => {
            push_name(
                rows,
                record,
                first,
                resolve(record, *parent),
                own_place(record, first + 1),
            )
        }
        Hunk::Dir { parent, .. } => {
            push_name(
                rows,
                record,
                first,
                resolve(record, *parent),
                own_place(record, first + 1),
            )
        }
        Hunk::NameOf { parent, child, .. } => {
            push_name(
                rows,
                record,
                first,
                resolve(record, *parent),
                resolve(record, *child),
            )
        }
        Hunk::Insert {
            ups,
            downs,
            bytes,
            ..
        } => {
            let last = first + bytes.items().len() as u32 - 1;
            push_ups(rows, record, first, ups.items())?;
            push_downs(rows, record, last, downs.items())
        }
        Hunk::Order { source, target, .. } => push_row(
            rows,
            record.name,
            Label::Order,
            resolve(record, *source),
            resolve(record, *target),
        ),
        Hunk::Delete { .. } => Ok(()),
        Hunk::Revive { .. } => Ok(()),
    }
}

/// The rows that a change gives by itself, whatever else is there, in the order of its hunks.
///
/// The rows inside its blocks stand where the set cuts, and are not among them.
pub fn own_rows(alloc: Global, record: &Record) -> Result<Vec<EdgeRow>, Memory>
    ensures { IfOk result (λ rows. rows.items ≡ rows_of «record».now) }
{
    let mut rows = Vec::new(alloc);
    let mut first = 0;
    for hunk in record.change.hunks.items() {
        push_hunk(&mut rows, record, first, hunk)?;
        first += hunk.position_count() as u32;
    }
    Ok(rows)
}

/// The row that leads to the point within its block, from the one before.
pub fn inner_row(at: Point) -> EdgeRow
    requires { 0 < at.offset }
    ensures { result ≡ row_before at }
{
    EdgeRow {
        source: Place::At(Point {
            change: at.change,
            offset: at.offset - 1,
        }),
        target: at,
        label: Label::Block,
        introducer: at.change,
    }
}
