//! Which versions of a byte or a name survive.

ghost use Rattle.std.specs.Prelude.{◌≡◌, ◌&&◌};
ghost use Rattle.pj_change.specs.Shared.{records};
ghost use Rattle.std.specs.List.{list_any};
ghost use Rattle.pj_name.specs.Name.{same_name};
ghost use Rattle.pj_change.specs.Covers.{by_of, revives as revived};
ghost use Rattle.pj_change.specs.Positions.{numbered};
ghost use Rattle.pj_change.specs.Versions as version;

use crate::covers::{covers, deletes, revives};
use pj_change::{Hunk, Point, Record};
use pj_context::means;
use pj_name::Name;
use std::sync::Arc;

/// Whether the hunk of `d` has the change of this name under `by`.
fn is_by(d: &Record, hunk: &Hunk, name: Name) -> bool
    ensures { result ≡ list_any (λ k. same_name (numbered d.now k) name) (by_of hunk.now) }
{
    match hunk {
        Hunk::Delete { by, .. } | Hunk::Revive { by, .. } => by
            .items()
            .iter()
            .any(|owner| means(d, *owner, name)),
        _ => false,
    }
}

/// Whether the hunk of `d` takes the place of the point's version by the change of this name.
fn overrules(d: &Record, name: Name, p: Point, hunk: &Hunk) -> bool
    ensures { result ≡ version.overrules d.now name p hunk.now }
{
    covers(d, hunk, p) && is_by(d, hunk, name)
}

/// Whether a hunk of `d` takes the place of the point's version by the change of this name.
fn has_overruling(d: &Record, name: Name, p: Point) -> bool
    ensures { result ≡ list_any (version.overrules d.now name p) d.now.change.hunks }
{
    d.change
        .hunks
        .items()
        .iter()
        .any(|hunk| overrules(d, name, p, hunk))
}

/// Whether the point's version by the change of this name survives.
pub fn survives(changes: &[Arc<Record>], name: Name, p: Point) -> bool
    ensures { result ≡ version.survives (records changes.now) name p }
{
    !changes.iter().any(|d| has_overruling(d, name, p))
}

/// Whether a deleted version of the point survives.
pub fn deletion_survives(changes: &[Arc<Record>], p: Point) -> bool
    ensures { result ≡ version.deletion_survives (records changes.now) p }
{
    changes
        .iter()
        .any(|d| deletes(d, p) && survives(changes, d.name, p))
}

/// Whether the version of a change which revives the point survives.
fn is_revived(changes: &[Arc<Record>], p: Point) -> bool
    ensures { result ≡ list_any (λ d. revived d p && version.survives (records changes.now) d.name p) (records changes.now) }
{
    changes
        .iter()
        .any(|d| revives(d, p) && survives(changes, d.name, p))
}

/// Whether a version of the point that is alive survives.
pub fn life_survives(changes: &[Arc<Record>], p: Point) -> bool
    ensures { result ≡ version.life_survives (records changes.now) p }
{
    survives(changes, p.change, p) || is_revived(changes, p)
}
