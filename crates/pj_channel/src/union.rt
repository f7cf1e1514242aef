//! The tables of a list with what it lacks of another one.

ghost use Rattle.std.specs.Prelude.{◌≡◌, [], ◌∷◌, ◌++◌, ◌+◌, ◌≤◌, IfOk};
ghost use Rattle.std.specs.Arc.{arc_value};
ghost use Rattle.pj_apply.specs.StepBounds.{change_bound, pull_bound};
ghost use Rattle.pj_change.specs.Lawful.{Follows};
ghost use Rattle.pj_change.specs.Sets.{HaveOneText};
ghost use Rattle.pj_change.specs.Union as joined;

use crate::lookups::is_held;
use pj_change::{Memory, Record};
use pj_pmap::Steps;
use pj_tables::{Tables, applied};
use std::alloc::Global;
use std::sync::Arc;
use std::sync::ledger::Ledger;

/// The tables with the changes of the other list whose names they lack, applied in the other's order.
pub fn union<L: Ledger>(
    alloc: Global,
    tables: &Tables,
    other: &Tables,
    steps: &mut Steps<L>,
) -> Result<Tables, Memory>
    requires { HaveOneText (tables.now ++ other.now) }
    ensures same { IfOk result (λ t. t ≡ joined.union tables.now other.now) }
    ensures cost { steps.new ≤ steps.old + pull_bound tables.now other.now }
{
    let list = tables.list();
    let changes = other.list();
    let mut both = tables.share()?;
    let mut after = None;
    while let Some(change) = changes.next(after) {
        after = Some(change.name);
        if !is_held(list, change.name) {
            both = applied(alloc, both, change, steps)?;
        }
    }
    Ok(both)
}
