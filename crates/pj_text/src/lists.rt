//! Items with commas between.

ghost use Rattle.std.specs.Prelude.{◌≡◌, List};
ghost use Rattle.pj_scan.specs.Scan.{rest as left};
ghost use Rattle.pj_text.specs.Gives.{Gives};
ghost use Rattle.pj_text.specs.Reading.{number_at, reference_at, next_at, joined_at, references_at};

use crate::fields::{comes, number, reference, token};
use crate::refusal::ReadRefusal;
use pj_change::{MOST_LIST_MEMBERS, Owners, Ref, Refs};
use pj_scan::Scan;
use std::alloc::Global;

/// A reference after a comma.
#[tactic(auto, unfolding(crate::specs::Reading::next_at))]
fn next_reference(scan: &mut Scan<'_>) -> Result<Ref, ReadRefusal>
    ensures { Gives result (left scan.new) (next_at reference_at (left scan.old)) }
{
    token(scan, b",")?;
    reference(scan)
}

/// One or more references, as many as a list may have.
#[tactic(auto, unfolding(crate::specs::Reading::joined_at))]
fn some_references(alloc: Global, scan: &mut Scan<'_>) -> Result<Refs, ReadRefusal>
    ensures { Gives result (left scan.new) (joined_at reference_at (left scan.old)) }
{
    let mut refs = Vec::new(alloc);
    refs.push(reference(scan)?)?;
    for _ in 1..MOST_LIST_MEMBERS {
        if !comes(scan, b",") {
            break;
        }
        refs.push(next_reference(scan)?)?;
    }
    refs.shrink_to_fit();
    Ok(Refs::of(refs))
}

/// References, or `-` for none.
#[tactic(auto, unfolding(crate::specs::Reading::references_at))]
pub fn references(alloc: Global, scan: &mut Scan<'_>) -> Result<Refs, ReadRefusal>
    ensures { Gives result (left scan.new) (references_at (left scan.old)) }
{
    if comes(scan, b"-") {
        token(scan, b"-")?;
        return Ok(Refs::of(Vec::new(alloc)));
    }
    some_references(alloc, scan)
}

/// A number after a comma.
#[tactic(auto, unfolding(crate::specs::Reading::next_at))]
fn next_number(scan: &mut Scan<'_>) -> Result<u32, ReadRefusal>
    ensures { Gives result (left scan.new) (next_at number_at (left scan.old)) }
{
    token(scan, b",")?;
    number(scan)
}

/// One or more numbers, as many as a list may have.
#[tactic(auto, unfolding(crate::specs::Reading::joined_at))]
pub fn numbers(alloc: Global, scan: &mut Scan<'_>) -> Result<Owners, ReadRefusal>
    ensures { Gives result (left scan.new) (joined_at number_at (left scan.old)) }
{
    let mut numbers = Vec::new(alloc);
    numbers.push(number(scan)?)?;
    for _ in 1..MOST_LIST_MEMBERS {
        if !comes(scan, b",") {
            break;
        }
        numbers.push(next_number(scan)?)?;
    }
    Ok(Owners::of(numbers))
}
