//! The lines before the hunks.

ghost use Rattle.std.specs.Prelude.{◌≡◌, ◌<◌, ◌^◌, length};
ghost use Rattle.pj_scan.specs.Scan.{rest as left};
ghost use Rattle.pj_text.specs.Gives.{Gives};
ghost use Rattle.pj_text.specs.Reading.{text_line_at, number_line_at, name_line_at, names_at, version_at};

use crate::fields::{comes, line, name, number, token};
use crate::refusal::ReadRefusal;
use pj_change::{Bytes, Names};
use pj_name::Name;
use pj_scan::Scan;
use std::alloc::Global;

/// A line of a label and free text.
#[tactic(auto, unfolding(crate::specs::Reading::text_line_at))]
pub fn text_line(alloc: Global, scan: &mut Scan<'_>, label: &[u8]) -> Result<Bytes, ReadRefusal>
    requires { length label.now < 2 ^ 32 }
    ensures { Gives result (left scan.new) (text_line_at label.now (left scan.old)) }
{
    token(scan, label)?;
    line(alloc, scan)
}

/// A line of a label and a number.
#[tactic(auto, unfolding(crate::specs::Reading::number_line_at))]
pub fn number_line(scan: &mut Scan<'_>, label: &[u8]) -> Result<u32, ReadRefusal>
    requires { length label.now < 2 ^ 32 }
    ensures { Gives result (left scan.new) (number_line_at label.now (left scan.old)) }
{
    token(scan, label)?;
    let number = number(scan)?;
    token(scan, b"\n")?;
    Ok(number)
}

/// A line of a label and the name of a change.
#[tactic(auto, unfolding(crate::specs::Reading::name_line_at))]
fn name_line(scan: &mut Scan<'_>, label: &[u8]) -> Result<Name, ReadRefusal>
    requires { length label.now < 2 ^ 32 }
    ensures { Gives result (left scan.new) (name_line_at label.now (left scan.old)) }
{
    token(scan, label)?;
    let name = name(scan)?;
    token(scan, b"\n")?;
    Ok(name)
}

/// The names in lines with this label, at most so many.
pub fn names(
    alloc: Global,
    scan: &mut Scan<'_>,
    label: &[u8],
    most: usize,
) -> Result<Names, ReadRefusal>
    requires { length label.now < 2 ^ 32 }
    ensures { Gives result (left scan.new) (names_at label.now most (left scan.old)) }
{
    let mut names = Vec::new(alloc);
    for _ in 0..most {
        if !comes(scan, label) {
            break;
        }
        names.push(name_line(scan, label)?)?;
    }
    names.shrink_to_fit();
    Ok(Names::of(names))
}

/// The version of the text.
#[tactic(auto, unfolding(crate::specs::Reading::version_at))]
pub fn version(scan: &mut Scan<'_>) -> Result<u8, ReadRefusal>
    ensures { Gives result (left scan.new) (version_at (left scan.old)) }
{
    let version = number_line(scan, b"pijul change ")?;
    u8::try_from(version).map_err(|_| ReadRefusal::Malformed)
}
