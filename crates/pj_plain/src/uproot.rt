//! The changes that reach one of them by needs, in one pass through a lawful list: needs stand first there.

ghost use Rattle.std.specs.Prelude.{◌≡◌, IfOk};
ghost use Rattle.pj_change.specs.Lawful.{IsLawful};
ghost use Rattle.pj_change.specs.Uproot.{IsUprooted};
ghost use Rattle.pj_change.specs.Shared.{records};
ghost use Rattle.pj_plain.specs.UprootPass.{goes, needs_any};

use crate::records::push_share;
use pj_change::Record;
use pj_name::Name;
use std::alloc::{AllocError, Global};
use std::sync::Arc;

/// Whether the change needs one of these.
fn needs_any(record: &Record, names: &[Name]) -> bool
    ensures { result ≡ needs_any «record».now names.now }
{
    record
        .change
        .needs
        .items()
        .iter()
        .any(|need| names.contains(need))
}

/// Whether the change has the name or needs one that is gone.
fn goes(record: &Record, name: Name, gone: &[Name]) -> bool
    ensures { result ≡ goes «record».now name gone.now }
{
    record.name == name || needs_any(record, gone)
}

/// The records but the one of this name and all that reach it.
pub fn uprooted(
    alloc: Global,
    list: &[Arc<Record>],
    name: Name,
) -> Result<Vec<Arc<Record>>, AllocError>
    requires { IsLawful (records list.now) }
    ensures { IfOk result (λ left. IsUprooted (records list.now) name (records left.items)) }
{
    let mut left = Vec::new(alloc);
    let mut gone = Vec::new(alloc);
    for record in list {
        if goes(record, name, &gone) {
            gone.push(record.name)?;
        } else {
            push_share(&mut left, record)?;
        }
    }
    Ok(left)
}
