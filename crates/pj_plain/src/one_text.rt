//! A test of the premise under which records are brought together: one text per name.

ghost use Rattle.std.specs.Prelude.{◌≡◌, ◌↔◌, IsTrue};
ghost use Rattle.std.specs.List.{list_all};
ghost use Rattle.pj_change.specs.Sets.{HaveOneText};
ghost use Rattle.pj_change.specs.OneText as texts;
ghost use Rattle.pj_change.specs.Runs as runs;
ghost use Rattle.pj_change.specs.Shared.{records};

use crate::channel::PlainChannel;
use pj_change::{Operation, Record};
use std::slice;
use std::sync::Arc;

/// Whether two records have different names or one text.
fn agree(record: &Record, other: &Record) -> bool
    ensures { result ≡ texts.agree «record».now other.now }
{
    record.name != other.name || record.text.items() == other.text.items()
}

/// Whether the record agrees with each of the list.
fn agrees_with_each(record: &Record, list: &[Arc<Record>]) -> bool
    ensures { result ≡ list_all (texts.agree «record».now) (records list.now) }
{
    list.iter().all(|other| agree(record, other))
}

/// Whether each record of the one list agrees with each of the other.
pub fn all_agree(list: &[Arc<Record>], other: &[Arc<Record>]) -> bool
    ensures { result ≡ texts.all_agree (records list.now) (records other.now) }
{
    list.iter().all(|record| agrees_with_each(record, other))
}

/// The changes that an operation brings.
fn brought_by(operation: &Operation<PlainChannel>) -> &[Arc<Record>]
    ensures { records result.now ≡ runs.brought_by operation.now }
{
    match operation {
        Operation::Apply(record) => slice::from_ref(record),
        Operation::Pull(other) => other.changes(),
        Operation::Unrecord(_) | Operation::Uproot(_) => &[],
    }
}

/// Whether what the one operation brings agrees with what each of them brings.
fn brings_agree(operation: &Operation<PlainChannel>, operations: &[Operation<PlainChannel>]) -> bool
    ensures { result ≡ list_all (λ o. texts.all_agree (runs.brought_by operation.now) (runs.brought_by o)) operations.now }
{
    operations.iter().all(|other| all_agree(brought_by(operation), brought_by(other)))
}

/// Whether the changes that these operations bring have one text per name, as `replay` needs.
pub fn have_one_text(operations: &[Operation<PlainChannel>]) -> bool
    ensures { IsTrue result ↔ HaveOneText (runs.brought operations.now) }
{
    operations
        .iter()
        .all(|operation| brings_agree(operation, operations))
}
