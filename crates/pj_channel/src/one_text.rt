//! Tests of the premise under which changes are brought together: one text per name.

ghost use Rattle.std.specs.Prelude.{◌≡◌, ◌↔◌, ◌∷◌, ◌++◌, [], IsTrue};
ghost use Rattle.std.specs.List.{list_all};
ghost use Rattle.pj_change.specs.Sets.{HaveOneText};
ghost use Rattle.pj_change.specs.OneText as texts;
ghost use Rattle.pj_change.specs.Runs.{brought, brought_by};

use crate::channel::Channel;
use pj_change::{Operation, Record};
use pj_tables::Tables;

/// Whether the change of this one's name, if the list has one, has its text.
fn agrees(tables: &Tables, change: &Record) -> bool
    ensures { result ≡ texts.all_agree tables.now (change.now ∷ []) }
{
    match tables.list().get(change.name) {
        Some(own) => own.text.items() == change.text.items(),
        None => true,
    }
}

/// Whether each change of the one list agrees with each of the other. Each of the other is looked up by its name.
pub fn all_agree(tables: &Tables, other: &Tables) -> bool
    ensures pairs { result ≡ texts.all_agree tables.now other.now }
    ensures one { IsTrue result ↔ HaveOneText (tables.now ++ other.now) }
{
    let _list = tables.list();
    let changes = other.list();
    let mut after = None;
    while let Some(change) = changes.next(after) {
        if !agrees(tables, change) {
            return false;
        }
        after = Some(change.name);
    }
    true
}

/// Whether two changes have different names or one text.
fn agree(change: &Record, other: &Record) -> bool
    ensures { result ≡ texts.agree change.now other.now }
{
    change.name != other.name || change.text.items() == other.text.items()
}

/// Whether what the one operation brings agrees with what the other brings.
fn bring_agreeing(operation: &Operation<Channel>, other: &Operation<Channel>) -> bool
    ensures { result ≡ texts.all_agree (brought_by operation.now) (brought_by other.now) }
{
    match (operation, other) {
        (Operation::Apply(change), Operation::Apply(other)) => agree(change, other),
        (Operation::Apply(change), Operation::Pull(other)) => agrees(other.tables(), change),
        (Operation::Pull(channel), Operation::Apply(change)) => agrees(channel.tables(), change),
        (Operation::Pull(channel), Operation::Pull(other)) => {
            all_agree(channel.tables(), other.tables())
        }
        _ => true,
    }
}

/// Whether what the one operation brings agrees with what each of them brings.
fn agrees_with_each(operation: &Operation<Channel>, operations: &[Operation<Channel>]) -> bool
    ensures { result ≡ list_all (λ o. texts.all_agree (brought_by operation.now) (brought_by o)) operations.now }
{
    operations
        .iter()
        .all(|other| bring_agreeing(operation, other))
}

/// Whether the changes that these operations bring have one text per name, as `replay` needs.
pub fn have_one_text(operations: &[Operation<Channel>]) -> bool
    ensures { IsTrue result ↔ HaveOneText (brought operations.now) }
{
    operations
        .iter()
        .all(|operation| agrees_with_each(operation, operations))
}
