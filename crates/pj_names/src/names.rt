//! The tree of a list with one change more or less.

ghost use Rattle.std.specs.Prelude.{◌≡◌, ◌+◌, ◌*◌, ◌<◌, ◌≤◌, ◌^◌, length, Contains, IfOk, MatchOption, Some, List, [], ◌∷◌, ◌++◌, false};
ghost use Rattle.pj_change.specs.declared.change.Record.{Record as RecordValue};
ghost use Rattle.pj_change.specs.Gathers.{Gathers};
ghost use Rattle.pj_change.specs.Lawful.{is_held, IsLawful, Follows};
ghost use Rattle.pj_change.specs.Rules.{position_count};
ghost use Rattle.pj_change.specs.Sets.{HaveSameMembers};
ghost use Rattle.pj_names.specs.Changes.{MayGain, MayLose, HaveOneEach};
ghost use Rattle.pj_names.specs.Given.{HasInodesBelow, IsAtInodeBelow, Leaves};
ghost use Rattle.pj_tree.specs.Rows.{HasAlso, HasInode, LacksRow, LacksInode};
ghost use Rattle.pj_tree.specs.TreeOf.{IsRowOf, IsTreeOf};

use crate::rows::{inode_in, row_of_hunk};
use pj_change::{Peers, Record};
use pj_pmap::{Memory, Steps};
use pj_tree::{Inode, NameRow, Tree};
use std::alloc::Global;
use std::sync::ledger::Ledger;

/// The tree with the row, if there is one. At most one step.
fn with_row<L: Ledger>(
    alloc: Global,
    tree: &Tree,
    row: Option<NameRow>,
    steps: &mut Steps<L>,
) -> Result<Tree, Memory>
    ensures rows { IfOk result (λ t. MatchOption row (t.rows ≡ tree.now.rows) (λ one. HasAlso tree.now.rows one t.rows)) }
    ensures inodes { IfOk result (λ t. t.inodes ≡ tree.now.inodes) }
    ensures cost { steps.new ≤ steps.old + 1 }
{
    match row {
        Some(row) => tree.with(alloc, row, steps),
        None => tree.share(),
    }
}

/// The tree with the inode, if there is one, in place of one at the same point. At most one step.
fn with_inode<L: Ledger>(
    alloc: Global,
    tree: &Tree,
    inode: Option<Inode>,
    steps: &mut Steps<L>,
) -> Result<Tree, Memory>
    ensures rows { IfOk result (λ t. t.rows ≡ tree.now.rows) }
    ensures inodes { IfOk result (λ t. MatchOption inode (t.inodes ≡ tree.now.inodes) (λ one. HasInode tree.now.inodes one t.inodes)) }
    ensures cost { steps.new ≤ steps.old + 1 }
{
    match inode {
        Some(inode) => tree.with_inode(alloc, inode.at, inode.dir, steps),
        None => tree.share(),
    }
}

/// The tree without the row, if there is one. At most one step.
fn without_row<L: Ledger>(
    alloc: Global,
    tree: &Tree,
    row: Option<NameRow>,
    steps: &mut Steps<L>,
) -> Result<Tree, Memory>
    ensures rows { IfOk result (λ t. MatchOption row (t.rows ≡ tree.now.rows) (λ one. LacksRow tree.now.rows one t.rows)) }
    ensures inodes { IfOk result (λ t. t.inodes ≡ tree.now.inodes) }
    ensures cost { steps.new ≤ steps.old + 1 }
{
    match row {
        Some(row) => tree.without(alloc, &row, steps),
        None => tree.share(),
    }
}

/// The tree without an inode at the point of this one, if there is one. At most one step.
fn without_inode<L: Ledger>(
    alloc: Global,
    tree: &Tree,
    inode: Option<Inode>,
    steps: &mut Steps<L>,
) -> Result<Tree, Memory>
    ensures rows { IfOk result (λ t. t.rows ≡ tree.now.rows) }
    ensures inodes { IfOk result (λ t. MatchOption inode (t.inodes ≡ tree.now.inodes) (λ one. LacksInode tree.now.inodes one.at t.inodes)) }
    ensures cost { steps.new ≤ steps.old + 1 }
{
    match inode {
        Some(inode) => tree.without_inode(alloc, inode.at, steps),
        None => tree.share(),
    }
}

/// The tree with the rows and the inodes of the change.
fn with_names<P: Peers, L: Ledger>(
    alloc: Global,
    tree: &Tree,
    record: &Record,
    others: &P,
    steps: &mut Steps<L>,
) -> Result<Tree, Memory>
    requires fresh { is_held (P.records others.now) «record».now.name ≡ false }
    requires one { HaveOneEach (P.records others.now) }
    ensures rows { IfOk result (λ t. Gathers (IsRowOf (P.records others.now ++ «record».now ∷ []) «record».now) tree.now.rows t.rows) }
    ensures inodes { IfOk result (λ t. HasInodesBelow «record».now (length «record».now.change.hunks) tree.now.inodes t.inodes) }
    ensures cost { steps.new ≤ steps.old + 2 * length «record».now.change.hunks }
{
    let mut now = tree.share()?;
    let mut first = 0;
    for hunk in record.change.hunks.items() {
        let row = row_of_hunk(alloc, record, others, first, hunk)?;
        let named = with_row(alloc, &now, row, steps)?;
        now = with_inode(alloc, &named, inode_in(record, first, hunk), steps)?;
        first += hunk.position_count() as u32;
    }
    Ok(now)
}

/// The tree without the rows and the inodes of the change.
fn without_names<P: Peers, L: Ledger>(
    alloc: Global,
    tree: &Tree,
    record: &Record,
    others: &P,
    steps: &mut Steps<L>,
) -> Result<Tree, Memory>
    requires fresh { is_held (P.records others.now) «record».now.name ≡ false }
    requires one { HaveOneEach (P.records others.now) }
    ensures rows { IfOk result (λ t. Leaves (IsRowOf (P.records others.now ++ «record».now ∷ []) «record».now) tree.now.rows t.rows) }
    ensures inodes { IfOk result (λ t. Leaves (IsAtInodeBelow «record».now (length «record».now.change.hunks)) tree.now.inodes t.inodes) }
    ensures cost { steps.new ≤ steps.old + 2 * length «record».now.change.hunks }
{
    let mut now = tree.share()?;
    let mut first = 0;
    for hunk in record.change.hunks.items() {
        let row = row_of_hunk(alloc, record, others, first, hunk)?;
        let unnamed = without_row(alloc, &now, row, steps)?;
        now = without_inode(alloc, &unnamed, inode_in(record, first, hunk), steps)?;
        first += hunk.position_count() as u32;
    }
    Ok(now)
}

/// The tree of a lawful list with a change that may follow it. The others are the changes of the list.
///
/// At most two steps for each hunk of the change.
pub fn with_change<P: Peers, L: Ledger>(
    alloc: Global,
    tree: &Tree,
    record: &Record,
    others: &P,
    steps: &mut Steps<L>,
) -> Result<Tree, Memory>
    requires { MayGain (P.records others.now) tree.now «record».now }
    ensures set { IfOk result (λ t. (list : List RecordValue) → IsLawful list → Follows list «record».now → HaveSameMembers (P.records others.now) list → IsTreeOf list tree.now →
        IsTreeOf (list ++ «record».now ∷ []) t) }
    ensures cost { steps.new ≤ steps.old + 2 * length «record».now.change.hunks }
{
    let more = with_names(alloc, tree, record, others, steps)?;
    Ok(more)
}

/// The tree of a lawful list without a change that no other one of it needs. The others are the changes without it.
///
/// At most two steps for each hunk of the change.
pub fn without_change<P: Peers, L: Ledger>(
    alloc: Global,
    tree: &Tree,
    record: &Record,
    others: &P,
    steps: &mut Steps<L>,
) -> Result<Tree, Memory>
    requires { MayLose (P.records others.now) tree.now «record».now }
    ensures set { IfOk result (λ t. (before after : List RecordValue) → IsLawful (before ++ «record».now ∷ after) → IsLawful (before ++ after) →
        HaveSameMembers (P.records others.now) (before ++ after) → IsTreeOf (before ++ «record».now ∷ after) tree.now → IsTreeOf (before ++ after) t) }
    ensures cost { steps.new ≤ steps.old + 2 * length «record».now.change.hunks }
{
    let fewer = without_names(alloc, tree, record, others, steps)?;
    Ok(fewer)
}
