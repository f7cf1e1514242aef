//! The check of a change's contexts, which names the first hunk that lacks its own.

ghost use Rattle.std.specs.Prelude.{◌≡◌, ◌||◌, length, Some, None, MatchResult, All};
ghost use Rattle.std.specs.List.{list_all};
ghost use Rattle.pj_change.specs.Context as context;
ghost use Rattle.pj_change.specs.Context.{first_broken};
ghost use Rattle.pj_change.specs.Positions.{resolve, same_place};
ghost use Rattle.pj_change.specs.Shared.{records};
ghost use Rattle.pj_context.specs.Needs.{AreNeeds};
ghost use Rattle.pj_context.specs.References.{IsReachable, RefersWithin};

use crate::range::is_answered_for;
use crate::scope::Scope;
use pj_change::{Hunk, Record, Ref};
use std::sync::Arc;

/// A hunk whose context does not hold.
#[derive(Clone, Copy, Debug, PartialEq, Eq)]
pub struct Missing {
    /// The number of the hunk, counted from 0.
    pub hunk: u32,
}

/// Whether the context of each hunk of a change holds, or the first hunk whose context does not.
///
/// `needs` are the records of the change's needs, in their order. It takes no memory.
pub fn check(record: &Record, needs: &[Arc<Record>]) -> Result<(), Missing>
    requires { AreNeeds «record».now (records needs.now) }
    ensures { MatchResult result
        (λ _. first_broken «record».now (records needs.now) ≡ None)
        (λ missing. first_broken «record».now (records needs.now) ≡ Some missing.hunk) }
{
    let scope = Scope::of(record, needs);
    for (number, hunk) in record.change.hunks.items().iter().enumerate() {
        if !holds(&scope, hunk) {
            return Err(Missing {
                hunk: number as u32,
            });
        }
    }
    Ok(())
}

/// Whether the context of a hunk of the change holds.
fn holds(scope: &Scope<'_>, hunk: &Hunk) -> bool
    requires { RefersWithin (length scope.now.itself.change.needs) hunk.now }
    ensures { result ≡ context.holds scope.now.itself scope.now.needs hunk.now }
{
    match hunk {
        Hunk::File { parent, .. } | Hunk::Dir { parent, .. } => scope.is_parent(*parent),
        Hunk::NameOf {
            parent,
            child,
            exec: true,
            ..
        } => scope.is_parent(*parent) && scope.is_file(*child),
        Hunk::NameOf {
            parent,
            child,
            exec: false,
            ..
        } => scope.is_parent(*parent) && scope.is_inode(*child),
        Hunk::Insert {
            file,
            ups,
            downs,
            ..
        } => {
            scope.is_file(*file)
                && are_ups(scope, *file, ups.items())
                && are_bytes(scope, *file, downs.items())
        }
        Hunk::Order {
            file,
            source,
            target,
        } => {
            scope.is_file(*file)
                && scope.is_byte(*file, *source)
                && scope.is_byte(*file, *target)
                && scope.place(*source) != scope.place(*target)
        }
        Hunk::Delete {
            owner,
            start,
            end,
            by,
        }
        | Hunk::Revive {
            owner,
            start,
            end,
            by,
        } => { is_answered_for(scope, *owner, *start, *end, by.items()) }
    }
}

/// Whether each reference names the file itself or one of its bytes.
fn are_ups(scope: &Scope<'_>, file: Ref, ups: &[Ref]) -> bool
    requires file { IsReachable scope.now file }
    requires ups { All (IsReachable scope.now) ups.now }
    ensures { result ≡ list_all (λ up. same_place (resolve scope.now.itself up) (resolve scope.now.itself file)
        || context.is_byte scope.now.itself scope.now.needs file up) ups.now }
{
    let inode = scope.place(file);
    ups.iter().all(
        |up|
            requires file { IsReachable scope.now file }
            requires up { IsReachable scope.now up.now }
        { scope.place(*up) == inode || scope.is_byte(file, *up) },
    )
}

/// Whether each reference names a byte of the file.
fn are_bytes(scope: &Scope<'_>, file: Ref, refs: &[Ref]) -> bool
    requires file { IsReachable scope.now file }
    requires refs { All (IsReachable scope.now) refs.now }
    ensures { result ≡ list_all (context.is_byte scope.now.itself scope.now.needs file) refs.now }
{
    refs.iter().all(
        |at|
            requires file { IsReachable scope.now file }
            requires at { IsReachable scope.now at.now }
        { scope.is_byte(file, *at) },
    )
}
