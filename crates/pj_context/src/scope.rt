//! What the references of a change name.

ghost use Rattle.std.specs.Prelude.{◌≡◌, ◌≤◌, length, Some};
ghost use Rattle.pj_change.specs.Context as context;
ghost use Rattle.pj_change.specs.Positions as position;
ghost use Rattle.pj_change.specs.Shared.{records};
ghost use Rattle.pj_context.specs.Needs.{AreNeeds};
ghost use Rattle.pj_context.specs.References.{IsReachable, RefersWithin};

use pj_change::{Hunk, Kind, Place, Record, Ref, kind_at, made_at, numbered, resolve};
use pj_name::Name;
use std::marker::Model;
use std::sync::Arc;

/// A change with the records of its needs, in their order.
#[derive(Drop)]
pub(crate) struct Scope<'a> {
    itself: &'a Record,
    needs: &'a [Arc<Record>],
}

impl<'a> Model for Scope<'a> {
    ghost use Rattle.pj_change.specs.Shared.{records};
    ghost use Rattle.pj_context.specs.Needs.{AreNeeds, Reachable};

    ghost Value = { Reachable };

    ghost view = { λ s. record { itself = s.itself.now; needs = records s.needs.now } };

    ghost invariant = { λ s. AreNeeds s.itself.now (records s.needs.now) };
}

impl<'a> Scope<'a> {
    /// The scope of a change's references.
    pub(crate) fn of(itself: &'a Record, needs: &'a [Arc<Record>]) -> Self
        requires { AreNeeds itself.now (records needs.now) }
        ensures { result ≡ record { itself = itself.now; needs = records needs.now } }
    {
        Scope { itself, needs }
    }

    /// The record that a reference's number means: the change itself for 0, and its k-th need for k.
    pub(crate) fn meant(&self, owner: u32) -> &'a Record
        requires { owner ≤ length self.now.itself.change.needs }
        ensures { context.meant self.now.itself self.now.needs owner ≡ Some result.now }
    {
        if owner == 0 {
            self.itself
        } else {
            &self.needs[owner as usize - 1]
        }
    }

    /// The name that a reference's number means.
    pub(crate) fn name(&self, owner: u32) -> Name
        requires { owner ≤ length self.now.itself.change.needs }
        ensures { result ≡ position.numbered self.now.itself owner }
    {
        numbered(self.itself, owner)
    }

    /// The place that a reference means.
    pub(crate) fn place(&self, at: Ref) -> Place
        requires { IsReachable self.now at }
        ensures { result ≡ position.resolve self.now.itself at }
    {
        resolve(self.itself, at)
    }

    /// What stands at the position that a reference names.
    pub(crate) fn kind(&self, at: Ref) -> Option<Kind>
        requires { IsReachable self.now at }
        ensures { result ≡ context.kind_of self.now.itself self.now.needs at }
    {
        match at {
            Ref::Root => None,
            Ref::At { owner, offset } => kind_at(&self.meant(owner).change, offset),
        }
    }

    /// Whether a reference names the root or a directory.
    pub(crate) fn is_parent(&self, at: Ref) -> bool
        requires { IsReachable self.now at }
        ensures { result ≡ context.is_parent self.now.itself self.now.needs at }
    {
        at == Ref::Root || matches!(self.kind(at), Some(Kind::DirInode { .. }))
    }

    /// Whether a reference names a file.
    pub(crate) fn is_file(&self, at: Ref) -> bool
        requires { IsReachable self.now at }
        ensures { result ≡ context.is_file self.now.itself self.now.needs at }
    {
        matches!(self.kind(at), Some(Kind::FileInode { .. }))
    }

    /// Whether a reference names a file or a directory.
    pub(crate) fn is_inode(&self, at: Ref) -> bool
        requires { IsReachable self.now at }
        ensures { result ≡ context.is_inode self.now.itself self.now.needs at }
    {
        matches!(
            self.kind(at),
            Some(Kind::FileInode { .. } | Kind::DirInode { .. })
        )
    }

    /// Whether a reference names a byte of the file that another one names.
    pub(crate) fn is_byte(&self, file: Ref, at: Ref) -> bool
        requires file { IsReachable self.now file }
        requires at { IsReachable self.now at }
        ensures { result ≡ context.is_byte self.now.itself self.now.needs file at }
    {
        match at {
            Ref::Root => false,
            Ref::At { owner, offset } => {
                file_at(self.meant(owner), offset) == Some(self.place(file))
            }
        }
    }
}

/// The file of the byte at a position of a change, None where no byte stands there.
fn file_at(holder: &Record, offset: u32) -> Option<Place>
    ensures { result ≡ context.file_at holder.now offset }
{
    match made_at(&holder.change, offset) {
        Some((Kind::Text { .. }, hunk)) => file_of(holder, hunk),
        _ => None,
    }
}

/// The file into which a hunk of the change inserts, None where it inserts nothing.
fn file_of(holder: &Record, hunk: &Hunk) -> Option<Place>
    requires { RefersWithin (length holder.now.change.needs) hunk.now }
    ensures { result ≡ position.file_of holder.now hunk.now }
{
    match hunk {
        Hunk::Insert { file, .. } => Some(resolve(holder, *file)),
        _ => None,
    }
}
