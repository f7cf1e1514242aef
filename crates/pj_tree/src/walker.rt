//! The walk of one directory and of all below it, with the entries that it gives.

ghost use Rattle.std.specs.Prelude.{◌≡◌, ◌+◌, ◌<◌, ℕ, ◌∷◌, ◌++◌, [], Bool, false, List, length, Contains, IfOk, OnOk, IfSome, option_to_list};
ghost use Rattle.std.specs.List.Sorted.{IsStrictlySortedBy};
ghost use Rattle.std.specs.Ordering.{is_eq, is_lt};
ghost use Rattle.pj_change.specs.declared.point.Point.{Point};
ghost use Rattle.pj_change.specs.Graph.{place_cmp};
ghost use Rattle.pj_change.specs.Walk.{is_seen};
ghost use Rattle.pj_tree.specs.Rows.{inode_cmp};
ghost use Rattle.pj_tree.specs.Pairings.{pairings_in, pairing_cmp};
ghost use Rattle.pj_tree.specs.Frames.{exec_of, fresh, kind_of, left_count, marks, seen_by, seen_of, unseen, work_left, IsEntered, IsFrame, IsInner, IsMarked, IsSound, IsTurn, IsVisited};

use crate::inodes::index_of;
use crate::pairings::Pairing;
use crate::paths::{child_path, inside, lost_path};
use crate::row::{Inode, place_order};
use pj_change::{Bytes, Place, Point, Step, StepKind, StepWord};
use pj_pmap::Memory;
use std::alloc::Global;
use std::cmp::Ordering;

/// The pairings of one parent, which stand together.
fn children_of<'a>(pairings: &'a [Pairing<'a>], parent: Place) -> &'a [Pairing<'a>]
    requires { IsStrictlySortedBy pairing_cmp pairings.now }
    ensures { result.now ≡ pairings_in parent pairings.now }
{
    let start = pairings.partition_point(
        |pairing| -> bool
            ensures { result ≡ is_lt (place_cmp pairing.now.row.now.parent parent) }
        { place_order(pairing.row.parent, parent) == Ordering::Less },
    );
    let rest = &pairings[start..];
    let count = rest.partition_point(
        |pairing| -> bool
            ensures { result ≡ is_eq (place_cmp pairing.now.row.now.parent parent) }
        { place_order(pairing.row.parent, parent) == Ordering::Equal },
    );
    &rest[..count]
}

/// The kind of the next entry of an inode, which has had an entry then.
#[tactic(auto, using(crate::proofs::Marks::marks_set, crate::proofs::Marks::mark_at, crate::proofs::Marks::unseen_set))]
fn mark(inodes: &[Inode], seen: &mut Vec<bool>, inode: Inode) -> StepKind
    requires sorted { IsStrictlySortedBy inode_cmp inodes.now }
    requires there { Contains inodes.now inode }
    requires long { length seen.now.items ≡ length inodes.now }
    ensures kind { (before : List Point) → seen.old.items ≡ marks before inodes.now → result ≡ kind_of before inode }
    ensures marked { (before : List Point) → seen.old.items ≡ marks before inodes.now → seen.new.items ≡ marks (seen_by result inode.at before) inodes.now }
    ensures fewer { unseen seen.new.items + fresh result ≡ unseen seen.old.items }
{
    let index = index_of(inodes, inode);
    if seen[index] {
        return StepKind::Same;
    }
    seen[index] = true;
    if inode.dir {
        StepKind::Dir
    } else {
        StepKind::File
    }
}

/// Whether an entry of this kind is executable, where its pair is.
fn is_executable(kind: StepKind, exec: bool) -> bool
    ensures { result ≡ exec_of kind exec }
{
    match kind {
        StepKind::File => exec,
        StepKind::Dir | StepKind::Same => false,
    }
}

/// A directory that is being walked, or the root.
#[derive(Drop)]
pub struct Frame<'a> {
    /// What stands before the parts of its children.
    pub prefix: Vec<u8>,
    pub children: &'a [Pairing<'a>],
    /// The index of the child that is to be visited next.
    pub next: usize,
}

/// Puts a directory back, and above it the one that is to be walked before its next child.
fn put_back<'a>(
    frames: &mut Vec<Frame<'a>>,
    frame: Frame<'a>,
    inner: Option<Frame<'a>>,
) -> Result<(), Memory>
    ensures { OnOk result (frames.new.items ≡ frames.old.items ++ frame.entry ∷ option_to_list inner.entry) }
{
    frames.push(frame)?;
    if let Some(inner) = inner {
        frames.push(inner)?;
    }
    Ok(())
}

/// What a walk has written.
#[derive(Drop)]
pub struct Progress {
    /// Whether each inode has had an entry.
    pub seen: Vec<bool>,
    /// The entries so far.
    pub steps: Vec<Step>,
}

/// What a walk goes by.
#[derive(Clone, Copy)]
pub struct Guide<'a> {
    /// The children of all parents, by parent, then by name and inode.
    pub pairings: &'a [Pairing<'a>],
    /// The inodes by their points.
    pub inodes: &'a [Inode],
}

impl<'a> Guide<'a> {
    /// The children of a parent.
    pub fn children(&self, parent: Place) -> &'a [Pairing<'a>]
        requires { IsSound self.now }
        ensures { result.now ≡ pairings_in parent self.now.pairings.now }
    {
        children_of(self.pairings, parent)
    }

    /// The walk of a directory with this path, before its first child; None where the entry is of no directory.
    fn inner(
        &self,
        alloc: Global,
        kind: StepKind,
        at: Point,
        path: &[u8],
    ) -> Result<Option<Frame<'a>>, Memory>
        requires { IsSound self.now }
        ensures { IfOk result (λ inner. IsInner self.now.pairings.now kind at path.now inner) }
    {
        match kind {
            StepKind::Dir => Ok(Some(Frame {
                prefix: inside(alloc, path)?,
                children: self.children(Place::At(at)),
                next: 0,
            })),
            StepKind::File | StepKind::Same => Ok(None),
        }
    }

    /// Visits the next child. It gives the walk of a directory that comes before the child after it.
    fn visit(
        &self,
        alloc: Global,
        progress: &mut Progress,
        frame: &mut Frame<'a>,
    ) -> Result<Option<Frame<'a>>, Memory>
        requires sound { IsSound self.now }
        requires marked { IsMarked self.now.inodes.now progress.now }
        requires frame { IsFrame self.now.pairings.now frame.now }
        requires left { frame.now.next < length frame.now.children.now }
        ensures turn { IfOk result (λ inner. IsTurn self.now frame.old frame.new inner progress.old.steps.items progress.new.steps.items) }
        ensures marked { OnOk result (IsMarked self.now.inodes.now progress.new) }
        ensures frame { OnOk result (IsFrame self.now.pairings.now frame.new) }
        ensures inner { IfOk result (λ inner. IfSome inner (IsFrame self.now.pairings.now)) }
        ensures less { IfOk result (λ inner. work_left self.now.pairings.now progress.new.seen.items (option_to_list inner ++ frame.new ∷ []) <
            work_left self.now.pairings.now progress.old.seen.items (frame.old ∷ [])) }
    {
        let pairing = frame.children[frame.next];
        let path = child_path(alloc, &frame.prefix, frame.children, frame.next)?;
        frame.next += 1;
        let at = pairing.row.child;
        let dir = pairing.row.dir;
        let kind = mark(self.inodes, &mut progress.seen, Inode { at, dir });
        let inner = self.inner(alloc, kind, at, &path)?;
        progress.steps.push(Step {
            kind,
            word: pairing.word,
            inode: at,
            path: Bytes::of(path),
            exec: is_executable(kind, pairing.exec),
        })?;
        Ok(inner)
    }

    /// Walks what is left of the root or of a directory.
    pub fn walk(
        &self,
        alloc: Global,
        progress: &mut Progress,
        frame: Frame<'a>,
    ) -> Result<(), Memory>
        requires sound { IsSound self.now }
        requires marked { IsMarked self.now.inodes.now progress.now }
        requires frame { IsFrame self.now.pairings.now frame }
        ensures visited { OnOk result (IsVisited self.now frame.entry progress.old.steps.items progress.new.steps.items) }
        ensures marked { OnOk result (IsMarked self.now.inodes.now progress.new) }
    {
        let mut frames = Vec::new(alloc);
        frames.push(frame)?;
        while let Some(top) = frames.pop() {
            let mut top = top;
            if top.next == top.children.len() {
                continue;
            }
            let inner = self.visit(alloc, progress, &mut top)?;
            put_back(&mut frames, top, inner)?;
        }
        Ok(())
    }

    /// The entry of an inode that no walk from the root reaches, and its walk.
    pub fn enter(
        &self,
        alloc: Global,
        progress: &mut Progress,
        inode: Inode,
        word: StepWord,
    ) -> Result<(), Memory>
        requires sound { IsSound self.now }
        requires marked { IsMarked self.now.inodes.now progress.now }
        requires there { Contains self.now.inodes.now inode }
        requires fresh { is_seen (seen_of progress.now.steps.items) inode.at ≡ false }
        ensures entered { OnOk result (IsEntered self.now word inode.at progress.old.steps.items progress.new.steps.items) }
        ensures marked { OnOk result (IsMarked self.now.inodes.now progress.new) }
    {
        let path = lost_path(alloc, inode.at)?;
        let kind = mark(self.inodes, &mut progress.seen, inode);
        let inner = self.inner(alloc, kind, inode.at, &path)?;
        progress.steps.push(Step {
            kind,
            word,
            inode: inode.at,
            path: Bytes::of(path),
            exec: false,
        })?;
        if let Some(inner) = inner {
            self.walk(alloc, progress, inner)?;
        }
        Ok(())
    }
}
