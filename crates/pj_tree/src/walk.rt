//! The walk that a print follows: the root, then the orphans, then what is adrift.

ghost use Rattle.std.specs.Prelude.{◌≡◌, ◌&&◌, ◌||◌, not, map, Contains, IfOk, OnOk, List, length};
ghost use Rattle.pj_change.specs.declared.change.Record.{Record};
ghost use Rattle.pj_change.specs.Walk as set;
ghost use Rattle.pj_tree.specs.Namespace.{namespace, Namespace};
ghost use Rattle.pj_tree.specs.NamespaceOf.{IsNamespaceOf};
ghost use Rattle.pj_tree.specs.Walk.{IsWalk};
ghost use Rattle.pj_tree.specs.Frames.{has_child, has_name, AreAdrift, AreOrphans, IsMarked, IsGuideOf, IsSound};
ghost use Rattle.pj_tree.specs.Rows.{IsWhole};

use crate::inodes::named;
use crate::lives::Lives;
use crate::pairings::pairings_of;
use crate::tree::Tree;
use crate::walker::{Frame, Guide, Progress};
use pj_change::{Place, Point, StepWord, Walk};
use pj_pmap::Memory;
use std::alloc::Global;

/// Whether an inode has a name that is not dead, and has had no entry.
fn is_adrift(seen: bool, named: bool) -> bool
    ensures { result ≡ (named && not seen) }
{
    named && !seen
}

impl<'a> Guide<'a> {
    /// Whether an inode that has had no entry and no name that is not dead has something in it: live text,
    /// or a child.
    fn has_content<V: Lives>(&self, inode: Point, lives: &V) -> bool
        requires { IsSound self.now }
        ensures { result ≡ (V.live lives.now inode || has_child self.now.pairings.now inode) }
    {
        lives.content(inode) || !self.children(Place::At(inode)).is_empty()
    }

    /// Whether an inode is an orphan that has had no entry.
    fn is_orphan<V: Lives>(&self, seen: bool, named: bool, inode: Point, lives: &V) -> bool
        requires { IsSound self.now }
        ensures { result ≡ (not seen && (not named && (V.live lives.now inode || has_child self.now.pairings.now inode))) }
    {
        !seen && !named && self.has_content(inode, lives)
    }

    /// The inodes that are orphans and have had no entry, in turn.
    fn visit_orphans<V: Lives>(
        &self,
        alloc: Global,
        progress: &mut Progress,
        named: &[bool],
        lives: &V,
    ) -> Result<(), Memory>
        requires sound { IsSound self.now }
        requires marked { IsMarked self.now.inodes.now progress.now }
        requires named { named.now ≡ map (λ i. has_name self.now.pairings.now i.at) self.now.inodes.now }
        ensures orphans { OnOk result (AreOrphans self.now (V.live lives.now) progress.old.steps.items progress.new.steps.items) }
        ensures marked { OnOk result (IsMarked self.now.inodes.now progress.new) }
    {
        for index in 0..self.inodes.len() {
            let inode = self.inodes[index];
            if self.is_orphan(progress.seen[index], named[index], inode.at, lives) {
                self.enter(alloc, progress, inode, StepWord::Orphan)?;
            }
        }
        Ok(())
    }

    /// The inodes that have a name that is not dead and have had no entry, in turn: what has had an entry
    /// keeps it, so that the least of those that have had none is never before one that was looked at.
    fn visit_adrift(
        &self,
        alloc: Global,
        progress: &mut Progress,
        named: &[bool],
    ) -> Result<(), Memory>
        requires sound { IsSound self.now }
        requires marked { IsMarked self.now.inodes.now progress.now }
        requires named { named.now ≡ map (λ i. has_name self.now.pairings.now i.at) self.now.inodes.now }
        ensures { OnOk result (AreAdrift self.now progress.old.steps.items progress.new.steps.items) }
    {
        for index in 0..self.inodes.len() {
            let inode = self.inodes[index];
            if is_adrift(progress.seen[index], named[index]) {
                self.enter(alloc, progress, inode, StepWord::Adrift)?;
            }
        }
        Ok(())
    }

    /// The walk of the root, then the orphans, then what is adrift.
    fn steps<V: Lives>(&self, alloc: Global, named: &[bool], lives: &V) -> Result<Walk, Memory>
        requires sound { IsSound self.now }
        requires named { named.now ≡ map (λ i. has_name self.now.pairings.now i.at) self.now.inodes.now }
        ensures { IfOk result (λ w. (N : Namespace) → IsGuideOf N self.now → N.live ≡ V.live lives.now → IsWalk N w) }
    {
        let mut progress = Progress {
            seen: vec![in alloc; false; self.inodes.len()]?,
            steps: Vec::new(alloc),
        };
        let root = Frame {
            prefix: Vec::new(alloc),
            children: self.children(Place::Root),
            next: 0,
        };
        self.walk(alloc, &mut progress, root)?;
        self.visit_orphans(alloc, &mut progress, named, lives)?;
        self.visit_adrift(alloc, &mut progress, named)?;
        Ok(Walk::of(progress.steps))
    }
}

impl Tree {
    /// The entries of the print, without their texts.
    ///
    /// First the root is walked. Then each orphan, by its point: an inode that has had no entry, has no name
    /// that is not dead, and has live text or is the parent of a name that is not dead. Then, while an inode
    /// with a name that is not dead has had no entry, the least of them. It takes a time of about the rows and
    /// inodes, times the logarithm of their number, and of the bytes of the paths.
    pub fn walk<V: Lives>(&self, alloc: Global, lives: &V) -> Result<Walk, Memory>
        requires { IsWhole self.now }
        ensures walk { IfOk result (IsWalk (namespace self.now (V.status lives.now) (V.live lives.now))) }
        ensures of_set { IfOk result (λ w. (S : List Record) → IsNamespaceOf S (namespace self.now (V.status lives.now) (V.live lives.now)) → set.IsWalk S w) }
    {
        let rows = self.rows(alloc)?;
        let pairings = pairings_of(alloc, &rows, lives)?;
        let inodes = self.inodes(alloc)?;
        let named = named(alloc, &inodes, &pairings)?;
        let guide = Guide {
            pairings: &pairings,
            inodes: &inodes,
        };
        guide.steps(alloc, &named, lives)
    }
}
