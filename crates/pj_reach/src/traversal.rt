//! Depth-first traversals of a graph, and the trees that they give.

ghost use Rattle.std.specs.Prelude.{◌≡◌, ◌<◌, ◌≤◌, ℕ, length, slice_index, IfOk};
ghost use Rattle.pj_reach.specs.Reach.{AreEdgesBelow};
ghost use Rattle.pj_reach.specs.Links.{IsLinked};
ghost use Rattle.pj_reach.specs.Traversals.{Among};
ghost use Rattle.pj_reach.specs.Forest.{IsForest};

use crate::links::Links;
use std::alloc::{AllocError, Global};
use std::marker::Model;

/// A depth-first traversal in progress.
#[derive(Drop)]
pub struct Traversal {
    /// Whether a vertex was met.
    seen: Vec<bool>,
    /// The number of the tree in which a vertex was met.
    tree_of: Vec<u32>,
    /// For each vertex the next edge to follow.
    next: Vec<Option<usize>>,
    /// The vertices from the root of the tree to where the traversal is.
    path: Vec<u32>,
    /// The vertices all of whose edges were followed.
    finished: Vec<u32>,
}

impl Model for Traversal {
    ghost use Rattle.pj_reach.specs.Traversals.{State};

    ghost Value = { State };

    ghost view = { λ w. record { seen = w.seen.items; tree_of = w.tree_of.items; next = w.next.items; path = w.path.items; finished = w.finished.items } };
}

impl Traversal {
    ghost use Rattle.std.specs.Prelude.{◌≡◌, ◌<◌, ◌+◌, ◌++◌, ◌∷◌, [], ℕ, List, true, false, length, replicate, slice_set, slice_index, IfOk, OnOk};
    ghost use Rattle.pj_reach.specs.Reach.{AreEdgesBelow};
    ghost use Rattle.pj_reach.specs.Chains.{vertices, AreChains};
    ghost use Rattle.pj_reach.specs.Traversals.{State, IsTraversal, HasTrees, KeepsTrees, back_at, is_seen, work};

    /// A traversal that has met no vertex.
    fn new(alloc: Global, size: u32, links: &Links) -> Result<Traversal, AllocError>
        ensures { IfOk result (λ w. w ≡ record { seen = replicate size false; tree_of = replicate size 0; next = links.now.last.items; path = []; finished = [] }) }
    {
        Ok(Traversal {
            seen: vec![in alloc; false; size as usize]?,
            tree_of: vec![in alloc; 0u32; size as usize]?,
            next: Vec::from_slice(alloc, links.last.as_slice())?,
            path: Vec::new(alloc),
            finished: Vec::with_capacity(alloc, size as usize)?,
        })
    }

    /// Meets a vertex, which is then at the end of the path.
    fn enter(&mut self, vertex: u32, tree: u32) -> Result<(), AllocError>
        requires seen_len { vertex < length self.old.seen }
        requires tree_len { vertex < length self.old.tree_of }
        ensures { OnOk result (self.new ≡ record self.old {
          seen = slice_set self.old.seen vertex true;
          tree_of = slice_set self.old.tree_of vertex tree;
          path = self.old.path ++ vertex ∷ [];
        }) }
    {
        self.path.push(vertex)?;
        self.seen[vertex as usize] = true;
        self.tree_of[vertex as usize] = tree;
        Ok(())
    }

    /// Goes on from a vertex that was taken off the end of the path: follows its next edge, or finishes it.
    fn step(
        &mut self,
        edges: &[(u32, u32)],
        links: &Links,
        tree: u32,
        vertex: u32,
    ) -> Result<(), AllocError>
        requires graph { AreEdgesBelow (vertices links.now) edges.now }
        requires linked { AreChains edges.now links.now }
        requires traversal { IsTraversal (vertices links.now) edges.now (back_at self.old vertex) }
        ensures traversal { OnOk result (IsTraversal (vertices links.now) edges.now self.new) }
        ensures trees { OnOk result (KeepsTrees (vertices links.now) edges.now (tree + 1) (back_at self.old vertex) self.new) }
        ensures falls { OnOk result (work self.new < work (back_at self.old vertex)) }
    {
        match self.next[vertex as usize] {
            None => {
                self.finished.push(vertex)?;
                Ok(())
            }
            Some(edge) => {
                self.path.push(vertex)?;
                self.next[vertex as usize] = links.earlier[edge];
                let target = edges[edge].1;
                if !self.seen[target as usize] {
                    self.enter(target, tree)?;
                }
                Ok(())
            }
        }
    }

    /// Whether a vertex was met.
    fn has_seen(&self, vertex: u32) -> bool
        requires { vertex < length self.now.seen }
        ensures { result ≡ is_seen self.now vertex }
    {
        self.seen[vertex as usize]
    }

    /// What the traversal has found.
    fn into_forest(self) -> Forest
        ensures trees { result.tree_of.items ≡ self.tree_of }
        ensures finished { result.finished.items ≡ self.finished }
    {
        Forest {
            tree_of: self.tree_of,
            finished: self.finished,
        }
    }

    /// Grows the tree of a root that was not met: meets all that is reached from it without a vertex met before.
    fn grow(
        &mut self,
        edges: &[(u32, u32)],
        links: &Links,
        root: u32,
        tree: u32,
    ) -> Result<(), AllocError>
        requires graph { AreEdgesBelow (vertices links.now) edges.now }
        requires linked { AreChains edges.now links.now }
        requires traversal { IsTraversal (vertices links.now) edges.now self.old }
        requires at_rest { self.old.path ≡ [] }
        requires root_in { root < vertices links.now }
        requires unseen { is_seen self.old root ≡ false }
        ensures traversal { OnOk result (IsTraversal (vertices links.now) edges.now self.new) }
        ensures at_rest { OnOk result (self.new.path ≡ []) }
        ensures trees { OnOk result ((roots : List ℕ) (tried : ℕ) → HasTrees (vertices links.now) edges.now roots tried tree self.old
            → slice_index roots tried ≡ root → HasTrees (vertices links.now) edges.now roots (tried + 1) (tree + 1) self.new) }
    {
        self.enter(root, tree)?;
        while let Some(vertex) = self.path.pop() {
            self.step(edges, links, tree, vertex)?;
        }
        Ok(())
    }
}

/// The trees of a depth-first traversal through a whole graph.
#[derive(Drop)]
pub struct Forest {
    /// The number of each vertex's tree. The trees are numbered as they were grown.
    pub tree_of: Vec<u32>,
    /// The vertices in the order in which they were finished.
    pub finished: Vec<u32>,
}

/// Traverses a graph, and begins at each of the roots in turn that was not met before.
pub fn search(
    alloc: Global,
    size: u32,
    edges: &[(u32, u32)],
    links: &Links,
    roots: &[u32],
) -> Result<Forest, AllocError>
    requires graph { AreEdgesBelow size edges.now }
    requires linked { IsLinked size edges.now links.now.last.items links.now.earlier.items }
    requires roots_few { length roots.now ≤ size }
    requires roots_in { (k : ℕ) → k < length roots.now → slice_index roots.now k < size }
    requires each_is_root { (v : ℕ) → v < size → Among roots.now v }
    ensures { IfOk result (λ forest. IsForest size edges.now roots.now forest.tree_of.items forest.finished.items) }
{
    let mut traversal = Traversal::new(alloc, size, links)?;
    let mut trees = 0;
    for &root in roots {
        if !traversal.has_seen(root) {
            traversal.grow(edges, links, root, trees)?;
            trees += 1;
        }
    }
    Ok(traversal.into_forest())
}
