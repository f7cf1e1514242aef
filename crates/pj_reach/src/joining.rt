//! What joins the numbers of a graph across inner ones.

ghost use Rattle.std.specs.Prelude.{◌≡◌, ◌<◌, ℕ, ◌↔◌, Contains, length, IfOk};
ghost use Rattle.pj_reach.specs.Across.{AreJoined};
ghost use Rattle.pj_reach.specs.Reach.{AreEdgesBelow};

use crate::links::{Links, link};
use pj_bits::Memory;
use std::alloc::Global;

/// A search from one number after the other, each across inner numbers alone.
#[derive(Drop)]
struct Search {
    /// For each number the last one from which it was reached.
    reached_from: Vec<Option<u32>>,
    /// The numbers whose edges are still to be followed.
    waiting: Vec<u32>,
    /// What is joined.
    pairs: Vec<(u32, u32)>,
}

impl Search {
    ghost use Rattle.std.specs.Prelude.{◌≡◌, ◌<◌, ◌+◌, ◌++◌, ◌∷◌, [], ℕ, false, length, OnOk};
    ghost use Rattle.pj_reach.specs.Across.{is_inner};
    ghost use Rattle.pj_reach.specs.Reach.{AreEdgesBelow};
    ghost use Rattle.pj_reach.specs.Links.{source, target};
    ghost use Rattle.pj_reach.specs.Chains.{vertices, AreChains};
    ghost use Rattle.pj_reach.specs.Searches.{state, IsReached, IsWay, IsFollowed, IsSearch, GoesOn, IsSearched};

    /// Follows an edge to where it leads: an inner number waits, and any other is joined to `start`.
    fn reach(
        &mut self,
        edges: &[(u32, u32)],
        inner: &[bool],
        start: u32,
        edge: usize,
    ) -> Result<(), Memory>
        requires graph { AreEdgesBelow (length inner.now) edges.now }
        requires start_apart { is_inner inner.now start ≡ false }
        requires edge_in { edge < length edges.now }
        requires way { IsWay inner.now start (state self.old) (source edges.now edge) }
        requires search { IsSearch edges.now inner.now start (state self.old) }
        ensures search { OnOk result (IsSearch edges.now inner.now start (state self.new)) }
        ensures goes_on { OnOk result (GoesOn inner.now start (state self.old) (state self.new)) }
        ensures reached { OnOk result (IsReached (state self.new) start (target edges.now edge)) }
    {
        let at = edges[edge].1;
        if self.reached_from[at as usize] == Some(start) {
            return Ok(());
        }
        self.reached_from[at as usize] = Some(start);
        if inner[at as usize] {
            self.waiting.push(at)?;
        } else {
            self.pairs.push((start, at))?;
        }
        Ok(())
    }

    /// Follows the edges that leave a number.
    fn follow(
        &mut self,
        edges: &[(u32, u32)],
        links: &Links,
        inner: &[bool],
        start: u32,
        at: u32,
    ) -> Result<(), Memory>
        requires graph { AreEdgesBelow (length inner.now) edges.now }
        requires linked { AreChains edges.now links.now }
        requires flags { length inner.now ≡ vertices links.now }
        requires start_apart { is_inner inner.now start ≡ false }
        requires at_in { at < length inner.now }
        requires way { IsWay inner.now start (state self.old) at }
        requires search { IsSearch edges.now inner.now start (state self.old) }
        ensures search { OnOk result (IsSearch edges.now inner.now start (state self.new)) }
        ensures goes_on { OnOk result (GoesOn inner.now start (state self.old) (state self.new)) }
        ensures followed { OnOk result (IsFollowed edges.now start (state self.new) at) }
    {
        let mut next = links.last[at as usize];
        while let Some(edge) = next {
            self.reach(edges, inner, start, edge)?;
            next = links.earlier[edge];
        }
        Ok(())
    }

    /// Joins `start` to all that it is joined to.
    fn search(
        &mut self,
        edges: &[(u32, u32)],
        links: &Links,
        inner: &[bool],
        start: u32,
    ) -> Result<(), Memory>
        requires graph { AreEdgesBelow (length inner.now) edges.now }
        requires linked { AreChains edges.now links.now }
        requires flags { length inner.now ≡ vertices links.now }
        requires start_apart { is_inner inner.now start ≡ false }
        requires start_in { start < length inner.now }
        requires searched { IsSearched edges.now inner.now start (state self.old) }
        ensures { OnOk result (IsSearched edges.now inner.now (start + 1) (state self.new)) }
    {
        self.waiting.push(start)?;
        while let Some(at) = self.waiting.pop() {
            self.follow(edges, links, inner, start, at)?;
        }
        Ok(())
    }
}

/// The pairs of numbers below `n`, neither of them inner, that an edge joins or a path of edges over inner numbers.
/// A number is inner where its flag in `inner` is set.
///
/// The work is linear in the numbers and edges and, for each number that is not inner, once more in what it reaches:
/// the edges that leave it, the inner numbers behind them, and their edges. The memory is a few words for each number,
/// edge and pair.
pub fn across(
    alloc: Global,
    n: u32,
    edges: &[(u32, u32)],
    inner: &[bool],
) -> Result<Vec<(u32, u32)>, Memory>
    requires graph { AreEdgesBelow n edges.now }
    requires flags { length inner.now ≡ n }
    ensures { IfOk result (λ pairs. (a b : ℕ) → Contains pairs.items (a, b) ↔ AreJoined edges.now inner.now a b) }
{
    let links = link(alloc, n, edges)?;
    let mut search = Search {
        reached_from: vec![in alloc; None; n as usize]?,
        waiting: Vec::new(alloc),
        pairs: Vec::new(alloc),
    };
    for start in 0..n {
        if !inner[start as usize] {
            search.search(edges, &links, inner, start)?;
        }
    }
    Ok(search.pairs)
}
