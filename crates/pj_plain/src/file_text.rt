//! The texts of the files of a set of changes.

ghost use Rattle.std.specs.Prelude.{◌≡◌, ◌<◌, ◌^◌, [], ◌∷◌, ◌++◌, length, map, filter, IfOk, OnOk, MatchOption};
ghost use Rattle.pj_change.specs.FileText.{IsFileText, IsLiveList};
ghost use Rattle.pj_change.specs.Graph.{vertex_cmp, edge_cmp, Lists};
ghost use Rattle.pj_change.specs.Lawful.{IsLawful};
ghost use Rattle.pj_change.specs.RealEdges.{IsEdge};
ghost use Rattle.pj_change.specs.Vertices.{IsVertex};
ghost use Rattle.pj_change.specs.Gathers.{Gathers, IsOfOne};
ghost use Rattle.pj_plain.specs.Links.{AreJoins, ArePlaces, IsPlaced};
ghost use Rattle.pj_plain.specs.Links as link;
ghost use Rattle.pj_change.specs.Shared.{records};
ghost use Rattle.pj_plain.specs.LiveText as live_text;
ghost use Rattle.pj_reach.specs.Reach.{AreEdgesBelow};

use crate::links::links_of;
use crate::live_text::{SetWithVertices, is_dead_text, is_live_in};
use crate::pieces::Pieces;
use pj_change::{Edge, Point, Vertex};
use pj_print::{Memory, joined_text};
use pj_reach::across;
use std::alloc::{AllocError, Global};
use std::marker::Brand;

/// For each vertex whether it is dead text.
fn dead_flags(alloc: Global, vertices: &[Vertex]) -> Result<Vec<bool>, AllocError>
    ensures { IfOk result (λ flags. flags.items ≡ map (λ v. link.is_dead_text v.kind v.status) vertices.now) }
{
    vertices.iter().map(|v| is_dead_text(v)).collect(alloc)
}

/// The pairs of numbers of vertices, neither of them dead text, that an edge joins or a path of edges over dead text.
pub fn joined(
    alloc: Global,
    set: &SetWithVertices,
    edges: &[Edge],
) -> Result<Vec<(u32, u32)>, Memory>
    requires vertices { Lists vertex_cmp (IsVertex (records set.now.changes.now)) set.now.vertices.now }
    requires edges { Lists edge_cmp (IsEdge (records set.now.changes.now)) edges.now }
    ensures joins { IfOk result (λ pairs. AreJoins (records set.now.changes.now) set.now.vertices.now pairs.items) }
    ensures small { IfOk result (λ pairs. length set.now.vertices.now < 2 ^ 32) }
{
    let Ok(count) = u32::try_from(set.vertices.len()) else {
        return Err(Memory);
    };
    let links = links_of(alloc, set.vertices, edges)?;
    let dead = dead_flags(alloc, set.vertices)?;
    across(alloc, count, &links, &dead)
}

/// The vertices that are live text of the file.
fn live_among(alloc: Global, set: &SetWithVertices, inode: Point) -> Result<Vec<Vertex>, AllocError>
    ensures { IfOk result (λ live. live.items ≡ filter (live_text.is_live_in (records set.now.changes.now) inode) set.now.vertices.now) }
{
    set.vertices
        .iter()
        .filter(|v| is_live_in(set.changes, inode, v))
        .copied()
        .collect(alloc)
}

/// The live text of the file, by first point.
pub fn live_list(
    alloc: Global,
    set: &SetWithVertices,
    inode: Point,
) -> Result<Vec<Vertex>, AllocError>
    requires vertices { Lists vertex_cmp (IsVertex (records set.now.changes.now)) set.now.vertices.now }
    ensures { IfOk result (λ live. IsLiveList (records set.now.changes.now) inode live.items) }
{
    live_among(alloc, set, inode)
}

/// The place of each vertex among the live text of the file, if it is one.
fn places(
    alloc: Global,
    set: &SetWithVertices,
    inode: Point,
) -> Result<Vec<Option<u32>>, AllocError>
    requires { length set.now.vertices.now < 2 ^ 32 }
    ensures { IfOk result (λ places. ArePlaces (live_text.is_live_in (records set.now.changes.now) inode) set.now.vertices.now places.items) }
{
    let mut places = Vec::with_capacity(alloc, set.vertices.len())?;
    let mut count = 0;
    for v in set.vertices {
        if is_live_in(set.changes, inode, v) {
            places.push(Some(count))?;
            count += 1;
        } else {
            places.push(None)?;
        }
    }
    Ok(places)
}

/// The places of the two numbers, if both have one.
fn placed(places: &[Option<u32>], a: u32, b: u32) -> Option<(u32, u32)>
    requires from { a < length places.now }
    requires to { b < length places.now }
    ensures { result ≡ link.placed_pair places.now a b }
{
    let i = places[a as usize]?;
    let j = places[b as usize]?;
    Some((i, j))
}

/// Adds the pair, if there is one.
fn add_pair(pairs: &mut Vec<(u32, u32)>, pair: Option<(u32, u32)>) -> Result<(), AllocError>
    ensures { OnOk result (MatchOption pair (pairs.new.items ≡ pairs.old.items) (λ one. pairs.new.items ≡ pairs.old.items ++ one ∷ [])) }
{
    if let Some(pair) = pair {
        pairs.push(pair)?;
    }
    Ok(())
}

/// The pairs of which both ends have a place, by their places.
fn placed_pairs(
    alloc: Global,
    pairs: &[(u32, u32)],
    places: &[Option<u32>],
) -> Result<Vec<(u32, u32)>, AllocError>
    requires { AreEdgesBelow (length places.now) pairs.now }
    ensures { IfOk result (λ edges. Gathers (IsOfOne (IsPlaced places.now) pairs.now) [] edges.items) }
{
    let mut edges = Vec::new(alloc);
    for &(a, b) in pairs {
        add_pair(&mut edges, placed(places, a, b))?;
    }
    Ok(edges)
}

/// The text of a file.
pub fn text_of(
    alloc: Global,
    set: &SetWithVertices,
    pairs: &[(u32, u32)],
    inode: Point,
) -> Result<Vec<u8>, Memory>
    requires lawful { IsLawful (records set.now.changes.now) }
    requires vertices { Lists vertex_cmp (IsVertex (records set.now.changes.now)) set.now.vertices.now }
    requires small { length set.now.vertices.now < 2 ^ 32 }
    requires joins { AreJoins (records set.now.changes.now) set.now.vertices.now pairs.now }
    ensures { IfOk result (λ text. IsFileText (records set.now.changes.now) inode text.items) }
{
    let live = live_among(alloc, set, inode)?;
    let places = places(alloc, set, inode)?;
    let edges = placed_pairs(alloc, pairs, &places)?;
    let pieces = Pieces {
        changes: set.changes,
        live: &live,
    };
    joined_text::<Brand, Pieces>(alloc, &live, &edges, &pieces)
}
