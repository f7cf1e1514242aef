//! The live text of a list of changes, file by file.

ghost use Rattle.std.specs.Prelude.{◌≡◌, ◌≢◌, ◌↔◌, ◌≤◌, [], Contains, filter, map, IsTrue, IfOk, OnOk, MatchOption};
ghost use Rattle.std.specs.List.{AllZip, dedup};
ghost use Rattle.std.specs.List.Sorted.{IsPermutation, IsSorted, IsStrictlySortedBy};
ghost use Rattle.std.specs.Ordering.{eq_by_cmp, is_eq, is_lt};
ghost use Rattle.std.specs.declared.cmp.Ordering.TheVariants.{Equal};
ghost use Rattle.pj_change.specs.FileText.{IsLiveList};
ghost use Rattle.pj_change.specs.Gathers.{Gathers, IsOfOne};
ghost use Rattle.pj_change.specs.Graph.{Lists, point_cmp};
ghost use Rattle.pj_output.specs.Blocks.{IsBlock, IsTextFrom, IsTextOf};
ghost use Rattle.pj_output.specs.LiveText.{is_of, live_cmp, AreLiveIn, IsLiveOf, AreLiveText};
ghost use Rattle.pj_output.specs.declared.blocks.Block.{Block as ABlock};
ghost use Rattle.pj_output.specs.declared.live_text.LiveVertex.{LiveVertex as ALiveVertex};
ghost use Rattle.pj_change.specs.declared.graph.Status.TheVariants.{Dead};

use crate::blocks::{Block, blocks_of, sort_blocks, sort_blocks_in_threads};
use crate::in_threads::{map_each, map_in_threads, threads_worth};
use pj_change::{Memory, Point, Status, Vertex};
use pj_tables::Tables;
use std::alloc::{AllocError, Global};
use std::cmp::Ordering;
use std::thread::Threads;

/// A vertex that is live text, with the inode of its file.
#[derive(Clone, Copy)]
pub struct LiveVertex {
    pub inode: Point,
    pub vertex: Vertex,
}

// ---- one block

/// The text at a position from the beginning of the block on, or `None` where the block has ended.
fn text_from(tables: &Tables, block: &Block, offset: u32) -> Option<Vertex>
    requires block { IsBlock tables.now block.now }
    requires low { block.now.first.offset ≤ offset }
    ensures { MatchOption result (block.now.past ≤ offset) (IsTextFrom tables.now block.now offset) }
{
    let _list = tables.list();
    if offset >= block.past {
        return None;
    }
    tables.text_at(Point {
        change: block.first.change,
        offset,
    })
}

/// Whether the vertex is not dead.
fn is_live(v: &Vertex) -> bool
    ensures { IsTrue result ↔ (v.now.status ≢ Dead) }
{
    matches!(v.status, Status::Alive | Status::Zombie)
}

/// Adds the text with its file, if it is live.
fn add_live(
    entries: &mut Vec<LiveVertex>,
    tables: &Tables,
    inode: Point,
    v: Vertex,
) -> Result<(), AllocError>
    requires { IsTextOf tables.now inode v }
    ensures { OnOk result (Gathers (IsLiveOf tables.now v) entries.old.items entries.new.items) }
{
    let _list = tables.list();
    if is_live(&v) {
        entries.push(LiveVertex { inode, vertex: v })?;
    }
    Ok(())
}

/// The live text of the block.
fn live_in(alloc: Global, tables: &Tables, block: &Block) -> Result<Vec<LiveVertex>, Memory>
    requires { IsBlock tables.now block.now }
    ensures { IfOk result (λ entries. AreLiveIn tables.now block.now block.now.past entries.items) }
{
    let _list = tables.list();
    let mut entries = Vec::new(alloc);
    let mut offset = block.first.offset;
    while let Some(v) = text_from(tables, block, offset) {
        add_live(&mut entries, tables, block.inode, v)?;
        offset = v.end;
    }
    Ok(entries)
}

// ---- all blocks

/// The live text of each of the blocks.
fn live_in_each(
    alloc: Global,
    tables: &Tables,
    blocks: &[Block],
) -> Result<Vec<Vec<LiveVertex>>, Memory>
    requires { (b : ABlock) → Contains blocks.now b → IsBlock tables.now b }
    ensures { IfOk result (λ parts. AllZip (λ b part. AreLiveIn tables.now b b.past part.items) blocks.now parts.items) }
{
    map_each(
        alloc,
        blocks,
        &|block: &Block| -> Result<Vec<LiveVertex>, Memory>
            requires { IsBlock tables.now block.now }
            ensures { IfOk result (λ part. AreLiveIn tables.entry.now block.now block.now.past part.items) }
        { live_in(alloc, tables, block) },
    )
}

/// How many vertices are worth a thread.
pub const LEAST_VERTICES: usize = 2048;

/// How many blocks are worth a thread: so many as have that many vertices, one with another, where each cut parts one.
fn least_blocks(tables: &Tables, blocks: &[Block]) -> usize {
    let cuts = usize::try_from(tables.cuts().counts().len()).unwrap_or(usize::MAX);
    let vertices = blocks.len().saturating_add(cuts);
    blocks.len().saturating_mul(LEAST_VERTICES) / vertices.max(1)
}

/// The live text of each of the blocks, worked out side by side.
fn live_in_each_in_threads<R: Threads + Sync>(
    rt: &R,
    alloc: Global,
    tables: &Tables,
    blocks: &[Block],
) -> Result<Vec<Vec<LiveVertex>>, Memory>
    requires blocks { (b : ABlock) → Contains blocks.now b → IsBlock tables.now b }
    ensures { IfOk result (λ parts. AllZip (λ b part. AreLiveIn tables.now b b.past part.items) blocks.now parts.items) }
{
    map_in_threads(
        rt,
        alloc,
        blocks,
        threads_worth(rt, blocks.len(), least_blocks(tables, blocks)),
        &|block: &Block| -> Result<Vec<LiveVertex>, Memory>
            requires { IsBlock tables.now block.now }
            ensures { IfOk result (λ part. AreLiveIn tables.entry.now block.now block.now.past part.items) }
        { live_in(alloc, tables, block) },
    )
}

/// How much live text some parts have together.
fn count_in(parts: &[Vec<LiveVertex>]) -> usize {
    let mut count = 0usize;
    for part in parts {
        count = count.saturating_add(part.len());
    }
    count
}

/// Live text that was found in parts, one part after another.
fn join_parts(alloc: Global, parts: &[Vec<LiveVertex>]) -> Result<Vec<LiveVertex>, AllocError>
    ensures { IfOk result (λ entries. Gathers (IsOfOne (λ part. Contains part.items) parts.now) [] entries.items) }
{
    let mut entries = Vec::with_capacity(alloc, count_in(parts))?;
    for part in parts {
        entries.extend_from_slice(part)?;
    }
    Ok(entries)
}

// ---- in order

/// The order of live text: by file, then by first point.
fn by_file(one: &LiveVertex, other: &LiveVertex) -> Ordering
    ensures { result ≡ live_cmp one.now other.now }
{
    let (v, w) = (&one.vertex, &other.vertex);
    one.inode
        .cmp(&other.inode)
        .then(v.change.cmp(&w.change).then(v.start.cmp(&w.start)))
}

/// Puts live text in order, in one pass where it is in order.
fn sort_entries(entries: &mut Vec<LiveVertex>)
    ensures permutation { IsPermutation entries.old.items entries.new.items }
    ensures sorted { IsSorted live_cmp entries.new.items }
{
    entries.sort_unstable_by(|d, e| by_file(d, e));
}

/// Keeps each vertex of live text in order once.
fn keep_once(entries: &mut Vec<LiveVertex>)
    ensures { entries.new.items ≡ dedup (eq_by_cmp live_cmp) entries.old.items }
{
    entries.dedup_by(|d, e| by_file(d, e).is_eq());
}

/// All live text of the list, with its files.
pub fn live_text_of(alloc: Global, tables: &Tables) -> Result<Vec<LiveVertex>, Memory>
    ensures { IfOk result (λ entries. AreLiveText tables.now entries.items) }
{
    let _list = tables.list();
    let mut blocks = blocks_of(alloc, tables)?;
    sort_blocks(&mut blocks);
    let parts = live_in_each(alloc, tables, &blocks)?;
    let mut entries = join_parts(alloc, &parts)?;
    sort_entries(&mut entries);
    keep_once(&mut entries);
    Ok(entries)
}

/// The same live text, worked out side by side.
pub fn live_text_in_threads<R: Threads + Sync>(
    rt: &R,
    alloc: Global,
    tables: &Tables,
) -> Result<Vec<LiveVertex>, Memory>
    ensures { IfOk result (λ entries. AreLiveText tables.now entries.items) }
{
    let _list = tables.list();
    let mut blocks = blocks_of(alloc, tables)?;
    sort_blocks_in_threads(rt, &mut blocks);
    let parts = live_in_each_in_threads(rt, alloc, tables, &blocks)?;
    let mut entries = join_parts(alloc, &parts)?;
    sort_entries(&mut entries);
    keep_once(&mut entries);
    Ok(entries)
}

// ---- one file

/// The live text of the file, which stands together.
pub fn text_in(entries: &[LiveVertex], inode: Point) -> &[LiveVertex]
    requires { IsStrictlySortedBy live_cmp entries.now }
    ensures { result.now ≡ filter (is_of inode) entries.now }
{
    let start = entries.partition_point(
        |entry| -> bool
            ensures { result ≡ is_lt (point_cmp entry.now.inode inode) }
        { entry.inode.cmp(&inode) == Ordering::Less },
    );
    let rest = &entries[start..];
    let count = rest.partition_point(
        |entry| -> bool
            ensures { result ≡ is_eq (point_cmp entry.now.inode inode) }
        { entry.inode.cmp(&inode) == Ordering::Equal },
    );
    &rest[..count]
}

/// The vertices of some live text.
fn vertices_in(alloc: Global, entries: &[LiveVertex]) -> Result<Vec<Vertex>, AllocError>
    ensures { IfOk result (λ live. live.items ≡ map (λ e. e.vertex) entries.now) }
{
    entries.iter().map(|entry| entry.vertex).collect(alloc)
}

/// The live text of the file, by first point.
pub fn live_list(
    alloc: Global,
    tables: &Tables,
    entries: &[LiveVertex],
    inode: Point,
) -> Result<Vec<Vertex>, AllocError>
    requires { AreLiveText tables.now entries.now }
    ensures { IfOk result (λ live. IsLiveList tables.now inode live.items) }
{
    let _list = tables.list();
    vertices_in(alloc, text_in(entries, inode))
}
