//! The blocks of text of a list of changes, each with its file.

ghost use Rattle.std.specs.Prelude.{◌≡◌, ◌+◌, ◌<◌, ◌^◌, [], Some, IfOk, OnOk};
ghost use Rattle.std.specs.List.Sorted.{IsPermutation};
ghost use Rattle.pj_change.specs.Gathers.{Gathers, IsOfOne};
ghost use Rattle.pj_change.specs.Positions.{file_of};
ghost use Rattle.pj_change.specs.Rules.{position_count};
ghost use Rattle.pj_output.specs.Blocks.{block_in, IsBlockOf};

use pj_change::{Hunk, Memory, Place, Point, Record};
use pj_context::place_of;
use pj_tables::Tables;
use rayon::slice::par_sort_unstable_by;
use std::alloc::{AllocError, Global};
use std::cmp::Ordering;
use std::thread::Threads;

/// The bytes that one hunk inserts into a file, whatever has become of them.
#[derive(Clone, Copy)]
pub struct Block {
    pub inode: Point,
    pub first: Point,
    /// The position behind the last byte.
    pub past: u32,
}

/// The block that the hunk of the change makes from this position on, if it inserts bytes into a file.
fn block_of(owner: &Record, first: u32, hunk: &Hunk) -> Option<Block>
    requires { first + position_count hunk.now < 2 ^ 32 }
    ensures { result ≡ block_in owner.now first (position_count hunk.now) (file_of owner.now hunk.now) }
{
    match hunk {
        Hunk::Insert { file, .. } => match place_of(owner, *file) {
            Place::At(inode) => Some(Block {
                inode,
                first: Point {
                    change: owner.name,
                    offset: first,
                },
                past: first + hunk.position_count() as u32,
            }),
            Place::Root => None,
        },
        _ => None,
    }
}

/// Adds the block that the hunk of the change makes from this position on, if it makes one.
fn add_block(
    blocks: &mut Vec<Block>,
    owner: &Record,
    first: u32,
    hunk: &Hunk,
) -> Result<(), AllocError>
    requires { first + position_count hunk.now < 2 ^ 32 }
    ensures { OnOk result (Gathers (λ block. block_in owner.now first (position_count hunk.now) (file_of owner.now hunk.now) ≡ Some block)
        blocks.old.items blocks.new.items) }
{
    if let Some(block) = block_of(owner, first, hunk) {
        blocks.push(block)?;
    }
    Ok(())
}

/// Adds the blocks that the hunks of the change make.
fn add_blocks(blocks: &mut Vec<Block>, owner: &Record) -> Result<(), AllocError>
    ensures { OnOk result (Gathers (IsBlockOf owner.now) blocks.old.items blocks.new.items) }
{
    let mut first = 0;
    for hunk in owner.change.hunks.items() {
        add_block(blocks, owner, first, hunk)?;
        first += hunk.position_count() as u32;
    }
    Ok(())
}

/// The blocks of the list, change by change.
pub fn blocks_of(alloc: Global, tables: &Tables) -> Result<Vec<Block>, Memory>
    ensures { IfOk result (λ blocks. Gathers (IsOfOne IsBlockOf tables.now) [] blocks.items) }
{
    let list = tables.list();
    let mut blocks = Vec::new(alloc);
    let mut after = None;
    while let Some(change) = list.next(after) {
        let owner: &Record = change;
        add_blocks(&mut blocks, owner)?;
        after = Some(owner.name);
    }
    Ok(blocks)
}

/// The order of blocks: by file, then by first position.
fn by_file(one: &Block, other: &Block) -> Ordering {
    one.inode
        .cmp(&other.inode)
        .then(one.first.cmp(&other.first))
}

/// Puts the blocks in order.
pub fn sort_blocks(blocks: &mut Vec<Block>)
    ensures { IsPermutation blocks.old.items blocks.new.items }
{
    blocks.sort_unstable_by(|b, c| by_file(b, c));
}

/// Puts the blocks in order, side by side.
pub fn sort_blocks_in_threads<R: Threads + Sync>(rt: &R, blocks: &mut Vec<Block>)
    ensures { IsPermutation blocks.old.items blocks.new.items }
{
    par_sort_unstable_by(rt, blocks, |b: &Block, c: &Block| by_file(b, c));
}
