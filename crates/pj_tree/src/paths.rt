//! The paths of entries, with what tells children of one name apart.

ghost use Rattle.std.specs.Prelude.{◌≡◌, ℕ, ◌+◌, ◌-◌, ◌<◌, nat_lt, ◌&&◌, List, ◌∷◌, ◌++◌, [], codes, decimal, map, length, slice_index_or, IfOk, OnOk};
ghost use Rattle.std.specs.Str.{bytes_eq};
ghost use Rattle.std.specs.List.Sorted.{IsStrictlySortedBy};
ghost use Rattle.pj_change.specs.Children.{child_cmp, is_shared, lost_path, point_text};
ghost use Rattle.pj_change.specs.Walk.{inside, path_of};
ghost use Rattle.pj_tree.specs.declared.pairings.Pairing.{Pairing};
ghost use Rattle.pj_tree.specs.Pairings.{child_of};

use crate::pairings::Pairing;
use itoa::Buffer;
use pj_change::Point;
use std::alloc::{AllocError, Global};

/// Puts a point as it is written at the end of the text: the name of its change in hex, a full stop, and its offset.
fn push_point(text: &mut Vec<u8>, point: Point) -> Result<(), AllocError>
    ensures { OnOk result (text.new.items ≡ text.old.items ++ point_text point) }
{
    text.extend_from_slice(&point.change.hex())?;
    text.push(b'.')?;
    let mut buffer = Buffer::new();
    text.extend_from_slice(buffer.format(point.offset).as_bytes())
}

/// Whether the two have one name.
fn have_one_name(one: Pairing, other: Pairing) -> bool
    ensures { result ≡ bytes_eq one.entry.row.now.name other.entry.row.now.name }
{
    one.row.name.items() == other.row.name.items()
}

/// Whether the child before the one at the index has its name.
fn follows_twin(children: &[Pairing], at: usize) -> bool
    requires { at < length children.now }
    ensures { (d : Pairing) → result ≡ (nat_lt 0 at && bytes_eq (slice_index_or children.now (at - 1) d).row.now.name (slice_index_or children.now at d).row.now.name) }
{
    at > 0 && have_one_name(children[at - 1], children[at])
}

/// Whether the child after the one at the index has its name.
fn precedes_twin(children: &[Pairing], at: usize) -> bool
    requires { at < length children.now }
    ensures { (d : Pairing) → result ≡ (nat_lt (at + 1) (length children.now) && bytes_eq (slice_index_or children.now (at + 1) d).row.now.name (slice_index_or children.now at d).row.now.name) }
{
    at + 1 < children.len() && have_one_name(children[at + 1], children[at])
}

/// Whether another child of the parent has the name of the one at the index. The children are those
/// of one parent, in order, so that the children of one name stand together.
#[tactic(auto, using(crate::proofs::Twins::has_twin_is))]
fn has_twin(children: &[Pairing], at: usize) -> bool
    requires there { at < length children.now }
    requires sorted { IsStrictlySortedBy child_cmp (map child_of children.now) }
    ensures { (d : Pairing) → result ≡ is_shared (map child_of children.now) (child_of (slice_index_or children.now at d)) }
{
    follows_twin(children, at) || precedes_twin(children, at)
}

/// The path of the child at the index, with what stands before the parts of the children.
pub fn child_path(
    alloc: Global,
    prefix: &[u8],
    children: &[Pairing],
    at: usize,
) -> Result<Vec<u8>, AllocError>
    requires there { at < length children.now }
    requires sorted { IsStrictlySortedBy child_cmp (map child_of children.now) }
    ensures { IfOk result (λ path. (d : Pairing) → path.items ≡ path_of prefix.now (map child_of children.now) (child_of (slice_index_or children.now at d))) }
{
    let row = children[at].row;
    let mut path = Vec::new(alloc);
    path.extend_from_slice(prefix)?;
    path.extend_from_slice(row.name.items())?;
    if has_twin(children, at) {
        path.push(b'~')?;
        push_point(&mut path, row.child)?;
    }
    Ok(path)
}

/// The path of an inode that no walk from the root reaches.
pub fn lost_path(alloc: Global, inode: Point) -> Result<Vec<u8>, AllocError>
    ensures { IfOk result (λ path. path.items ≡ lost_path inode) }
{
    let mut path = Vec::new(alloc);
    path.push(b'~')?;
    push_point(&mut path, inode)?;
    Ok(path)
}

/// What stands before the parts of the children of a directory with this path.
pub fn inside(alloc: Global, path: &[u8]) -> Result<Vec<u8>, AllocError>
    ensures { IfOk result (λ prefix. prefix.items ≡ inside path.now) }
{
    let mut prefix = Vec::new(alloc);
    prefix.extend_from_slice(path)?;
    prefix.push(b'/')?;
    Ok(prefix)
}
