//! The rules of a change, a test for each.

ghost use Rattle.std.specs.Prelude.{◌≡◌, not, length, nat_eq, nat_le, nat_lt, ◌||◌, ◌&&◌, ◌↔◌, IsTrue};
ghost use Rattle.std.specs.List.{list_all, list_any};
ghost use Rattle.pj_name.specs.Name.{name_below, same_name};
ghost use Rattle.pj_change.specs.Rules.{IsChange};
ghost use Rattle.pj_change.specs.Rules as rule;
ghost use Rattle.pj_change.specs.Parts.{parts};

use crate::disjoint::are_disjoint;
use crate::hunk::Hunk;
use crate::length::{hunks_fit, others_length};
use crate::limits::{
    MOST_BYTES_OF_VERSION_1, MOST_HUNKS, MOST_KNOWN_NAMES, MOST_LINE_BYTES, MOST_LIST_MEMBERS,
    MOST_NAME_BYTES, MOST_NEEDS, MOST_TEXT_BYTES,
};
use crate::point::Ref;
use pj_name::Name;

/// Whether a text may have this version.
fn is_version(version: u8) -> bool
    ensures { result ≡ (nat_eq version 1 || nat_eq version 2) }
{
    version == 1 || version == 2
}

/// Whether the bytes may be a message or an author.
#[tactic(auto, unfolding(crate::specs::Rules::is_line))]
fn is_line(bytes: &[u8]) -> bool
    ensures { result ≡ rule.is_line bytes.now }
{
    bytes.len() <= MOST_LINE_BYTES && lacks(bytes, b'\n')
}

/// Whether the bytes may be the name of a file or a directory.
#[tactic(auto, unfolding(crate::specs::Rules::is_file_name))]
fn is_file_name(bytes: &[u8]) -> bool
    ensures { result ≡ rule.is_file_name bytes.now }
{
    1 <= bytes.len()
        && bytes.len() <= MOST_NAME_BYTES
        && lacks(bytes, 0)
        && lacks(bytes, b'\n')
        && lacks(bytes, b'/')
        && bytes != b".".as_slice()
        && bytes != b"..".as_slice()
}

/// Whether the byte is not among the bytes.
fn lacks(bytes: &[u8], byte: u8) -> bool
    ensures { result ≡ rule.lacks byte bytes.now }
{
    bytes.iter().all(|other| *other != byte)
}

/// Whether each name is below the next.
fn names_rise(names: &[Name]) -> bool
    ensures { result ≡ rule.rising name_below names.now }
{
    names.is_sorted_by(|name, next| name.cmp(next).is_lt())
}

/// Whether none of the names is a need.
fn no_need_is_known(needs: &[Name], knows: &[Name]) -> bool
    ensures { result ≡ list_all (λ k. not (list_any (same_name k) needs.now)) knows.now }
{
    knows.iter().all(|name| !needs.contains(name))
}

/// The first version of the text that has the hunk.
fn version_of(hunk: &Hunk) -> u8
    ensures { result ≡ rule.version_of hunk.now }
{
    match hunk {
        Hunk::File { exec, .. } | Hunk::NameOf { exec, .. } => { if *exec { 2 } else { 1 } }
        Hunk::Revive { .. } => 2,
        Hunk::Dir { .. } | Hunk::Insert { .. } | Hunk::Order { .. } | Hunk::Delete { .. } => 1,
    }
}

/// Whether the version of the text has each of the hunks.
fn are_of_version(version: u8, hunks: &[Hunk]) -> bool
    ensures { result ≡ list_all (λ h. nat_le (rule.version_of h) version) hunks.now }
{
    hunks.iter().all(|hunk| version_of(hunk) <= version)
}

/// Whether a hunk whose first position is `first` may have the reference, in a change with so many needs.
#[tactic(auto, unfolding(crate::specs::Rules::is_ref))]
fn is_ref(needs: usize, first: u64, at: Ref) -> bool
    ensures { result ≡ rule.is_ref needs first at }
{
    match at {
        Ref::Root => true,
        Ref::At { owner, offset } => {
            owner as usize <= needs && (owner != 0 || u64::from(offset) < first)
        }
    }
}

/// Whether the hunk may have each of the references.
fn are_each_ref(needs: usize, first: u64, refs: &[Ref]) -> bool
    ensures { result ≡ list_all (rule.is_ref needs first) refs.now }
{
    refs.iter().all(|at| is_ref(needs, first, *at))
}

/// Whether each reference is below the next.
fn refs_rise(refs: &[Ref]) -> bool
    ensures { result ≡ rule.rising rule.ref_below refs.now }
{
    refs.is_sorted_by(|at, next| at < next)
}

/// Whether the hunk may have the list of references.
#[tactic(auto, unfolding(crate::specs::Rules::are_refs))]
fn are_refs(needs: usize, first: u64, refs: &[Ref]) -> bool
    ensures { result ≡ rule.are_refs needs first refs.now }
{
    refs.len() <= MOST_LIST_MEMBERS && refs_rise(refs) && are_each_ref(needs, first, refs)
}

/// Whether the number is that of a need.
#[tactic(auto, unfolding(crate::specs::Rules::is_need))]
fn is_need(needs: usize, owner: u32) -> bool
    ensures { result ≡ rule.is_need needs owner }
{
    1 <= owner && owner as usize <= needs
}

/// Whether each number is that of a need.
fn are_each_need(needs: usize, by: &[u32]) -> bool
    ensures { result ≡ list_all (rule.is_need needs) by.now }
{
    by.iter().all(|owner| is_need(needs, *owner))
}

/// Whether each number is below the next.
fn owners_rise(by: &[u32]) -> bool
    ensures { result ≡ rule.rising nat_lt by.now }
{
    by.is_sorted_by(|owner, next| owner < next)
}

/// Whether the numbers may be those of a deletion.
#[tactic(auto, unfolding(crate::specs::Rules::are_owners))]
fn are_owners(needs: usize, by: &[u32]) -> bool
    ensures { result ≡ rule.are_owners needs by.now }
{
    1 <= by.len() && by.len() <= MOST_LIST_MEMBERS && owners_rise(by) && are_each_need(needs, by)
}

/// Whether a hunk may delete or revive these positions by these needs.
#[tactic(auto, unfolding(crate::specs::Rules::is_range))]
fn is_range(needs: usize, owner: u32, start: u32, end: u32, by: &[u32]) -> bool
    ensures { result ≡ rule.is_range needs owner start end by.now }
{
    is_need(needs, owner) && start < end && are_owners(needs, by)
}

/// Whether a hunk may insert bytes at these references.
fn is_insertion(
    needs: usize,
    first: u64,
    file: Ref,
    ups: &[Ref],
    downs: &[Ref],
    bytes: &[u8],
) -> bool
    ensures { result ≡ (rule.is_ref needs first file
        && nat_le 1 (length ups.now) && rule.are_refs needs first ups.now
        && rule.are_refs needs first downs.now
        && nat_le 1 (length bytes.now)) }
{
    is_ref(needs, first, file)
        && 1 <= ups.len()
        && are_refs(needs, first, ups)
        && are_refs(needs, first, downs)
        && 1 <= bytes.len()
}

/// Whether a change with so many needs may have the hunk, whose first position is `first`.
#[tactic(auto, unfolding(crate::specs::Rules::is_hunk))]
pub(crate) fn is_hunk(needs: usize, first: u64, hunk: &Hunk) -> bool
    ensures { result ≡ rule.is_hunk needs first hunk.now }
{
    match hunk {
        Hunk::File { parent, name, .. } | Hunk::Dir { parent, name } => {
            is_ref(needs, first, *parent) && is_file_name(name.items())
        }
        Hunk::NameOf {
            parent,
            child,
            name,
            ..
        } => {
            is_ref(needs, first, *parent)
                && is_ref(needs, first, *child)
                && is_file_name(name.items())
        }
        Hunk::Insert {
            file,
            ups,
            downs,
            bytes,
        } => {
            is_insertion(
                needs,
                first,
                *file,
                ups.items(),
                downs.items(),
                bytes.items(),
            )
        }
        Hunk::Order {
            file,
            source,
            target,
        } => {
            is_ref(needs, first, *file)
                && is_ref(needs, first, *source)
                && is_ref(needs, first, *target)
        }
        Hunk::Delete {
            owner,
            start,
            end,
            by,
        }
        | Hunk::Revive {
            owner,
            start,
            end,
            by,
        } => { is_range(needs, *owner, *start, *end, by.items()) }
    }
}

/// Whether the version, the message and the author keep their rules.
fn lines_hold(version: u8, message: &[u8], author: &[u8]) -> bool
    ensures { result ≡ ((nat_eq version 1 || nat_eq version 2)
        && rule.is_line message.now && rule.is_line author.now) }
{
    is_version(version) && is_line(message) && is_line(author)
}

/// Whether the needs and the other names that a change knows keep their rules.
fn names_hold(needs: &[Name], knows: &[Name]) -> bool
    ensures { result ≡ (nat_le (length needs.now) 256 && nat_le (length knows.now) 1024
        && rule.rising name_below needs.now && rule.rising name_below knows.now
        && list_all (λ k. not (list_any (same_name k) needs.now)) knows.now) }
{
    needs.len() <= MOST_NEEDS
        && knows.len() <= MOST_KNOWN_NAMES
        && names_rise(needs)
        && names_rise(knows)
        && no_need_is_known(needs, knows)
}

/// Whether the hunks are few enough, of the version, and without a common position of what they delete or revive.
fn hunks_hold(version: u8, hunks: &[Hunk]) -> bool
    ensures { result ≡ (nat_le (length hunks.now) 4096
        && list_all (λ h. nat_le (rule.version_of h) version) hunks.now
        && rule.each_pair rule.apart hunks.now) }
{
    hunks.len() <= MOST_HUNKS && are_of_version(version, hunks) && are_disjoint(hunks)
}

/// The most bytes of a text of this version.
fn longest(version: u8) -> u64
    ensures { result ≡ rule.longest version }
{
    if version == 1 {
        MOST_BYTES_OF_VERSION_1 as u64
    } else {
        MOST_TEXT_BYTES as u64
    }
}

/// Whether the parts keep the rules of a change.
pub(crate) fn keep_rules(
    version: u8,
    message: &[u8],
    author: &[u8],
    time: u32,
    needs: &[Name],
    knows: &[Name],
    hunks: &[Hunk],
) -> bool
    ensures { IsTrue result
        ↔ IsChange (parts version message.now author.now time needs.now knows.now hunks.now) }
{
    if !lines_hold(version, message, author) {
        return false;
    }
    if !names_hold(needs, knows) {
        return false;
    }
    if !hunks_hold(version, hunks) {
        return false;
    }
    let others = others_length(version, message, author, time, needs, knows);
    hunks_fit(needs.len(), others, longest(version), hunks)
}
