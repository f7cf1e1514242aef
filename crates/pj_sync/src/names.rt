//! The names that logs list.

ghost use Rattle.std.specs.Prelude.{◌≡◌, ◌≢◌, ◌++◌, ◌↔◌, ℕ, List, None, IsTrue, AllPairs, IfOk, IfSome, MatchOption, drop};
ghost use Rattle.std.specs.BTreeSet.{contains};
ghost use Rattle.pj_name.specs.Name.{name_cmp};
ghost use Rattle.pj_name.specs.declared.name.Name.{Name as NameOf};
ghost use Rattle.pj_machine.specs.Listings.{log_line, log_text};
ghost use Rattle.pj_exchange.specs.Phases.{is_listed, lacked as lacked_names};

use pj_change::Memory;
use pj_name::Name;
use std::alloc::Global;
use std::collections::BTreeSet;

/// The bytes of a line of a log: 64 digits and a newline.
const LINE: usize = 65;

/// The name in the line with which the text begins, or `None` where it begins with no line of a log.
fn first_name(text: &[u8]) -> Option<Name>
    ensures some { IfSome result (λ name. text.now ≡ log_line name ++ drop 65 text.now) }
    ensures none { result ≡ None → (name : NameOf) (rest : List ℕ) → text.now ≢ log_line name ++ rest }
{
    if text.len() < LINE || text[LINE - 1] != b'\n' {
        return None;
    }
    Name::read(&text[..LINE - 1])
}

/// The names that the body of a `log` lists, in their order, or `None` where no list of names has it.
///
/// # Errors
/// `Memory` where there was no memory for them.
pub fn names_of(alloc: Global, body: &[u8]) -> Result<Option<Vec<Name>>, Memory>
    ensures { IfOk result (λ found. MatchOption found ((names : List NameOf) → body.now ≢ log_text names)
        (λ names. body.now ≡ log_text names.items)) }
{
    let mut names = Vec::new(alloc);
    let mut rest = body;
    while !rest.is_empty() {
        let Some(name) = first_name(rest) else {
            return Ok(None);
        };
        names.push(name)?;
        rest = &rest[LINE..];
    }
    Ok(Some(names))
}

/// The set of some names.
fn set_of(alloc: Global, names: &[Name]) -> Result<BTreeSet<Name>, Memory>
    ensures { IfOk result (λ set. (name : NameOf) → contains name_cmp set name ≡ is_listed names.now name) }
{
    let mut set = BTreeSet::new(alloc);
    for name in names {
        set.insert(*name)?;
    }
    Ok(set)
}

/// The names of the second list that the first lacks, in the order of the second.
///
/// # Errors
/// `Memory` where there was no memory for them, or for a set of the first list.
pub fn lacked(alloc: Global, mine: &[Name], theirs: &[Name]) -> Result<Vec<Name>, Memory>
    ensures { IfOk result (λ names. names.items ≡ lacked_names mine.now theirs.now) }
{
    let set = set_of(alloc, mine)?;
    let mut names = Vec::new(alloc);
    for name in theirs {
        if !set.contains(name) {
            names.push(*name)?;
        }
    }
    Ok(names)
}

/// Whether no name stands twice in the list.
///
/// # Errors
/// `Memory` where there was no memory for a set of the names.
pub fn are_distinct(alloc: Global, names: &[Name]) -> Result<bool, Memory>
    ensures { IfOk result (λ distinct. IsTrue distinct ↔ AllPairs (λ m n. m ≢ n) names.now) }
{
    let mut set = BTreeSet::new(alloc);
    for name in names {
        if !set.insert(*name)? {
            return Ok(false);
        }
    }
    Ok(true)
}
