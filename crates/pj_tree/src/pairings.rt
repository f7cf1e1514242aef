//! The pairs of names and children that are not dead, each once.

ghost use Rattle.std.specs.Prelude.{◌≡◌, ◌||◌, ℕ, List, ◌∷◌, ◌++◌, [], map, true, false, IfOk, OnOk, MatchOption};
ghost use Rattle.std.specs.List.Sorted.{IsStrictlySortedBy};
ghost use Rattle.pj_change.specs.declared.graph.Status.{Status};
ghost use Rattle.pj_change.specs.declared.point.Point.{Point};
ghost use Rattle.pj_change.specs.declared.print.StepWord.{StepWord};
ghost use Rattle.pj_tree.specs.declared.row.NameRow.{NameRow};
ghost use Rattle.pj_tree.specs.Rows.{row_cmp};
ghost use Rattle.pj_tree.specs.Pairings.{has_word, merged, ArePairings};

use crate::lives::Lives;
use crate::row::NameRow;
use pj_change::{Status, StepWord};
use pj_pmap::Memory;
use std::alloc::Global;

/// A pair of a name and a child in a parent, which a name that is not dead says.
#[derive(Clone, Copy)]
pub struct Pairing<'a> {
    /// The first name that says the pair.
    pub row: &'a NameRow,
    /// Whether a name of the pair is alive.
    pub word: StepWord,
    /// Whether a name of the pair that has the word's status is executable.
    pub exec: bool,
}

impl<'a> Pairing<'a> {
    /// The pairing with one more name of its pair.
    fn with_name(self, word: StepWord, exec: bool) -> Pairing<'a>
        ensures { result ≡ merged self.entry word exec }
    {
        let row = self.row;
        match (self.word, word) {
            (StepWord::Zombie, StepWord::Alive) => Pairing { row, word, exec },
            (StepWord::Alive, StepWord::Alive) | (StepWord::Zombie, StepWord::Zombie) => Pairing {
                row,
                word,
                exec: self.exec || exec,
            },
            _ => self,
        }
    }
}

/// The word of a child by a name of this status, or None for a dead name.
fn word_of(status: Status) -> Option<StepWord>
    ensures { MatchOption result ((w : StepWord) → has_word status w ≡ false) (λ w. has_word status w ≡ true) }
{
    match status {
        Status::Alive => Some(StepWord::Alive),
        Status::Zombie => Some(StepWord::Zombie),
        Status::Dead => None,
    }
}

/// Adds a name that stands after those whose pairs are there.
fn add<'a>(pairings: &mut Vec<Pairing<'a>>, row: &'a NameRow, word: StepWord) -> Result<(), Memory>
    ensures { OnOk result ((status : Point → Status) (rows : List NameRow) → ArePairings status rows pairings.old.items →
        IsStrictlySortedBy row_cmp (rows ++ row.now ∷ []) → has_word (status row.now.at) word ≡ true →
        ArePairings status (rows ++ row.now ∷ []) pairings.new.items) }
{
    let exec = row.exec;
    if let Some(last) = pairings.pop() {
        if last.row.has_pair_of(row) {
            pairings.push(last.with_name(word, exec))?;
            return Ok(());
        }
        pairings.push(last)?;
    }
    pairings.push(Pairing { row, word, exec })?;
    Ok(())
}

/// The pairs of the names that are not dead, in order. The rows are in order.
pub fn pairings_of<'a, V: Lives>(
    alloc: Global,
    rows: &[&'a NameRow],
    lives: &V,
) -> Result<Vec<Pairing<'a>>, Memory>
    requires { IsStrictlySortedBy row_cmp (map (λ r. r.now) rows.now) }
    ensures { IfOk result (λ pairings. ArePairings (V.status lives.now) (map (λ r. r.now) rows.now) pairings.items) }
{
    let mut pairings = Vec::new(alloc);
    for row in rows {
        let row: &'a NameRow = row;
        if let Some(word) = word_of(lives.name(row.at)) {
            add(&mut pairings, row, word)?;
        }
    }
    Ok(pairings)
}
