//! The summary, by what was seen.
ghost use Rattle.std.specs.Prelude.{◌≡◌, ◌-◌, ◌<◌, ◌≤◌, ℕ, IsTrue, IfSome, All, length, slice_index_or};
ghost use Rattle.pj_gen.specs.Summary.{line_texts, all_texts, IsFoundOf, IsSummary};
ghost use Rattle.pj_load.specs.declared.seeing.Printed.{Printed};

use crate::seeing::Printed;
use pj_gen::{MOST_CHANGES, summary};
use std::alloc::Global;

/// Whether each print was told at this place.
fn all_at(prints: &[Printed], place: u64) -> bool
    ensures { IsTrue result → All (λ p. p.place ≡ place) prints.now }
{
    prints.iter().all(|print| print.place == place)
}

/// The summary by what was found for the channels of the lines and for `main`, each told at this place. `None` where one was not
/// found or was told elsewhere, or memory was wanted.
pub(crate) fn told(
    alloc: Global,
    changes: u32,
    sessions: u32,
    prints: &[Printed],
    place: u64,
) -> Option<Vec<u8>>
    requires { (1 ≤ changes) × (changes ≤ MOST_CHANGES) }
    ensures many { IfSome result (λ _. length prints.now ≡ 9) }
    ensures places { IfSome result (λ _. All (λ p. p.place ≡ place) prints.now) }
    ensures summary { IfSome result (λ bytes. (number : ℕ) (d : Printed)
        → ((l : ℕ) → l < 8 → IsFoundOf (line_texts number l (changes - 1)) (slice_index_or prints.now l d).found)
        → IsFoundOf (all_texts number (changes - 1)) (slice_index_or prints.now 8 d).found
        → IsSummary number changes sessions bytes.items) }
{
    if prints.len() != 9 || !all_at(prints, place) {
        return None;
    }
    let lines = [
        prints[0].found,
        prints[1].found,
        prints[2].found,
        prints[3].found,
        prints[4].found,
        prints[5].found,
        prints[6].found,
        prints[7].found,
    ];
    match summary(alloc, changes, sessions, &lines, prints[8].found) {
        Ok(bytes) => Some(bytes),
        Err(_) => None,
    }
}
