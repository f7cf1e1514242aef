//! The contested hunks of a table of contests.

use pj_contest::Contests;
use pj_states::{ContestedHunks, HunkAt};

/// The contested hunks of a table of contests.
#[derive(Drop)]
pub struct ContestedIn<'a> {
    pub contests: &'a Contests,
}

impl ContestedHunks for ContestedIn<'_> {
    ghost use Rattle.std.specs.Prelude.{nat_lt};
    ghost use Rattle.pj_ranges.specs.Units.{hunk_cmp};
    ghost use Rattle.pj_rows.specs.Keys.{number_at};

    ghost contested = { λ c k. nat_lt 0 (number_at hunk_cmp k c.contests.now.counts) };

    fn is_contested(&self, by: HunkAt) -> bool {
        let contests = self.contests;
        contests.contested(by.change, by.hunk)
    }
}
