//! The journal of a repository that is closed.
ghost use Rattle.std.specs.Prelude.{◌≡◌, length, map};
ghost use Rattle.pj_machine.specs.Legal.{IsLegal};
ghost use Rattle.pj_repo.specs.IsJournalOf.{IsJournalOf};
ghost use Rattle.pj_repo.specs.Views.{pass_view};
ghost use Rattle.pj_load.specs.Seats.{AreNumbered};

use pj_book::{Keeps, Pass};
use pj_machine::Entries;
use pj_repo::{LockedState, Repo};

/// The journal of a repository that is closed with all its passes, in the order of their numbers. It takes no memory.
pub fn journal_of<N: Keeps<LockedState>>(
    repo: Repo<N>,
    passes: Vec<Pass<LockedState, N>>,
) -> Entries
    requires row { AreNumbered (map pass_view passes.items) }
    requires count { length passes.items ≡ repo.made }
    ensures journal { IsJournalOf result (map pass_view passes.items) }
    ensures legal { IsLegal repo.limits result }
{
    match repo.finish(passes) {
        Ok(closed) => closed.entries,
        Err(_) => unreachable!(),
    }
}
