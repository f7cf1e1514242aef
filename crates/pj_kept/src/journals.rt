//! The journal of a repository that was restored by pass 1, and spoken to by pass 2.
ghost use Rattle.std.specs.Prelude.{◌≡◌, ◌≤◌, [], vec_capacity};
ghost use Rattle.pj_machine.specs.Call.{own};
ghost use Rattle.pj_machine.specs.Legal.{IsLegal};
ghost use Rattle.pj_repo.specs.Views.{pass_view};
ghost use Rattle.pj_kept.specs.Journals.{IsOfOne, IsOfTwo};

use pj_book::{Keeps, Pass};
use pj_load::journal_of;
use pj_machine::Entries;
use pj_repo::{LockedState, Repo};

/// The journal where pass 1 alone was asked.
pub(crate) fn journal_of_one<N: Keeps<LockedState>>(
    repo: Repo<N>,
    mut passes: Vec<Pass<LockedState, N>>,
    zero: Pass<LockedState, N>,
    first: Pass<LockedState, N>,
) -> Entries
    requires made { repo.made ≡ 2 }
    requires room { (passes.items ≡ []) × (2 ≤ vec_capacity passes) }
    requires zero { (zero.number ≡ 0) × (own (pass_view zero) ≡ []) }
    requires first { first.number ≡ 1 }
    ensures journal { IsOfOne result (pass_view first) }
    ensures legal { IsLegal repo.limits result }
{
    passes.push_reserved(zero);
    passes.push_reserved(first);
    journal_of(repo, passes)
}

/// The journal where passes 1 and 2 were asked.
pub(crate) fn journal_of_two<N: Keeps<LockedState>>(
    repo: Repo<N>,
    mut passes: Vec<Pass<LockedState, N>>,
    zero: Pass<LockedState, N>,
    first: Pass<LockedState, N>,
    second: Pass<LockedState, N>,
) -> Entries
    requires made { repo.made ≡ 3 }
    requires room { (passes.items ≡ []) × (3 ≤ vec_capacity passes) }
    requires zero { (zero.number ≡ 0) × (own (pass_view zero) ≡ []) }
    requires first { first.number ≡ 1 }
    requires second { second.number ≡ 2 }
    ensures journal { IsOfTwo result (pass_view first) (pass_view second) }
    ensures legal { IsLegal repo.limits result }
{
    passes.push_reserved(zero);
    passes.push_reserved(first);
    passes.push_reserved(second);
    journal_of(repo, passes)
}
