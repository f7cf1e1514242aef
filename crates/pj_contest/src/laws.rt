//! The laws of the tables of contests, each as the contract of a function that does nothing.

ghost use Rattle.pj_contest.specs.Laws.{OfMembers, SameCounts};

/// The table of a list is that of each list with the same members, so the order in which changes came does not matter.
pub fn contests_are_of_the_set()
    ensures members { OfMembers }
    ensures counts { SameCounts }
{}
