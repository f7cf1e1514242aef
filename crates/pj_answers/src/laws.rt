//! What there is, each law as the contract of a function that does nothing.
ghost use Rattle.pj_answers.specs.Laws.{HasGraph, HasWalk, HasFileText, HasPrint, HasFirstWide, EachHasOneAnswer, InverseHasOneAnswer};

/// A lawful list of changes has a graph, a walk, a text of each file, a print and, for each limit, a first wide file or none.
pub fn lists_have_prints()
    ensures graph { HasGraph }
    ensures walk { HasWalk }
    ensures text { HasFileText }
    ensures print { HasPrint }
    ensures wide { HasFirstWide }
{}

/// After a legal journal each command but `quit` has just one answer: one reply, and one write or none. Of `inverse` it is said
/// where the change does not list its own name among its needs.
pub fn one_answer()
    ensures each { EachHasOneAnswer }
    ensures inverse { InverseHasOneAnswer }
{}
