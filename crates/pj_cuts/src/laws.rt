//! The laws of the table of a set, each as the contract of a function that does nothing.

ghost use Rattle.pj_cuts.specs.Laws.{CountedWhereCut, FreeWhereNew, BlocksWhereHeld, CutsWhereHeld, FitsWhereContext};

/// In the table of a set a cut is counted exactly where the set cuts.
pub fn cuts_are_counted()
    ensures { CountedWhereCut }
{}

/// The table of a set has no block of a change that is not in it, and all of one that is.
pub fn blocks_are_held()
    ensures free { FreeWhereNew }
    ensures held { BlocksWhereHeld }
    ensures cuts { CutsWhereHeld }
{}

/// A position stands after each up and each source of a change whose context holds.
pub fn contexts_fit()
    ensures { FitsWhereContext }
{}
