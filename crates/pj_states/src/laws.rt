//! The law of the table of a set, as the contract of a function that does nothing.

ghost use Rattle.pj_states.specs.Given.{NothingSaidWhereNew};

/// The table of a set says nothing by a hunk of a change that is not in the set.
pub fn nothing_is_said_by_others()
    ensures { NothingSaidWhereNew }
{}
