//! The law over the definition of layouts, as the contract of a function that does nothing.

ghost use Rattle.pj_layout.specs.Laws.{ExactlyOneLayout};

/// Each strict order of finitely many classes has exactly one layout.
pub fn one_layout()
    ensures { ExactlyOneLayout }
{}
