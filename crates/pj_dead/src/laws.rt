//! The laws of pseudo rows, each as the contract of a function that does nothing.

ghost use Rattle.pj_dead.specs.Laws.{RowsArePseudoRows, PathsByRows};

/// The rows of a view of a lawful set are the pseudo rows of the set.
pub fn rows_are_pseudo_rows()
    ensures { RowsArePseudoRows }
{}

/// In a view, a path between live vertices is one of edges and rows between live vertices.
pub fn before_by_rows()
    ensures { PathsByRows }
{}
