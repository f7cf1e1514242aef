//! The laws of rows, each as the contract of a function that does nothing.

ghost use Rattle.pj_edges.specs.Laws.{OwnRowIsListed, InnerRowIsBefore, SameRowIsEqual, RowOfTableIsGiven, EdgeOfTable};

/// The rows that a change gives by itself are those that its hunks say.
pub fn own_rows_are_said()
    ensures { OwnRowIsListed }
{}

/// The row before a point is the one that leads to it within its block.
pub fn inner_rows_lead_to_points()
    ensures { InnerRowIsBefore }
{}

/// Rows are equal exactly where the orders do not tell them apart.
pub fn same_rows_are_equal()
    ensures { SameRowIsEqual }
{}

/// The table of a set has the rows that its changes give by themselves and those inside blocks where the set cuts, and the edges of a
/// lawful set are read off it.
pub fn tables_are_of_sets()
    ensures given { RowOfTableIsGiven }
    ensures edge { EdgeOfTable }
{}
