//! The laws of outlines, each as the contract of a function that does nothing.

ghost use Rattle.pj_outline.specs.Ends.{RowLeavesLastPoint, RowEntersFirstPoint, VertexOfTable, TableOfVertex};
ghost use Rattle.pj_outline.specs.Steps.{StepsByWeight, OutlineOfMembers};

/// The steps for a change are bounded by its hunks, its references and the names under its `by`.
pub fn steps_are_bounded()
    ensures { StepsByWeight }
{}

/// The outline of a list is that of each list with the same members.
pub fn outlines_are_of_members()
    ensures { OutlineOfMembers }
{}

/// The rows out of a vertex are those whose source is its last point, and the rows into a vertex those whose target is its first point.
pub fn rows_join_vertices_at_their_ends()
    ensures leaves { RowLeavesLastPoint }
    ensures enters { RowEntersFirstPoint }
{}

/// The vertex that a table of cuts shows for a position is one of the list.
pub fn shown_vertices_are_of_the_list()
    ensures { VertexOfTable }
{}

/// A table of cuts shows each vertex of text of the list at each of its positions.
pub fn vertices_of_text_are_shown()
    ensures { TableOfVertex }
{}
