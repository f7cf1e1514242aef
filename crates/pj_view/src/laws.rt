//! The laws of the view of a list, each as the contract of a function that does nothing.

ghost use Rattle.pj_view.specs.Laws.{GraphIsView, GraphIsWhole, NoChangeHasNoRow, OthersAreKept};

/// The graph of any list keeps the law of views.
pub fn graphs_are_whole()
    ensures { GraphIsWhole }
{}

/// The graph of a lawful list is a view of it: it has the text of the list and the inodes of its files, with the block and order
/// edges between them.
pub fn graphs_are_views()
    ensures { GraphIsView }
{}

/// A change more leaves each dead vertex as it is that has none of some points, of which one lies in each vertex of the later graph in
/// which dead text, or what stands beside it, can differ: with its last point, its dead neighbours, and edges from live vertices with
/// the same last points and to the same live vertices.
pub fn other_dead_vertices_are_kept()
    ensures { OthersAreKept }
{}

/// The graph of no change has no row.
pub fn no_change_has_no_row()
    ensures { NoChangeHasNoRow }
{}
