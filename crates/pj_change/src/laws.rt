//! The laws over the definitions alone, each as the contract of a function that does nothing.

ghost use Rattle.pj_change.specs.Laws.{AtMostOneFirstWide, AtMostOneGraph, AtMostOneLayout, AtMostOnePrint, AtMostOneText, AtMostOneUprooted, AtMostOneWalk, BeforeAcrossDead, BeforeByRows, FirstWideIsShared, GraphIsShared, JoinedByRow, OneStatus, OthersAreLawful, PartsAreLawful, PathsAcrossDead, PrintIsShared, SameFirstWide, SameGraph, SamePrint, SameWalk, SomeVersionSurvives, UnionHasBoth, UnionIsLawful, UprootedIsLawful, WalkIsShared};

/// A set of changes has at most one graph.
pub fn one_graph()
    ensures { AtMostOneGraph }
{}

/// A set of classes has at most one layout under a strict order, and so one marked text.
pub fn one_layout()
    ensures { AtMostOneLayout }
{}

/// A file of a set has at most one text.
pub fn one_text()
    ensures { AtMostOneText }
{}

/// A set has at most one walk.
pub fn one_walk()
    ensures { AtMostOneWalk }
{}

/// A set has at most one print.
pub fn one_print()
    ensures { AtMostOnePrint }
{}

/// A set has at most one first wide file for a limit.
pub fn one_first_wide()
    ensures { AtMostOneFirstWide }
{}

/// Lists with the same members have equal graphs, walks, prints and first wide files, in whatever order the changes came.
pub fn order_is_invisible()
    ensures graph { SameGraph }
    ensures walk { SameWalk }
    ensures print { SamePrint }
    ensures first_wide { SameFirstWide }

    // What is one of the one list is one of the other, also where records with equal names have different texts.
    ensures graph_shared { GraphIsShared }
    ensures walk_shared { WalkIsShared }
    ensures print_shared { PrintIsShared }
    ensures first_wide_shared { FirstWideIsShared }
{}

/// In a lawful set each point has a version that survives, and all points of a vertex have its status.
pub fn statuses_are_whole()
    ensures survivor { SomeVersionSurvives }
    ensures status { OneStatus }
{}

/// In a lawful set and in each file, before is the closure of the edges and the rows between live text.
pub fn before_by_rows()
    // Paths between live things go over live things, each joined to the next across dead ones alone. That asks nothing of the relation.
    ensures paths { PathsAcrossDead }

    // So do the paths of edges of a file, and they stay in it.
    ensures across { BeforeAcrossDead }

    // What joins two live vertices across dead text alone is an edge or a row,
    ensures row { JoinedByRow }

    // and so before is the closure of both.
    ensures rows { BeforeByRows }
{}

/// A list without repeats of changes of a lawful set, in which needs stand first, is lawful.
pub fn parts_are_lawful()
    ensures parts { PartsAreLawful }

    // So is a lawful list without a change that no member needs.
    ensures others { OthersAreLawful }
{}

/// One lawful list, and then what it lacks of another one in the other's order, is lawful and has the members of both.
pub fn union_is_lawful()
    ensures lawful { UnionIsLawful }
    ensures both { UnionHasBoth }
{}

/// A lawful list without one of its changes and all that reach it by needs is lawful.
pub fn uprooted_is_lawful()
    ensures lawful { UprootedIsLawful }
    ensures one { AtMostOneUprooted }
{}
