//! The laws over what stands in a set point by point, each as the contract of a function that does nothing.

ghost use Rattle.pj_change.specs.SetLaws.{AtMostOneCovers, AtMostOneVersion, ContestInSurvivors, ContestedWhereCounted, CutWhereCounted, DeletionInSurvivors, EachPointInOneVertex, EdgeByRow, HasSurvivors, InnerRowWhereCut, LifeInSurvivors, OnlyPointsInVertices, PairsOfOne, SameContests, SameCuts, SameSurvivors};

/// Each byte, name and inode of a set lies in exactly one vertex, and nothing else lies in one.
pub fn each_point_in_one_vertex()
    ensures one { EachPointInOneVertex }
    ensures only { OnlyPointsInVertices }
{}

/// A point is cut exactly where a cut is counted before it, and the count is of the set.
pub fn cuts_are_counted()
    ensures counted { CutWhereCounted }
    ensures same { SameCuts }
{}

/// A hunk is contested exactly where a change that contests it is counted, and the count is of the set.
/// A change that none needs brings its pairs with the others, and takes just these away.
pub fn contests_are_counted()
    ensures counted { ContestedWhereCounted }
    ensures same { SameContests }
    ensures pairs { PairsOfOne }
{}

/// At most one hunk of a change covers a point, so a change has at most one surviving version of it.
pub fn one_version_of_each()
    ensures hunk { AtMostOneCovers }
    ensures version { AtMostOneVersion }
{}

/// A point of a set has one list of surviving versions, from which its status is read.
pub fn versions_give_statuses()
    ensures there { HasSurvivors }
    ensures same { SameSurvivors }
    ensures deleted { DeletionInSurvivors }
    ensures alive { LifeInSurvivors }
    ensures contested { ContestInSurvivors }
{}

/// An edge of a lawful set is a row with the status of the rule, and a row inside a block stands where the set cuts.
pub fn edges_are_rows()
    ensures edge { EdgeByRow }
    ensures inner { InnerRowWhereCut }
{}
