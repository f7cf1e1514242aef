//! The law, as the contract of a function that does nothing.
ghost use Rattle.pj_course.specs.Laws.{ZeroFollows, LaterFollows};

/// A change of a large run may follow a list that holds its needs and not itself.
pub fn changes_follow()
    ensures zero { ZeroFollows }
    ensures later { LaterFollows }
{}
