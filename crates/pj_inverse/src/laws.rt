//! What an inverse undoes, each law as the contract of a function that does nothing.

ghost use Rattle.pj_inverse.specs.Undone.{OthersAreAsWithout, OwnAreDead, UndoneIsLawful};

/// A lawful set with the inverse of one of its changes is lawful. Where no other change works on what the change made or deleted,
/// each byte and each name of the change is dead in it, and each point of another change has the status that it has without the
/// change.
pub fn undone()
    ensures lawful { UndoneIsLawful }
    ensures own { OwnAreDead }
    ensures others { OthersAreAsWithout }
{}
