//! The laws of exchanges, each as the contract of a function that does nothing.
ghost use Rattle.pj_exchange.specs.Laws.{AtMostOneEnd, CountsApplications, DueIsThere, ExchangeUnites};
ghost use Rattle.pj_exchange.specs.Laws.{HonestEnds, HonestIsWhole, OnlyGrows, SideGrows, SidesAreNeverOdd};
ghost use Rattle.pj_exchange.specs.Laws.{UnitedAgree};

/// An exchange that comes to its end leaves the union of both lists on both sides, each with its own
/// changes first.
pub fn exchange_unites()
    ensures { ExchangeUnites }
{}

/// The two unions have one set of changes, one graph and one print, where a name that both stores have
/// has one text.
pub fn united_agree()
    ensures { UnitedAgree }
{}

/// A side never says what no side says: names that are no log, the text of another change, or a change
/// that is malformed or does not follow the list.
pub fn sides_are_never_odd()
    ensures { SidesAreNeverOdd }
{}

/// What is asked here is `log`, then `new` where the channel is not there, and then only what adds to
/// the channel; and so there, but for `new`.
pub fn only_grows()
    ensures { OnlyGrows }
{}

/// However an exchange ends, the list that a side has at its last place begins with that at its first,
/// and both are lawful.
pub fn side_grows()
    ensures { SideGrows }
{}

/// Where the bytes that come begin with the replies of a side to all that was sent, the reply that is due
/// stands there: it is neither strange nor too long, and not cut where nothing is left.
pub fn due_is_there()
    ensures { DueIsThere }
{}

/// With an honest server an exchange ends neither as strange nor as cut, nor at a refusal here but that of
/// a limit, and a whole one has united both. Where besides no reply is a refusal, no limit is reached and
/// the outside did not fail, it is whole, or memory ran out.
pub fn honest_ends()
    ensures ends { HonestEnds }
    ensures whole { HonestIsWhole }
{}

/// What an exchange tells that it took are the entries of the pass that apply a change, and what it gave
/// are the requests that do.
pub fn counts_applications()
    ensures { CountsApplications }
{}

/// The causes of ends exclude each other, but for faults of the outside and memory, which may run out
/// anywhere.
pub fn one_end()
    ensures { AtMostOneEnd }
{}
