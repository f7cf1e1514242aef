//! The laws of sessions, each as the contract of a function that does nothing.
ghost use Rattle.pj_session.specs.Laws.{StaysSpoken, AreFirst};
ghost use Rattle.pj_session.specs.Entering.{EntersAccepted, AcceptedInOrder};

/// What was spoken in a journal was spoken in each longer one, where the pass has no more entries there.
pub fn spoke_later()
    ensures { StaysSpoken }
{}

/// Requests with which bytes begin are the first ones of the requests of the bytes.
pub fn first_requests()
    ensures { AreFirst }
{}

/// The entries of a pass are the writes of its accepted requests, all of them and in their order.
pub fn enters_accepted()
    ensures { EntersAccepted }
{}

/// Where each request was accepted, the entries are of all calls of the pass, one after the other.
pub fn accepted_in_order()
    ensures { AcceptedInOrder }
{}
