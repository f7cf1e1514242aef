//! Laws over the definitions alone.
ghost use Rattle.pj_wire.specs.Laws.{PrefixFree, AtMostOneReading, CutAnywhere, StrangeStays, PartHasNone, GivesAllRequests, RepliesArePrefixFree, RepliesAreReadBack, SoManyAreReadBack};

/// No request is a proper front of another, a request is spelled by one command, and a command by one request.
pub fn requests_are_prefix_free()
    ensures free { PrefixFree }
    ensures part { PartHasNone }
{}

/// Bytes have at most one list of requests.
pub fn one_reading()
    ensures { AtMostOneReading }
{}

/// The requests of bytes do not depend on how they are cut in two.
pub fn cut_anywhere()
    ensures { CutAnywhere }
{}

/// After `Bad` it is `Bad`, whatever is fed.
pub fn bad_stays()
    ensures { StrangeStays }
{}

/// A decoder gives the requests of all that it was fed, in whatever pieces.
pub fn gives_all_requests()
    ensures { GivesAllRequests }
{}

/// No reply is a proper front of another, and replies that are written one after the other are read back in one way.
pub fn replies_are_prefix_free()
    ensures free { RepliesArePrefixFree }
    ensures all { RepliesAreReadBack }
    ensures so_many { SoManyAreReadBack }
{}
