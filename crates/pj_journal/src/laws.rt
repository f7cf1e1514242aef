//! Laws of stored files, each the contract of a function that does nothing.
ghost use Rattle.pj_journal.specs.Laws.{StoresOneList, TornTailNeverReturns};

/// A file stores one list at most.
pub fn stores_one_list()
    ensures { StoresOneList }
{}

/// A torn tail never comes back: what a crash left in the middle of an append, opened again and appended to, stores its list
/// and the new string.
pub fn torn_tail_never_returns()
    ensures { TornTailNeverReturns }
{}
