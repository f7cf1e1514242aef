//! The laws of lists that are restored, each as the contract of a function that does nothing.
ghost use Rattle.pj_stored.specs.Laws.{RequestsAreStored, RestoredIsLegal, AtMostOneRestored, PrefixesAreRestored, CrashesAreRestored, AcceptedAreRestored, StoppedIsNotRestored};

/// What is restored from strings is one legal journal, whose requests are the strings.
pub fn restored_is_lawful()
    ensures requests { RequestsAreStored }
    ensures legal { RestoredIsLegal }
    ensures one { AtMostOneRestored }
{}

/// What a crash leaves of a legal journal opens again: the requests of a prefix of it, which lead to
/// the same writes.
pub fn crashes_are_restored()
    ensures prefixes { PrefixesAreRestored }
    ensures images { CrashesAreRestored }
{}

/// Strings that a new pass accepted where nothing else was entered are restored, and lead to the
/// journal that it saw.
pub fn accepted_are_restored()
    ensures { AcceptedAreRestored }
{}

/// Where a new pass stopped at an entry, and nothing else was entered, the list of the file cannot
/// be restored.
pub fn stopped_is_not_restored()
    ensures { StoppedIsNotRestored }
{}
