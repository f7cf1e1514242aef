//! The laws of large runs, each as the contract of a function that does nothing.
ghost use Rattle.pj_gen.specs.Laws.{ScriptsAreWhole, TextsAreChanges};

/// All scripts are requests to their ends, so a session that takes the whole of one asks just its commands and quits.
pub fn scripts_are_whole()
    ensures { ScriptsAreWhole }
{}

/// Every text of a large run is that of a change, if no change that another one follows has the name of change 0.
pub fn texts_are_changes()
    ensures { TextsAreChanges }
{}
