//! The laws of large runs, each as the contract of a function that does nothing.
ghost use Rattle.pj_load.specs.Laws.{HasWhatStands};

/// After plain commands a channel has just the changes that stand.
pub fn has_what_stands()
    ensures { HasWhatStands }
{}
