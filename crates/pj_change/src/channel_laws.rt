//! The laws of channels over the lists that they hold, each as the contract of a function that does nothing.

ghost use Rattle.pj_change.specs.ChannelLaws.{AsNeverApplied, LawfulHasOneText, ListsAreRuns, NoTrace, NothingIsMadeUp, OneListLeft, OrdersAgree, PrintAnswerIsShared, PullAssociates, PullCommutes, PullGraphCommutes, PullPrintCommutes, PullsItself, PullsOnce, RunsAreLawful, SetsHaveOnePrint, SmallerSetsGraph, SmallerSetsPrint, UnrecordedIsLawful, UprootsOneAlone};
ghost use Rattle.pj_change.specs.Laws.{SameGraph};

/// A run leaves one list. It is lawful, and has no change that was not there or brought by the run.
pub fn runs_are_lawful()
    ensures one { OneListLeft }
    ensures lawful { RunsAreLawful }
    ensures brought { NothingIsMadeUp }
{}

/// Every lawful list is left by a run, and the graph and the answer to a print depend on the set alone: all orders agree.
pub fn orders_agree()
    ensures lists { ListsAreRuns }
    ensures sets { SameGraph }
    ensures orders { OrdersAgree }
    ensures prints { SetsHaveOnePrint }

    // What answers a print of one list answers one of the other, also where records with equal names have different texts.
    ensures shared { PrintAnswerIsShared }

    // A lawful list has one text per name.
    ensures texts { LawfulHasOneText }
{}

/// A change that is taken out again leaves no trace: the list, the graph and the print are those of the smaller set.
pub fn unrecord_leaves_no_trace()
    ensures last { NoTrace }
    ensures earlier { AsNeverApplied }
    ensures lawful { UnrecordedIsLawful }
    ensures graph { SmallerSetsGraph }
    ensures print { SmallerSetsPrint }
{}

/// Where no change needs it, an uproot takes out the change alone.
pub fn uproot_takes_one_alone()
    ensures { UprootsOneAlone }
{}

/// A pull is idempotent and associative on lists, and commutative on sets, graphs and answers to a print.
pub fn pull_is_a_union()
    ensures again { PullsOnce }
    ensures itself { PullsItself }
    ensures associative { PullAssociates }
    ensures commutative { PullCommutes }
    ensures graph { PullGraphCommutes }
    ensures print { PullPrintCommutes }
{}
