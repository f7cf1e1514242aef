//! The laws of the machine, each as the contract of a function that does nothing.
ghost use Rattle.pj_machine.specs.Laws.{AtMostOneReplay, LegalIsReplayed, LegalIsSound, AtMostOneAnswer, RefusedIsNotEntered, EnteredIsReplied};
ghost use Rattle.pj_machine.specs.Told.{NoneIsTold};

/// A legal journal leads to one state. The lists of its channels are lawful, their changes are in the store under the names of
/// their texts, the store has one text for each name, and no two channels have one name.
pub fn replay_is_lawful()
    ensures one { AtMostOneReplay }
    ensures some { LegalIsReplayed }
    ensures sound { LegalIsSound }
{}

/// After a journal a command has at most one answer: one reply, and one write or none.
pub fn one_answer()
    ensures { AtMostOneAnswer }
{}

/// What is refused is not entered; and what is entered is what was asked for, and what the reply says.
pub fn entered_as_replied()
    ensures refused { RefusedIsNotEntered }
    ensures entered { EnteredIsReplied }
{}

/// What enters nothing is not replied as what was entered.
pub fn none_is_told()
    ensures { NoneIsTold }
{}
