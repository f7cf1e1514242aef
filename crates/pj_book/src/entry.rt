//! The journal's entries, and the traits of the state and of the table's name.
ghost use Rattle.std.specs.Prelude.{◌≡◌, length};

use std::marker::Brand;

/// One entry of the journal.
#[derive(Clone, Drop, Debug)]
pub struct Entry<C> {
    /// The number of the pass that made it.
    pub pass: u32,
    /// Which of the pass's calls made it, counted from 1.
    pub call: u64,
    /// What it says.
    pub content: C,
}

/// A state that has a journal.
pub trait Journaled {
    ghost use Rattle.std.specs.Prelude.{List};
    ghost use Rattle.pj_book.specs.declared.entry.Entry.{Entry};

    /// What an entry says.
    type Content;

    ghost journal: { Self → List (Entry Self.Content) };

    /// The journal's length.
    fn count(&self) -> u64
        ensures { result ≡ length (journal self.now) };
}

/// Names the table of one book, so that its passes are known to be of it. `Brand` names any table: a caller passes it
/// to a function that is generic in the name and holds the whole life of the book.
pub trait Named {
    ghost use Rattle.atomic_table.specs.Seated.{TableId};

    ghost table: { TableId };
}

impl Named for Brand {
    ghost use Rattle.std.specs.Prelude.{[]};

    ghost table = { record { words = 0; slots = 0; views_name = 0; atom = 0; block = 0; offset = 0; slot_names = [] } };
}

/// A name that also carries a fact on the state, which holds of every state that the book lends or gives back. It may
/// speak of what was handed in at the start, as a limit, which the state's own invariant cannot name. `Brand` carries
/// any fact, as it names any table.
pub trait Keeps<S>: Named {
    ghost keeps: { S → Type 0 };
}

impl<S> Keeps<S> for Brand {
    ghost keeps = { λ _. Unit {0} };
}
