//! The journal.
ghost use Rattle.std.specs.Prelude.{◌≡◌};

use crate::command::Write;
use std::marker::Model;

/// A write that was entered.
#[derive(Drop)]
pub struct Entry {
    /// The number of the pass that made it.
    pub pass: u32,
    /// Which of the pass's calls made it, counted from 1.
    pub call: u64,
    pub write: Write,
}

/// A journal: entries in order, numbered from 1.
#[derive(Drop)]
pub struct Entries {
    items: Vec<Entry>,
}

impl Model for Entries {
    ghost use Rattle.std.specs.Prelude.{List};
    ghost use Rattle.pj_machine.specs.declared.journal.Entry.{Entry};

    ghost Value = { List Entry };

    ghost view = { λ e. e.items.items };
}

impl Entries {
    /// The journal of these entries.
    pub fn of(items: Vec<Entry>) -> Entries
        ensures { result ≡ items.items }
    {
        Entries { items }
    }

    /// Its entries.
    pub fn items(&self) -> &[Entry]
        ensures { result.now ≡ self.now }
    {
        self.items.as_slice()
    }
}
