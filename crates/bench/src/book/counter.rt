//! The counter, and the work that is done with it.
ghost use Rattle.std.specs.Prelude.{◌≡◌, [], ◌∷◌, ◌++◌, length, MatchBool};

use pj_book::{Entry, Journaled, Reading, Writing};
use std::alloc::Global;
use std::marker::Model;

/// Counts how often it was raised, and keeps a journal of it. Contracts see the journal.
#[derive(Drop)]
pub struct Counter {
    count: u64,
    journal: Vec<Entry<u32>>,
}

impl Model for Counter {
    ghost use Rattle.std.specs.Prelude.{◌≡◌, ℕ, List, length};
    ghost use Rattle.pj_book.specs.declared.entry.Entry.{Entry};

    ghost Value = { List (Entry ℕ) };

    ghost view = { λ c. c.journal.items };

    ghost invariant = { λ c. c.count ≡ length c.journal.items };
}

impl Journaled for Counter {
    type Content = u32;

    ghost journal = { λ c. c };

    fn count(&self) -> u64 {
        self.count
    }
}

impl Counter {
    pub fn new(alloc: Global) -> Counter
        ensures { result ≡ [] }
    {
        Counter {
            count: 0,
            journal: Vec::new(alloc),
        }
    }

    /// The journal.
    pub fn entries(&self) -> &[Entry<u32>]
        ensures { result.now ≡ self.now }
    {
        self.journal.as_slice()
    }

    // Raises the count and enters it, and says whether there was memory.
    pub(crate) fn raise(&mut self, entry: Entry<u32>) -> bool
        ensures { MatchBool result (self.new ≡ self.old ++ entry ∷ []) (self.new ≡ self.old) }
    {
        if self.journal.push(entry).is_err() {
            return false;
        }
        self.count += 1;
        true
    }
}

/// Raises the counter under a label that is lent to it, and answers whether there was memory.
#[derive(Clone, Copy)]
pub struct Raise<'a> {
    pub label: &'a u32,
}

impl<'a> Writing<Counter> for Raise<'a> {
    ghost use Rattle.std.specs.Prelude.{◌≡◌, [], ◌∷◌, ◌++◌, MatchBool};

    type Out = bool;

    ghost relates = { λ w before pass call after raised. MatchBool raised (after ≡ before ++ record { pass = pass; call = call; content = w.label.now } ∷ []) (after ≡ before) };

    fn work(self, state: &mut Counter, pass: u32, call: u64) -> bool {
        state.raise(Entry {
            pass,
            call,
            content: *self.label,
        })
    }
}

/// Reads the count.
#[derive(Clone, Copy)]
pub struct Count;

impl Reading<Counter> for Count {
    ghost use Rattle.std.specs.Prelude.{◌≡◌, length};

    type Out = u64;

    ghost relates = { λ _ state count. count ≡ length state };

    fn work(self, state: &Counter) -> u64 {
        state.count()
    }
}

/// Counts how often the counter was raised since it stood at a count that the pass had seen.
#[derive(Clone, Copy)]
pub struct CountSince {
    pub seen: u64,
}

impl Reading<Counter> for CountSince {
    ghost use Rattle.std.specs.Prelude.{◌≡◌, ◌≤◌, ◌+◌, length};

    type Out = u64;

    ghost needs = { λ w state. w.seen ≤ length state };

    ghost relates = { λ w state since. length state ≡ w.seen + since };

    fn work(self, state: &Counter) -> u64 {
        state.count() - self.seen
    }
}
