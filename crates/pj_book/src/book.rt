//! The book: the table with the one word, the lock round the state, and the seat that draws numbers.
ghost use Rattle.std.specs.Prelude.{◌≡◌, ◌≢◌, ◌+◌, ◌<◌, ◌^◌, [], length, IfOk, IfErr, OnErr, All};
ghost use mathlib.Core.List.{IsPrefix};
ghost use Rattle.pj_book.specs.Token.{own};
ghost use Rattle.pj_book.specs.Lent.{MeetsNeeds, KeepsFact, Looked, Wrote};
ghost use Rattle.pj_book.specs.IsAll.{IsAll};
ghost use Rattle.pj_book.specs.IsOf.{IsOf};

use crate::desk::Desk;
use crate::entry::{Journaled, Keeps};
use crate::lock::taken;
use crate::parked::Parked;
use crate::pass::Pass;
use crate::rule::{Draw, Law, Note, View};
use crate::work::{Reading, Writing};
use atomic_table::{Seat, Table};
use pj_memory::Memory;
use std::alloc::Global;
use std::marker::{Model, PhantomData};
use std::sync::{Mutex, Wait};

/// The table of a book that has no name yet. Contracts see which table it is.
#[derive(Drop)]
pub struct Blank<S: Journaled + Drop> {
    table: Table<S, View<S::Content>, (), Law, Global>,
    seat: Seat<S, View<S::Content>>,
}

impl<S: Journaled + Drop> Model for Blank<S> {
    ghost use Rattle.std.specs.Prelude.{◌≡◌, [], true};
    ghost use Rattle.atomic_table.specs.Seated.{TableId};
    ghost use Rattle.pj_book.specs.View.{counter};

    ghost Value = { TableId };

    ghost view = { λ b. b.table.shared.table_id };

    ghost invariant = { λ b. (b.table.shared.table_id.words ≡ 1)
        × (b.seat.table_id ≡ b.table.shared.table_id) × (b.seat.me ≡ (counter true 0 [], [])) };
}

impl<S: Journaled + Drop> Blank<S> {
    /// The table with its one word.
    ///
    /// # Errors
    ///
    /// `Memory`, where none is left for the word.
    pub fn new(alloc: Global) -> Result<Blank<S>, Memory> {
        let (table, seat) = Table::of_words(alloc, &[0], &())?;
        Ok(Blank { table, seat })
    }
}

/// A state behind a lock, and the numbers that its passes have. Contracts see how many passes were made.
#[derive(Drop)]
pub struct Book<S: Journaled + Drop, N: Keeps<S>> {
    table: Table<S, View<S::Content>, (), Law, Global>,
    desk: Mutex<Desk<S, N>>,
    drawer: Parked<S, View<S::Content>>,
    made: u64,
}

impl<S: Journaled + Drop, N: Keeps<S>> Model for Book<S, N> {
    ghost use Rattle.std.specs.Prelude.{◌≡◌, ℕ, [], false};
    ghost use Rattle.pj_book.specs.View.{counter};

    ghost Value = { ℕ };

    ghost view = { λ b. b.made };

    ghost invariant = { λ b. (b.table.shared.table_id ≡ N.table) × (b.table.shared.table_id.words ≡ 1)
        × (b.drawer.table_id ≡ N.table) × (b.drawer.me ≡ (counter false b.made [], [])) };
}

impl<S: Journaled + Drop, N: Keeps<S>> Book<S, N> {
    /// A book of this state, with the pass number 0. It takes no memory.
    pub fn start(blank: Blank<S>, state: S) -> (Book<S, N>, Pass<S, N>)
        requires table { blank ≡ N.table }
        requires empty { S.journal state ≡ [] }
        requires keeps { N.keeps state }
        ensures made { result.0 ≡ 1 }
        ensures pass { result.1 ≡ record { number = 0; calls = 0; seen = [] } }
    {
        let Blank {
            table,
            seat: mut first,
        } = blank;
        let keeper = table.shared.split_seat::<Note>(&mut first);
        let seat = table.shared.split_seat::<Draw>(&mut first);
        let desk = Desk {
            state,
            keeper,
            of: PhantomData,
        };
        let pass = Pass {
            number: 0,
            calls: 0,
            seat,
            of: PhantomData,
        };
        let book = Book {
            table,
            desk: Mutex::new(desk),
            drawer: Parked::new(first),
            made: 1,
        };
        (book, pass)
    }

    /// How many passes were made, the pass number 0 among them.
    pub fn made(&self) -> u64
        ensures { result ≡ self.now }
    {
        self.made
    }

    /// A new pass, which has made no call and has seen what `from` has then seen. It takes no memory.
    pub fn pass<R: Wait>(&mut self, rt: &R, from: &mut Pass<S, N>) -> Pass<S, N>
        requires { self.old < 2 ^ 32 }
        ensures new { result ≡ record { number = self.old; calls = 0; seen = from.new.seen } }
        ensures new_own { own result ≡ [] }
        ensures made { self.new ≡ self.old + 1 }
        ensures from { from.new ≡ record from.old { seen = from.new.seen } }
        ensures from_own { own from.new ≡ own from.old }
        ensures from_sees { IsPrefix from.old.seen from.new.seen }
    {
        let mut fresh = self.draw();
        self.show_both(rt, from, &mut fresh);
        fresh
    }

    // Draws the next number, for a pass that has seen nothing.
    fn draw(&mut self) -> Pass<S, N>
        requires { self.old < 2 ^ 32 }
        ensures new { result ≡ record { number = self.old; calls = 0; seen = [] } }
        ensures made { self.new ≡ self.old + 1 }
    {
        let number = self.made as u32;
        let table = &self.table;
        let drawer = &mut self.drawer;
        let seat = table.shared.split_seat::<Draw>(&mut drawer.seat);
        self.made += 1;
        Pass {
            number,
            calls: 0,
            seat,
            of: PhantomData,
        }
    }

    // Two passes see the same journal.
    fn show_both<R: Wait>(&self, rt: &R, one: &mut Pass<S, N>, other: &mut Pass<S, N>)
        ensures one { one.new ≡ record one.old { seen = one.new.seen } }
        ensures one_own { own one.new ≡ own one.old }
        ensures one_sees { IsPrefix one.old.seen one.new.seen }
        ensures other { other.new ≡ record other.old { seen = one.new.seen } }
        ensures other_own { own other.new ≡ own other.old }
    {
        let table = &self.table;
        let mut guard = taken(rt, &self.desk);
        let desk = &mut *guard;
        desk.show(&table.shared, one);
        desk.show(&table.shared, other);
    }

    /// Lends the state to work that reads it, under the lock. It is one call of the pass.
    pub fn look<F: Reading<S>, R: Wait>(&self, rt: &R, pass: &mut Pass<S, N>, work: F) -> F::Out
        requires calls { pass.old.calls < 2 ^ 63 }
        requires needs { MeetsNeeds S.journal N.keeps pass.old.seen (F.needs work) }
        ensures lent { Looked S.journal (λ state. N.keeps state × F.relates work state result) pass.old pass.new }
        ensures own { own pass.new ≡ own pass.old }
        ensures number { pass.new.number ≡ pass.old.number }
        ensures calls { pass.new.calls ≡ pass.old.calls + 1 }

        // So `again` may be the second half of this call.
        ensures fresh { All (λ e. e.call ≢ pass.new.calls) (own pass.new) }
    {
        taken(rt, &self.desk).look(&self.table.shared, pass, work)
    }

    /// Lends the state to work that may add an entry, under the lock. It is one call of the pass.
    pub fn commit<F: Writing<S>, R: Wait>(&self, rt: &R, pass: &mut Pass<S, N>, work: F) -> F::Out
        requires calls { pass.old.calls < 2 ^ 63 }
        requires needs { MeetsNeeds S.journal N.keeps pass.old.seen (F.needs work) }
        requires keeps { KeepsFact N.keeps (λ lent. F.relates work lent pass.old.number (pass.old.calls + 1)) }
        ensures lent { Wrote S.journal
            (λ lent number call left. N.keeps lent × F.relates work lent number call left result)
            pass.old pass.new (pass.old.calls + 1) }
        ensures number { pass.new.number ≡ pass.old.number }
        ensures calls { pass.new.calls ≡ pass.old.calls + 1 }
    {
        taken(rt, &self.desk).commit(&self.table.shared, pass, work)
    }

    /// The second half of the pass's last call, which has added no entry so far. Lends the state as `commit` does.
    pub fn again<F: Writing<S>, R: Wait>(&self, rt: &R, pass: &mut Pass<S, N>, work: F) -> F::Out
        requires calls { 0 < pass.old.calls }
        requires fresh { All (λ e. e.call ≢ pass.old.calls) (own pass.old) }
        requires needs { MeetsNeeds S.journal N.keeps pass.old.seen (F.needs work) }
        requires keeps { KeepsFact N.keeps (λ lent. F.relates work lent pass.old.number pass.old.calls) }
        ensures lent { Wrote S.journal
            (λ lent number call left. N.keeps lent × F.relates work lent number call left result)
            pass.old pass.new pass.old.calls }
        ensures number { pass.new.number ≡ pass.old.number }
        ensures calls { pass.new.calls ≡ pass.old.calls }
    {
        taken(rt, &self.desk).again(&self.table.shared, pass, work)
    }

    /// Takes all passes back, and gives the state.
    ///
    /// # Errors
    ///
    /// `NotAll`, where these are not the passes made, each once. It has all that was passed.
    pub fn close(self, passes: Vec<Pass<S, N>>) -> Result<S, NotAll<S, N>>
        ensures all { IfOk result (λ _. IsAll self passes.items) }
        ensures journal { IfOk result (λ state. IsOf (S.journal state) passes.items) }
        ensures kept { IfOk result (λ state. N.keeps state) }
        ensures not_all { OnErr result (¬ IsAll self passes.items) }
        ensures back { IfErr result (λ r. (r.book ≡ self) × (r.passes ≡ passes) × (r.made ≡ self)) }
    {
        let made = self.made();
        if passes.len() as u64 != made {
            return Err(NotAll {
                book: self,
                passes,
                made,
            });
        }
        Ok(self.gather(passes))
    }

    // Joins each pass to the seat that draws numbers, which then knows that they are all.
    fn gather(self, mut passes: Vec<Pass<S, N>>) -> S
        requires { length passes.items ≡ self }
        ensures all { IsAll self passes.items }
        ensures journal { IsOf (S.journal result) passes.items }
        ensures kept { N.keeps result }
    {
        let Book {
            table,
            desk,
            mut drawer,
            made: _,
        } = self;
        let mut desk = desk.into_inner();
        while let Some(pass) = passes.pop() {
            desk.take_in(&table.shared, &mut drawer.seat, pass);
        }
        desk.finish(&table.shared, &mut drawer.seat)
    }
}

/// The passes are not those made, each once. All that was passed comes back.
#[derive(Drop)]
pub struct NotAll<S: Journaled + Drop, N: Keeps<S>> {
    /// The book, which goes on as before.
    pub book: Book<S, N>,
    /// The passes, in their order.
    pub passes: Vec<Pass<S, N>>,
    /// How many passes were made.
    pub made: u64,
}
