//! What lies under the lock: the state, and the seat that has the turn while nobody works.
ghost use Rattle.std.specs.Prelude.{◌≡◌, ◌≢◌, ℕ, false, ◌+◌, ◌<◌, ◌≤◌, ◌^◌, [], ◌∷◌, All};
ghost use Rattle.std.specs.List.{AllPairs};
ghost use mathlib.Core.List.{IsPrefix};
ghost use Rattle.pj_book.specs.EntriesOf.{entries_of};
ghost use Rattle.pj_book.specs.Token.{own};
ghost use Rattle.pj_book.specs.Gains.{Gains};
ghost use Rattle.pj_book.specs.Lent.{MeetsNeeds, KeepsFact};
ghost use Rattle.pj_book.specs.IsOf.{HasOwn};
ghost use Rattle.pj_book.specs.View.{counter};

use crate::entry::{Journaled, Keeps};
use crate::pass::Pass;
use crate::rule::{Law, Note, View};
use crate::turn::{bring, give_back, write};
use crate::work::{Reading, Writing};
use atomic_table::{Seat, Shared};
use std::marker::{Model, PhantomData};

/// Contracts see the state.
#[derive(Drop)]
pub(crate) struct Desk<S: Journaled, N: Keeps<S>> {
    pub(crate) state: S,
    /// The seat that has the turn while nobody works, and is told the whole journal.
    pub(crate) keeper: Seat<S, View<S::Content>>,
    pub(crate) of: PhantomData<N>,
}

impl<S: Journaled, N: Keeps<S>> Model for Desk<S, N> {
    ghost use Rattle.std.specs.Prelude.{◌≡◌, [], true};
    ghost use Rattle.pj_book.specs.View.{note};

    ghost Value = { S };

    ghost view = { λ d. d.state };

    ghost invariant = { λ d. (d.keeper.table_id ≡ N.table)
        × (d.keeper.me ≡ (note true (S.journal d.state), [])) × N.keeps d.state };
}

impl<S: Journaled, N: Keeps<S>> Desk<S, N> {
    /// The pass sees the journal as it stands.
    pub(crate) fn show(
        &mut self,
        table: &Shared<S, View<S::Content>, (), Law>,
        pass: &mut Pass<S, N>,
    )
        requires table { table.now.table_id ≡ N.table }
        requires word { table.now.table_id.words ≡ 1 }
        ensures state { self.new ≡ self.old }
        ensures begins { IsPrefix pass.old.seen (S.journal self.old) }
        ensures own { own pass.new ≡ own pass.old }
        ensures pass { pass.new ≡ record pass.old { seen = S.journal self.old } }
    {
        bring(table, &mut self.keeper, &mut pass.seat, &self.state);
        give_back(table, &mut self.keeper, &mut pass.seat);
    }

    pub(crate) fn look<F: Reading<S>>(
        &mut self,
        table: &Shared<S, View<S::Content>, (), Law>,
        pass: &mut Pass<S, N>,
        work: F,
    ) -> F::Out
        requires table { table.now.table_id ≡ N.table }
        requires word { table.now.table_id.words ≡ 1 }
        requires calls { pass.old.calls < 2 ^ 63 }
        requires needs { MeetsNeeds S.journal N.keeps pass.old.seen (F.needs work) }
        ensures state { self.new ≡ self.old }
        ensures kept { N.keeps self.old }
        ensures answer { F.relates work self.old result }
        ensures begins { IsPrefix pass.old.seen (S.journal self.old) }
        ensures own { own pass.new ≡ own pass.old }
        ensures fresh { All (λ e. e.call ≢ pass.new.calls) (own pass.new) }
        ensures pass { pass.new ≡ record pass.old { calls = pass.old.calls + 1; seen = S.journal self.old } }
    {
        self.show(table, pass);
        pass.count_call();
        work.work(&self.state)
    }

    pub(crate) fn commit<F: Writing<S>>(
        &mut self,
        table: &Shared<S, View<S::Content>, (), Law>,
        pass: &mut Pass<S, N>,
        work: F,
    ) -> F::Out
        requires table { table.now.table_id ≡ N.table }
        requires word { table.now.table_id.words ≡ 1 }
        requires calls { pass.old.calls < 2 ^ 63 }
        requires needs { MeetsNeeds S.journal N.keeps pass.old.seen (F.needs work) }
        requires keeps { KeepsFact N.keeps (λ lent. F.relates work lent pass.old.number (pass.old.calls + 1)) }
        ensures kept { N.keeps self.old }
        ensures answer { F.relates work self.old pass.old.number (pass.old.calls + 1) self.new result }
        ensures begins { IsPrefix pass.old.seen (S.journal self.old) }
        ensures gains { Gains (S.journal self.old) (S.journal self.new)
            (own pass.old) (own pass.new) pass.old.number (pass.old.calls + 1) }
        ensures pass { pass.new ≡ record pass.old { calls = pass.old.calls + 1; seen = S.journal self.new } }
    {
        pass.calls += 1;
        write(
            table,
            &mut self.keeper,
            &mut pass.seat,
            &mut self.state,
            pass.number,
            pass.calls,
            work,
        )
    }

    pub(crate) fn again<F: Writing<S>>(
        &mut self,
        table: &Shared<S, View<S::Content>, (), Law>,
        pass: &mut Pass<S, N>,
        work: F,
    ) -> F::Out
        requires table { table.now.table_id ≡ N.table }
        requires word { table.now.table_id.words ≡ 1 }
        requires calls { 0 < pass.old.calls }
        requires fresh { All (λ e. e.call ≢ pass.old.calls) (own pass.old) }
        requires needs { MeetsNeeds S.journal N.keeps pass.old.seen (F.needs work) }
        requires keeps { KeepsFact N.keeps (λ lent. F.relates work lent pass.old.number pass.old.calls) }
        ensures kept { N.keeps self.old }
        ensures answer { F.relates work self.old pass.old.number pass.old.calls self.new result }
        ensures begins { IsPrefix pass.old.seen (S.journal self.old) }
        ensures gains { Gains (S.journal self.old) (S.journal self.new)
            (own pass.old) (own pass.new) pass.old.number pass.old.calls }
        ensures pass { pass.new ≡ record pass.old { seen = S.journal self.new } }
    {
        write(
            table,
            &mut self.keeper,
            &mut pass.seat,
            &mut self.state,
            pass.number,
            pass.calls,
            work,
        )
    }

    /// The pass is joined to the seat that draws numbers, which keeps its number.
    pub(crate) fn take_in(
        &mut self,
        table: &Shared<S, View<S::Content>, (), Law>,
        drawer: &mut Seat<S, View<S::Content>>,
        mut pass: Pass<S, N>,
    )
        requires table { table.now.table_id ≡ N.table }
        requires word { table.now.table_id.words ≡ 1 }
        requires drawer_of { drawer.old.table_id ≡ N.table }
        requires drawer { drawer.old.me ≡ (counter false drawer.old.me.0.made drawer.old.me.0.joined, []) }
        ensures state { self.new ≡ self.old }
        ensures drawer_of { drawer.new.table_id ≡ drawer.old.table_id }
        ensures drawer { drawer.new.me
            ≡ (counter false drawer.old.me.0.made (pass.number ∷ drawer.old.me.0.joined), []) }
        ensures own { HasOwn (S.journal self.old) pass }
    {
        self.show(table, &mut pass);
        let Pass {
            number: _,
            calls: _,
            seat,
            of: _,
        } = pass;
        table.join_seat::<Note>(drawer, seat);
    }

    /// The state, and what the seat that draws numbers knows of it.
    pub(crate) fn finish(
        self,
        table: &Shared<S, View<S::Content>, (), Law>,
        drawer: &mut Seat<S, View<S::Content>>,
    ) -> S
        requires table { table.now.table_id ≡ N.table }
        requires word { table.now.table_id.words ≡ 1 }
        requires drawer_of { drawer.old.table_id ≡ N.table }
        requires drawer { drawer.old.me ≡ (counter false drawer.old.me.0.made drawer.old.me.0.joined, []) }
        ensures state { result ≡ self }
        ensures kept { N.keeps result }
        ensures distinct { AllPairs (λ m n. m ≢ n) drawer.old.me.0.joined }
        ensures below { All (λ n. n < drawer.old.me.0.made) drawer.old.me.0.joined }
        ensures unmade { (n : ℕ) → drawer.old.me.0.made ≤ n → entries_of n (S.journal self) ≡ [] }
    {
        let Desk {
            state,
            mut keeper,
            of: _,
        } = self;
        bring(table, &mut keeper, drawer, &state);
        state
    }
}
