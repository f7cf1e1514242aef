//! The repository.
ghost use Rattle.std.specs.Prelude.{◌↔◌, ◌≡◌, ◌≢◌, ◌+◌, ◌<◌, ◌^◌, [], map, IfOk, IfErr, IsErrOf, OnErr};
ghost use mathlib.Core.List.{IsPrefix};
ghost use Rattle.std.specs.Arc.{arc_value};
ghost use Rattle.pj_book.specs.IsAll.{IsAll};
ghost use Rattle.pj_machine.specs.declared.command.Command.TheVariants as command;
ghost use Rattle.pj_machine.specs.Answer.{IsMalformed};
ghost use Rattle.pj_machine.specs.Call.{IsFresh, own};
ghost use Rattle.pj_machine.specs.Legal.{IsLegal};
ghost use Rattle.pj_state.specs.IsKept.{AreChannels};
ghost use Rattle.pj_state.specs.Kept.{Kept, After};
ghost use Rattle.pj_machine.specs.Answered.{Answered};
ghost use Rattle.pj_repo.specs.IsJournalOf.{IsJournalOf};
ghost use Rattle.pj_repo.specs.LookedAt.{LookedAt};
ghost use Rattle.pj_repo.specs.Views.{pass_view};

use crate::closed::{Closed, RepoNotAll};
use crate::gate::{Gate, OpenGate};
use crate::locked::{GAP, LockedState};
use crate::work::{AnswerWhole, CountCall, EnterChange, TellMalformed};
use pj_book::{Blank, Book, Keeps, NotAll, Pass, Reading};
use pj_change::{Bytes, Memory, Record};
use pj_machine::{Command, Limits, Numbered, Replier};
use pj_state::State;
use pj_text::{ReadRefusal, read_record};
use std::alloc::Global;
use std::marker::Model;
use std::sync::{Arc, Wait};
use std::thread::Threads;

/// A repository: a state behind a lock, and the passes to it.
///
/// Contracts see how many passes were made, and the limits. The name `N` carries that each state which the book lends has
/// just these limits.
#[derive(Drop)]
pub struct Repo<N: Keeps<LockedState>> {
    pub(crate) book: Book<LockedState, N>,
    pub(crate) limits: Limits,
}

impl<N: Keeps<LockedState>> Model for Repo<N> {
    ghost use Rattle.std.specs.Prelude.{◌≡◌, ◌↔◌};
    ghost use Rattle.pj_repo.specs.RepoView.{RepoView};
    ghost use Rattle.pj_repo.specs.declared.locked.LockedState.{LockedState};

    ghost Value = { RepoView };

    ghost view = { λ r. record { made = r.book; limits = r.limits } };

    ghost invariant = { λ r. (locked : LockedState) → N.keeps locked ↔ (locked.limits ≡ r.limits) };
}

/// The record of the change that the text spells, read and hashed.
fn record_of(alloc: Global, text: &[u8]) -> Result<Arc<Record>, ReadRefusal>
    ensures text { IfOk result (λ shared. (arc_value shared).text ≡ text.now) }
    ensures malformed { IsErrOf result ReadRefusal.Malformed → IsMalformed text.now }
{
    let record = read_record(alloc, text)?;
    Ok(Arc::new(alloc, record)?)
}

impl<N: Keeps<LockedState>> Repo<N> {
    /// A repository without changes, whose one channel is `main`, and the pass number 0.
    ///
    /// # Errors
    /// `Memory` where there was no memory for it. The blank is let go then.
    pub fn start(
        blank: Blank<LockedState>,
        alloc: Global,
        limits: Limits,
    ) -> Result<(Repo<N>, Pass<LockedState, N>), Memory>
        requires table { blank ≡ N.table }
        requires keeps { (locked : LockedState) → N.keeps locked ↔ (locked.limits ≡ limits) }
        ensures repo { IfOk result (λ started. started.0 ≡ record { made = 1; limits = limits }) }
        ensures pass { IfOk result (λ started. started.1 ≡ record { number = 0; calls = 0; seen = [] }) }
    {
        let state = State::opening(alloc, limits)?;
        let locked = LockedState {
            gap: [0; GAP],
            state,
        };
        let (book, pass) = Book::start(blank, locked);
        Ok((Repo { book, limits }, pass))
    }

    /// How many passes were made, the pass number 0 among them.
    pub fn made(&self) -> u64
        ensures { result ≡ self.now.made }
    {
        self.book.made()
    }

    /// A new pass, which has made no call and has seen what `from` has then seen. It takes no memory.
    pub fn pass<R: Wait>(&mut self, rt: &R, from: &mut Pass<LockedState, N>) -> Pass<LockedState, N>
        requires { self.old.made < 2 ^ 32 }
        ensures new { result ≡ record { number = self.old.made; calls = 0; seen = from.new.seen } }
        ensures fresh { IsFresh (pass_view result) }
        ensures made { self.new ≡ record self.old { made = self.old.made + 1 } }
        ensures from { from.new ≡ record from.old { seen = from.new.seen } }
        ensures from_own { own (pass_view from.new) ≡ own (pass_view from.old) }
        ensures from_sees { IsPrefix (pass_view from.old).journal (pass_view from.new).journal }
    {
        self.book.pass(rt, from)
    }

    /// Lends the state to work that reads it. It is one call of the pass.
    pub(crate) fn look<F: Reading<LockedState>, R: Wait>(
        &self,
        rt: &R,
        pass: &mut Pass<LockedState, N>,
        work: F,
    ) -> F::Out
        requires calls { pass.old.calls < 2 ^ 63 }
        requires needs { (k : Kept) → F.needs work k }
        ensures { LookedAt self.now.limits pass.old pass.new (λ k. F.relates work k result) }
    {
        self.book.look(rt, pass, work)
    }

    /// Counts a call for which there was no memory.
    fn no_memory<R: Wait>(&self, rt: &R, pass: &mut Pass<LockedState, N>) -> Numbered
        requires { pass.old.calls < 2 ^ 63 }
        ensures { (x : Command) → Answered self.now.limits (pass_view pass.old) (pass_view pass.new) x result }
    {
        self.look(rt, pass, CountCall);
        Numbered::NoMemory
    }

    /// Answers `put` of a text that was read and hashed before.
    fn put_record<R: Wait>(
        &self,
        rt: &R,
        pass: &mut Pass<LockedState, N>,
        record: &Arc<Record>,
    ) -> Numbered
        requires { pass.old.calls < 2 ^ 63 }
        ensures { Answered self.now.limits (pass_view pass.old) (pass_view pass.new) (command.Put (arc_value «record».now).text) result }
    {
        let _calls = pass.calls();
        self.book.commit(rt, pass, EnterChange { record })
    }

    /// Answers `put`. The text is read and hashed before the lock is taken.
    fn put<R: Wait>(
        &self,
        rt: &R,
        alloc: Global,
        pass: &mut Pass<LockedState, N>,
        text: &Bytes,
    ) -> Numbered
        requires { pass.old.calls < 2 ^ 63 }
        ensures { Answered self.now.limits (pass_view pass.old) (pass_view pass.new) (command.Put text.now) result }
    {
        match record_of(alloc, text.items()) {
            Ok(record) => self.put_record(rt, pass, &record),
            Err(ReadRefusal::Malformed) => self.look(rt, pass, TellMalformed),
            Err(ReadRefusal::Memory) => self.no_memory(rt, pass),
        }
    }

    /// Answers a command under the lock.
    fn answer_whole<R: Wait>(
        &self,
        rt: &R,
        alloc: Global,
        pass: &mut Pass<LockedState, N>,
        command: &Command,
    ) -> Numbered
        requires calls { pass.old.calls < 2 ^ 63 }
        requires asks { command.now ≢ Command.Quit }
        ensures { Answered self.now.limits (pass_view pass.old) (pass_view pass.new) command.now result }
    {
        let _calls = pass.calls();
        self.book.commit(rt, pass, AnswerWhole { alloc, command })
    }

    /// Answers one command, as `answer` does. The gate is called once between the halves of an application or an unrecord that
    /// is to be installed, and for no other command.
    pub fn answer_gated<R: Threads + Wait + Sync, G: Gate>(
        &self,
        rt: &R,
        alloc: Global,
        pass: &mut Pass<LockedState, N>,
        command: &Command,
        gate: &G,
    ) -> Numbered
        requires calls { pass.old.calls < 2 ^ 63 }
        // To quit is no call.
        requires asks { command.now ≢ Command.Quit }
        ensures { Answered self.now.limits (pass_view pass.old) (pass_view pass.new) command.now result }
    {
        match command {
            Command::Put(text) => self.put(rt, alloc, pass, text),
            Command::Get(name) => self.get(rt, alloc, pass, *name),
            Command::Inverse(name) => self.inverse(rt, alloc, pass, *name),
            Command::Graph(name) => self.graph(rt, alloc, pass, *name),
            Command::Print(name) => self.print(rt, alloc, pass, *name),
            Command::Log(name) => self.log(rt, alloc, pass, *name),
            Command::Apply(name, change) => self.apply(rt, alloc, pass, *name, *change, gate),
            Command::Unrecord(name, change) => self.unrecord(rt, alloc, pass, *name, *change, gate),
            _ => self.answer_whole(rt, alloc, pass, command),
        }
    }

    /// Takes all passes back, and gives the entries of the journal and the channels. It takes no memory.
    ///
    /// # Errors
    /// `RepoNotAll`, where these are not the passes made, each once. It has all that was passed.
    pub fn finish(self, passes: Vec<Pass<LockedState, N>>) -> Result<Closed, RepoNotAll<N>>
        ensures all { IfOk result (λ _. IsAll self.made passes.items) }
        ensures journal { IfOk result (λ closed. IsJournalOf closed.entries (map pass_view passes.items)) }
        ensures legal { IfOk result (λ closed. IsLegal self.limits closed.entries) }
        ensures channels { IfOk result (λ closed. After closed.entries (λ s. AreChannels s closed.entries closed.channels)) }
        ensures not_all { OnErr result (¬ IsAll self.made passes.items) }
        ensures back { IfErr result (λ r. (r.repo ≡ self) × (r.passes ≡ passes) × (r.made ≡ self.made)) }
    {
        let Repo { book, limits } = self;
        match book.close(passes) {
            Ok(locked) => {
                let LockedState { gap: _, state } = locked;
                let (entries, channels) = state.into_parts();
                Ok(Closed { entries, channels })
            }
            Err(NotAll { book, passes, made }) => Err(RepoNotAll {
                repo: Repo { book, limits },
                passes,
                made,
            }),
        }
    }
}

impl<N: Keeps<LockedState>> Replier for Repo<N> {
    ghost use Rattle.pj_repo.specs.Views.{pass_view};

    type Pass = Pass<LockedState, N>;

    ghost view = { pass_view };

    ghost limits = { λ repo. repo.limits };

    fn answer<R: Threads + Wait + Sync>(
        &self,
        rt: &R,
        alloc: Global,
        pass: &mut Pass<LockedState, N>,
        command: &Command,
    ) -> Numbered {
        self.answer_gated(rt, alloc, pass, command, &OpenGate)
    }
}
