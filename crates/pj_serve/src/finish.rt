//! What a call hands back.
ghost use Rattle.std.specs.Prelude.{◌≡◌};

use crate::status::Status;
use pj_machine::Entries;
use pj_session::Ends;
use std::alloc::Global;

/// What a session used.
#[derive(Drop)]
pub struct Kept<S, D> {
    pub pass: u32,
    pub source: S,
    pub sink: D,
}

/// What a call did, and all that it opened.
#[derive(Drop)]
pub struct Finish<S, D, V> {
    /// The exit status of the program, as `Status::code` gives it.
    pub status: u8,
    /// The entries that were made.
    pub journal: Entries,
    /// One end for each session; for `serve`, behind those of the workers that stopped early.
    pub ends: Ends,
    /// What the sessions used; or, where an opening failed, what was opened for them before.
    pub kept: Vec<Kept<S, D>>,
    /// The input, where it was opened for the command itself; or a source whose sink could not be opened.
    pub input: Option<S>,
    /// The output, where it was opened for the command itself.
    pub out: Option<D>,
    /// The door of each worker.
    pub doors: Vec<V>,
}

impl<S, D, V> Finish<S, D, V> {
    ghost use Rattle.pj_serve.specs.Status.{exit_status};
    ghost use Rattle.pj_serve.specs.Sessions.{HasNoSession, IsIdle};

    /// What a call hands back whose sessions were not all opened.
    pub(crate) fn stopped(
        alloc: Global,
        status: Status,
        kept: Vec<Kept<S, D>>,
        input: Option<S>,
    ) -> Self
        ensures status { result.status ≡ exit_status status }
        ensures kept { result.kept ≡ kept }
        ensures input { result.input ≡ input }
        ensures none { HasNoSession result }
    {
        Finish {
            status: status.code(),
            journal: Entries::of(Vec::new(alloc)),
            ends: Ends::of(Vec::new(alloc)),
            kept,
            input,
            out: None,
            doors: Vec::new(alloc),
        }
    }

    /// What a call without sessions hands back.
    pub(crate) fn idle(alloc: Global, status: Status, input: Option<S>, out: Option<D>) -> Self
        ensures status { result.status ≡ exit_status status }
        ensures input { result.input ≡ input }
        ensures out { result.out ≡ out }
        ensures idle { IsIdle result }
    {
        Finish {
            status: status.code(),
            journal: Entries::of(Vec::new(alloc)),
            ends: Ends::of(Vec::new(alloc)),
            kept: Vec::new(alloc),
            input,
            out,
            doors: Vec::new(alloc),
        }
    }
}
