//! The life of a repository, from its first pass to its last.
ghost use Rattle.std.specs.Prelude.{◌≡◌, ◌↔◌, ◌≤◌, length, IfSome};
ghost use Rattle.pj_serve.specs.Served.{AreSessions};
ghost use Rattle.pj_serve.specs.declared.seating.TheConstants.{MOST_SESSIONS};

use crate::opening::Opened;
use crate::seating::{SessionsLeft, speak_in};
use pj_book::{Blank, Keeps};
use pj_io::{Sink, Source};
use pj_machine::Limits;
use pj_repo::{LockedState, Repo};
use std::alloc::Global;
use std::marker::Brand;
use std::sync::Wait;
use std::thread::Threads;

// The whole life, under a name that carries the limits. What has the name in its type stays within.
fn hold<
    N: Keeps<LockedState> + Send + Sync,
    S: Source + Send + Drop,
    D: Sink + Send + Drop,
    R: Threads + Wait + Sync,
>(
    rt: &R,
    alloc: Global,
    blank: Blank<LockedState>,
    limits: Limits,
    opened: Vec<Opened<S, D>>,
) -> Option<SessionsLeft<S, D>>
    requires table { blank ≡ N.table }
    requires keeps { (s : LockedState) → N.keeps s ↔ (s.limits ≡ limits) }
    requires few { length opened.items ≤ MOST_SESSIONS }
    ensures { IfSome result (λ held. AreSessions (record { sources = S.meaning; sinks = D.meaning }) limits held.journal opened.items held.kept.items held.ends) }
{
    let Ok((repo, zero)) = Repo::<N>::start(blank, alloc, limits) else {
        return None;
    };
    speak_in(rt, alloc, repo, zero, limits, opened)
}

/// A session over each pair that was opened, in their order, all on one new repository. `None` where memory was wanted before
/// the first session.
pub(crate) fn run_sessions<
    S: Source + Send + Drop,
    D: Sink + Send + Drop,
    R: Threads + Wait + Sync,
>(rt: &R, alloc: Global, limits: Limits, opened: Vec<Opened<S, D>>) -> Option<SessionsLeft<S, D>>
    requires { length opened.items ≤ MOST_SESSIONS }
    ensures { IfSome result (λ held. AreSessions (record { sources = S.meaning; sinks = D.meaning }) limits held.journal opened.items held.kept.items held.ends) }
{
    let blank = Blank::new(alloc).ok()?;
    hold::<Brand, S, D, R>(rt, alloc, blank, limits, opened)
}
