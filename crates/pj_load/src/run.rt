//! A large run.
ghost use Rattle.std.specs.Prelude.{◌≡◌, ◌↔◌, ◌≤◌, ℕ, All, IfOk, IfSome, IsTrue, length};
ghost use Rattle.pj_session.specs.declared.end.End.TheVariants.{Done};
ghost use Rattle.pj_gen.specs.Requests.{AreScripts};
ghost use Rattle.pj_load.specs.Load.{IsLargeRun};

use crate::stages::{Played, Room, play, room_for};
use crate::telling::told;
use pj_book::{Blank, Keeps};
use pj_change::{Bytes, Memory};
use pj_gen::{MOST_CHANGES, MOST_SESSIONS, Scripts, scripts};
use pj_machine::{Entries, Limits};
use pj_repo::{LockedState, Repo};
use pj_session::{End, Ended, Ends};
use std::alloc::{AllocError, Global};
use std::marker::Brand;
use std::sync::Wait;
use std::thread::Threads;

/// What a large run leaves.
#[derive(Drop)]
pub struct Loaded {
    /// The one journal.
    pub journal: Entries,
    /// How the sessions ended: the prelude, the others and the closing.
    pub ends: Ends,
    /// The summary. `None` where a session is not done, a request was not entered, a print was not told at the end of the journal, or memory was wanted.
    pub summary: Option<Bytes>,
}

// The scripts once more, each in memory of its own.
fn copies(alloc: Global, scripts: &[Bytes]) -> Result<Vec<Bytes>, AllocError>
    ensures { IfOk result (λ all. all.items ≡ scripts.now) }
{
    let mut all = Vec::new(alloc);
    for script in scripts {
        let mut copy = Vec::new(alloc);
        copy.extend_from_slice(script.items())?;
        all.push(Bytes::of(copy))?;
    }
    Ok(all)
}

// Whether all sessions are done.
fn all_done(ends: &[Ended]) -> bool
    ensures { IsTrue result → All (λ ended. ended.end ≡ Done) ends.now }
{
    ends.iter().all(|ended| ended.end == End::Done)
}

// The run under a name that carries the limits.
fn hold<N: Keeps<LockedState> + Send + Sync, R: Threads + Wait + Sync>(
    rt: &R,
    alloc: Global,
    blank: Blank<LockedState>,
    limits: Limits,
    changes: u32,
    sessions: u32,
    scripts: &Scripts,
) -> Option<Loaded>
    requires table { blank ≡ N.table }
    requires keeps { (s : LockedState) → N.keeps s ↔ (s.limits ≡ limits) }
    requires live { limits.live ≡ 16384 }
    requires changes { (1 ≤ changes) × (changes ≤ MOST_CHANGES) }
    requires sessions { (1 ≤ sessions) × (sessions ≤ MOST_SESSIONS) }
    requires count { length scripts.now.sessions ≡ sessions }
    ensures { IfSome result (λ loaded. (number : ℕ) → AreScripts number changes sessions scripts.now
        → IsLargeRun limits number changes sessions loaded) }
{
    let copies = copies(alloc, scripts.sessions.items()).ok()?;
    let room = room_for::<N>(alloc, copies.len())?;
    let (repo, zero) = Repo::<N>::start(blank, alloc, limits).ok()?;
    let Played {
        journal,
        ends,
        entered,
        prints,
    } = play(rt, alloc, limits, repo, zero, scripts, copies, room);
    let place = journal.items().len() as u64;
    let summary = if entered && all_done(ends.items()) {
        match told(alloc, changes, sessions, &prints, place) {
            Some(bytes) => Some(Bytes::of(bytes)),
            None => None,
        }
    } else {
        None
    };
    Some(Loaded {
        journal,
        ends,
        summary,
    })
}

/// The large run of this number, with 1 to 16,384 changes and 1 to 8 sessions, on a repository of its own under these limits,
/// which print files of up to 16,384 live vertices. `None` where memory was wanted before the first session.
pub fn large_run<R: Threads + Wait + Sync>(
    rt: &R,
    alloc: Global,
    limits: Limits,
    number: u32,
    changes: u32,
    sessions: u32,
) -> Option<Loaded>
    requires live { limits.live ≡ 16384 }
    requires changes { (1 ≤ changes) × (changes ≤ MOST_CHANGES) }
    requires sessions { (1 ≤ sessions) × (sessions ≤ MOST_SESSIONS) }
    ensures { IfSome result (λ loaded. IsLargeRun limits number changes sessions loaded) }
{
    let scripts = scripts(alloc, number, changes, sessions).ok()?;
    let blank = Blank::new(alloc).ok()?;
    hold::<Brand, R>(rt, alloc, blank, limits, changes, sessions, &scripts)
}
