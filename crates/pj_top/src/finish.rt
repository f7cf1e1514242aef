//! What a call hands back, with the store.
ghost use Rattle.std.specs.Prelude.{◌≡◌, ◌≤◌, [], Some, None, IfSome, vec_capacity};
ghost use Rattle.pj_serve.specs.Status.{exit_status};
ghost use Rattle.pj_serve.specs.Sessions.{HoldsNone, HasNoSession};
ghost use Rattle.pj_top.specs.Keeps.{IsFinish, ends_of as ends_left, kept_status};

use crate::opening::Unpaired;
use pj_keep::Stop;
use pj_kept::{Ending, Life};
use pj_machine::Entries;
use pj_serve::{Finish, Kept, Status};
use pj_session::{End, Ended, Ends};
use std::alloc::Global;

/// What a call did, and all that it opened.
#[derive(Drop)]
pub struct KeptFinish<S, D, V, K> {
    pub finish: Finish<S, D, V>,
    /// The store of `keep`, as the call left it, where it was opened.
    pub store: Option<K>,
}

/// Room for what the session of `keep` leaves.
#[derive(Drop)]
pub(crate) struct Room<S, D> {
    pub(crate) kept: Vec<Kept<S, D>>,
    pub(crate) ends: Vec<Ended>,
}

/// Room for one session; None where there is no memory for it.
pub(crate) fn make_room<S: Drop, D: Drop>(alloc: Global) -> Option<Room<S, D>>
    ensures kept { IfSome result (λ room. (room.kept.items ≡ []) × (1 ≤ vec_capacity room.kept)) }
    ensures ends { IfSome result (λ room. (room.ends.items ≡ []) × (1 ≤ vec_capacity room.ends)) }
{
    let Ok(kept) = Vec::with_capacity(alloc, 1) else {
        return None;
    };
    let Ok(ends) = Vec::with_capacity(alloc, 1) else {
        return None;
    };
    Some(Room { kept, ends })
}

/// What is handed back where nothing was opened.
pub(crate) fn nothing<S, D, V, K>(alloc: Global, status: Status) -> KeptFinish<S, D, V, K>
    ensures status { result.finish.status ≡ exit_status status }
    ensures store { result.store ≡ None }
    ensures holds { HoldsNone result.finish }
{
    KeptFinish {
        finish: stopped(alloc, status, None),
        store: None,
    }
}

/// What is handed back where the input and the output were not both opened.
pub(crate) fn unpaired<S, D, V, K>(
    alloc: Global,
    lacks: Unpaired<S>,
    store: K,
) -> KeptFinish<S, D, V, K>
    ensures status { result.finish.status ≡ exit_status lacks.status }
    ensures kept { result.finish.kept.items ≡ [] }
    ensures input { result.finish.input ≡ lacks.source }
    ensures none { HasNoSession result.finish }
    ensures store { result.store ≡ Some store }
{
    KeptFinish {
        finish: stopped(alloc, lacks.status, lacks.source),
        store: Some(store),
    }
}

/// What a call hands back that came to no session.
fn stopped<S, D, V>(alloc: Global, status: Status, input: Option<S>) -> Finish<S, D, V>
    ensures status { result.status ≡ exit_status status }
    ensures kept { result.kept.items ≡ [] }
    ensures input { result.input ≡ input }
    ensures none { HasNoSession result }
{
    Finish {
        status: status.code(),
        journal: Entries::of(Vec::new(alloc)),
        ends: Ends::of(Vec::new(alloc)),
        kept: Vec::new(alloc),
        input,
        out: None,
        doors: Vec::new(alloc),
    }
}

/// The status for how the life of a repository ended.
fn status_of(ending: Ending) -> Status
    ensures { result ≡ kept_status ending }
{
    match ending {
        Ending::Stopped(Stop::Foreign) => Status::Journal,
        Ending::Stopped(Stop::Store) | Ending::Spoke(End::StoreFault) => Status::Store,
        Ending::Stopped(Stop::Memory) | Ending::Spoke(End::Memory) => Status::Memory,
        Ending::Spoke(End::Done) => Status::Done,
        Ending::Spoke(End::ReadFault) => Status::ReadFault,
        Ending::Spoke(End::WriteFault) => Status::WriteFault,
        Ending::Spoke(End::Bad | End::Cut | End::Spent) => Status::Session,
    }
}

/// The end of pass 2, in a list that has room for it, where it spoke.
fn ends_of(mut ends: Vec<Ended>, ending: Ending) -> Ends
    requires { (ends.items ≡ []) × (1 ≤ vec_capacity ends) }
    ensures { result ≡ ends_left ending }
{
    if let Ending::Spoke(end) = ending {
        ends.push_reserved(Ended { pass: 2, end });
    }
    Ends::of(ends)
}

/// What is handed back after the life of a repository.
pub(crate) fn lived<S: Drop, D: Drop, V, K>(
    alloc: Global,
    room: Room<S, D>,
    life: Life<K, S, D>,
) -> KeptFinish<S, D, V, K>
    requires kept { (room.kept.items ≡ []) × (1 ≤ vec_capacity room.kept) }
    requires ends { (room.ends.items ≡ []) × (1 ≤ vec_capacity room.ends) }
    ensures { IsFinish life result }
{
    let Room { mut kept, ends } = room;
    let Life {
        journal,
        store,
        source,
        sink,
        ending,
    } = life;
    kept.push_reserved(Kept {
        pass: 2,
        source,
        sink,
    });
    KeptFinish {
        finish: Finish {
            status: status_of(ending).code(),
            journal,
            ends: ends_of(ends, ending),
            kept,
            input: None,
            out: None,
            doors: Vec::new(alloc),
        },
        store: Some(store),
    }
}
