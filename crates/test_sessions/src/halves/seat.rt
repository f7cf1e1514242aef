//! A session: its pass, what it asks, and what it was replied.
use crate::signals::Signals;
use crate::written::put_reply;
use pj_book::{Keeps, Pass};
use pj_change::Memory;
use pj_machine::{Command, Numbered};
use pj_repo::{Gate, LockedState, OpenGate, Repo};
use pj_wire::{Decoder, Next};
use std::alloc::Global;
use std::sync::Wait;
use std::thread::Threads;

/// More calls than any case has.
const MOST_CALLS: u64 = 1_000_000;

/// A session.
#[derive(Drop)]
pub struct Seat<'a, N: Keeps<LockedState>> {
    pub pass: Pass<LockedState, N>,
    pub requests: &'a [u8],
    pub replies: Vec<u8>,
    pub is_first: bool,
    /// Whether memory was wanting.
    pub is_short: bool,
}

/// Holds the first session between the halves of a call until the second has been answered.
#[derive(Clone, Copy)]
struct Held<'a> {
    signals: &'a Signals,
}

impl<'a> Gate for Held<'a> {
    fn between(&self) {
        self.signals.hold_first();
    }
}

/// The reply to a command that is a call.
fn reply_to<N: Keeps<LockedState>, R: Threads + Wait + Sync, G: Gate>(
    rt: &R,
    alloc: Global,
    repo: &Repo<N>,
    pass: &mut Pass<LockedState, N>,
    command: &Command,
    gate: &G,
) -> Option<Numbered> {
    if let Command::Quit = command {
        return None;
    }
    if pass.calls() >= MOST_CALLS {
        return None;
    }
    Some(repo.answer_gated(rt, alloc, pass, command, gate))
}

/// Asks all requests, and writes the replies.
pub fn ask<N: Keeps<LockedState>, R: Threads + Wait + Sync, G: Gate>(
    rt: &R,
    alloc: Global,
    repo: &Repo<N>,
    pass: &mut Pass<LockedState, N>,
    requests: &[u8],
    replies: &mut Vec<u8>,
    gate: &G,
) -> Result<(), Memory> {
    let mut decoder = Decoder::new(alloc);
    decoder.feed(requests)?;
    for _ in 0..requests.len() {
        let Next::Message(command) = decoder.next(alloc)? else {
            break;
        };
        let Some(numbered) = reply_to(rt, alloc, repo, pass, &command, gate) else {
            break;
        };
        put_reply(replies, &numbered)?;
    }
    Ok(())
}

/// Runs a session in its turn: the first is held between halves, and the second begins there.
pub fn speak<N: Keeps<LockedState>, R: Threads + Wait + Sync>(
    rt: &R,
    alloc: Global,
    repo: &Repo<N>,
    signals: &Signals,
    seat: &mut Seat<N>,
) {
    let done = if seat.is_first {
        let gate = Held { signals };
        let done = ask(
            rt,
            alloc,
            repo,
            &mut seat.pass,
            seat.requests,
            &mut seat.replies,
            &gate,
        );
        signals.first_has_ended();
        done
    } else {
        signals.hold_second();
        let done = ask(
            rt,
            alloc,
            repo,
            &mut seat.pass,
            seat.requests,
            &mut seat.replies,
            &OpenGate,
        );
        signals.second_is_answered();
        done
    };
    seat.is_short = done.is_err();
}
