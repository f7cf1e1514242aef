//! Who answers without ever entering anything.
use pj_change::Bytes;
use pj_machine::{Command, Limits, Numbered, Replier, Reply};
use std::alloc::Global;
use std::sync::Wait;
use std::thread::Threads;

/// A repository in which nothing is entered, without memory for anything but the empty journal.
#[derive(Drop)]
pub(crate) struct Empty {
    pub(crate) limits: Limits,
}

/// How many calls a pass of it has made.
#[derive(Drop)]
pub(crate) struct Calls(pub(crate) u64);

impl Replier for Empty {
    type Pass = Calls;

    ghost use Rattle.std.specs.Prelude.{[]};

    ghost view = { λ pass. record { number = 1; calls = pass.0; journal = [] } };

    ghost limits = { λ empty. empty.limits };

    fn answer<R: Threads + Wait + Sync>(
        &self,
        _rt: &R,
        alloc: Global,
        pass: &mut Calls,
        command: &Command,
    ) -> Numbered {
        pass.0 += 1;
        match command {
            Command::Journal => Numbered::At {
                place: 0,
                reply: Reply::Body(Bytes::of(Vec::new(alloc))),
            },
            _ => Numbered::NoMemory,
        }
    }
}
