//! What is seen of the replies of a session.
ghost use Rattle.std.specs.Prelude.{◌≡◌, ◌++◌, ◌∷◌, [], ◌&&◌, MatchOption};
ghost use Rattle.pj_machine.specs.Told.{is_entered};
ghost use Rattle.pj_load.specs.Seen.{found, printed};

use pj_change::Bytes;
use pj_gen::Found;
use pj_machine::{Command, Numbered, Refusal, Replier, Reply};
use pj_name::name_of;
use pj_session::{Step, StepRefusal};
use std::alloc::Global;
use std::marker::Model;
use std::sync::Wait;
use std::thread::Threads;

/// Sees whether each request was entered.
#[derive(Drop)]
pub(crate) struct Entering {
    pub(crate) all: bool,
}

impl Step for Entering {
    ghost ready = { λ _. Unit {0} };

    ghost does = { λ s x r t. t.all ≡ (s.all && is_entered r) };

    ghost faults = { λ _. 0 };

    fn step<P: Replier, R: Threads + Wait + Sync>(
        &mut self,
        rt: &R,
        alloc: Global,
        replier: &P,
        pass: &mut P::Pass,
        command: &Command,
    ) -> Result<Numbered, StepRefusal> {
        let numbered = replier.answer(rt, alloc, pass, command);
        self.all = self.all && numbered.is_entered();
        Ok(numbered)
    }
}

/// What stands for a print, and the place of its reply.
#[derive(Clone, Copy)]
pub(crate) struct Printed {
    pub(crate) place: u64,
    pub(crate) found: Found,
}

/// Sees what prints give.
#[derive(Drop)]
pub(crate) struct Printing {
    pub(crate) prints: Vec<Printed>,
}

impl Model for Printing {
    ghost use Rattle.std.specs.Prelude.{List};
    ghost use Rattle.pj_load.specs.declared.seeing.Printed.{Printed};

    ghost Value = { List Printed };

    ghost view = { λ p. p.prints.items };
}

/// What stands for the print that is replied.
fn found_in(reply: &Reply) -> Option<Found>
    ensures { result ≡ found reply.now }
{
    match reply {
        Reply::Body(body) => Some(Found::Digest(name_of(body.items()))),
        Reply::No(Refusal::Wide(inode)) => Some(Found::Wide(*inode)),
        _ => None,
    }
}

/// The print that is replied, if one is.
fn print_in(numbered: &Numbered) -> Option<Printed>
    ensures { MatchOption result (printed numbered.now ≡ []) (λ p. printed numbered.now ≡ p ∷ []) }
{
    match numbered {
        Numbered::At { place, reply } => match found_in(reply) {
            Some(found) => Some(Printed {
                place: *place,
                found,
            }),
            None => None,
        },
        Numbered::NoMemory => None,
    }
}

impl Step for Printing {
    ghost ready = { λ _. Unit {0} };

    ghost does = { λ s x r t. t ≡ s ++ printed r };

    ghost faults = { λ _. 0 };

    fn step<P: Replier, R: Threads + Wait + Sync>(
        &mut self,
        rt: &R,
        alloc: Global,
        replier: &P,
        pass: &mut P::Pass,
        command: &Command,
    ) -> Result<Numbered, StepRefusal> {
        let Ok(()) = self.prints.reserve(1) else {
            return Err(StepRefusal::Memory);
        };
        let numbered = replier.answer(rt, alloc, pass, command);
        match print_in(&numbered) {
            Some(print) => self.prints.push_reserved(print),
            None => {}
        }
        Ok(numbered)
    }
}
