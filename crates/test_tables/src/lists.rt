//! Histories of changes on the tables of a channel, line by line. Beside the channel the same changes come to a plain one and leave it,
//! and the two have to answer the same. What is no line of `request` ends the cases.

ghost use Rattle.std.specs.Prelude.{◌≡◌, ◌<◌};

mod answer;
mod both;
mod graph;
mod question;
mod request;
mod session;

use anyhow::{Result, anyhow};
use both::Fault;
use pj_pmap::Steps;
use pj_scan::Scan;
use request::next;
use session::Session;
use std::alloc::Global;
use std::io::Write;
use std::marker::Brand;
use std::sync::ledger::{Blank, Ledger};

/// The answers to the requests, one after the other.
fn answers<L: Ledger>(alloc: Global, input: &[u8], blank: Blank) -> Result<Vec<u8>, Fault>
    requires name { blank.name ≡ L.name }
    requires parts { blank.parts ≡ L.parts }
    requires some { 0 < blank.parts }
{
    let mut steps = Steps::<L>::new(blank);
    let mut scan = Scan::new(input);
    let mut out = Vec::new(alloc);
    let mut session = Session::begin(alloc)?;
    for _ in 0..input.len() {
        let Some(request) = next(&mut scan) else {
            break;
        };
        session.answer(alloc, request, &mut steps, &mut out)?;
    }
    Ok(out)
}

/// The answers, with a ledger of steps of its own.
fn played(alloc: Global, input: &[u8]) -> Result<Vec<u8>, Fault> {
    answers::<Brand>(alloc, input, Blank::new(1))
}

/// Plays the requests, and writes the answers.
pub fn play(rt: &HostRuntime, input: &[u8]) -> Result<()> {
    match played(rt.alloc(), input) {
        Ok(answers) => rt.stdout().write_all(&answers)?,
        Err(Fault::Memory) => return Err(anyhow!("out of memory")),
        Err(Fault::Differ) => return Err(anyhow!("the tables answered as no plain channel does")),
    }
    Ok(())
}
