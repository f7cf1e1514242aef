//! Stored strings as requests.
ghost use Rattle.std.specs.Prelude.{◌≡◌, ◌↔◌, IsTrue, IfOk};
ghost use Rattle.pj_stored.specs.Answered.{IsCallOf};

use pj_change::Memory;
use pj_machine::Command;
use pj_wire::{Decoder, Next};
use std::alloc::Global;

fn is_quit(command: &Command) -> bool
    ensures { IsTrue result ↔ (command.now ≡ Command.Quit) }
{
    match command {
        Command::Quit => true,
        _ => false,
    }
}

/// The request with a reply that the whole string spells, if it spells one.
///
/// # Errors
/// `Memory`.
pub(crate) fn call_of(alloc: Global, string: &[u8]) -> Result<Option<Command>, Memory>
    ensures { IfOk result (λ found. IsCallOf string.now found) }
{
    let mut decoder = Decoder::new(alloc);
    decoder.feed(string)?;
    match decoder.next(alloc)? {
        Next::Message(command) => {
            if is_quit(&command) {
                return Ok(None);
            }
            if !decoder.idle() {
                return Ok(None);
            }
            Ok(Some(command))
        }
        Next::More => Ok(None),
        Next::Bad => Ok(None),
    }
}
