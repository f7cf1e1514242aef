//! Requests as they are stored.
ghost use Rattle.std.specs.Prelude.{◌≡◌, false, IfOk, MatchOption};
ghost use Rattle.pj_wire.specs.Requests.{spelling, IsRequest};
ghost use Rattle.pj_stored.specs.Writing.{may_enter};

use pj_change::Memory;
use pj_journal::Frame;
use pj_machine::Command;
use pj_wire::write_request;
use std::alloc::Global;

/// Whether the command enters a write where it is accepted.
fn may_enter(command: &Command) -> bool
    ensures { result ≡ may_enter command.now }
{
    match command {
        Command::Put(_) => true,
        Command::New(_) => true,
        Command::Fork(_, _) => true,
        Command::Drop(_) => true,
        Command::Apply(_, _) => true,
        Command::Unrecord(_, _) => true,
        Command::Uproot(_, _) => true,
        Command::Pull(_, _) => true,
        _ => false,
    }
}

/// The request with the bytes that stand round it in a log, where it may enter a write.
///
/// # Errors
/// `Memory`.
pub(crate) fn frame_of(alloc: Global, command: &Command) -> Result<Option<Frame>, Memory>
    requires { IsRequest command.now }
    ensures { IfOk result (λ found. MatchOption found (may_enter command.now ≡ false) (λ frame. frame ≡ spelling command.now)) }
{
    if !may_enter(command) {
        return Ok(None);
    }
    let bytes = write_request(alloc, command)?;
    Ok(Some(Frame::of(alloc, &bytes)?))
}
