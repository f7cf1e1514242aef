//! One stored string is answered.
ghost use Rattle.std.specs.Prelude.{◌<◌, ◌^◌};
ghost use Rattle.pj_stored.specs.Answered.{AnswersNext};

use crate::calls::call_of;
use pj_change::Memory;
use pj_machine::{Numbered, Replier};
use std::alloc::Global;
use std::sync::Wait;
use std::thread::Threads;

/// Answers the request that the string spells: whether it spells one with a reply, and that was
/// accepted. It may wait.
///
/// # Errors
/// `Memory`. Nothing is entered.
pub(crate) fn restore_next<P: Replier, R: Threads + Wait + Sync>(
    rt: &R,
    alloc: Global,
    replier: &P,
    pass: &mut P::Pass,
    string: &[u8],
) -> Result<bool, Memory>
    requires calls { (P.view pass.old).calls < 2 ^ 63 }
    ensures { AnswersNext (P.limits replier.now) (P.view pass.old) (P.view pass.new) string.now result }
{
    let Some(command) = call_of(alloc, string)? else {
        return Ok(false);
    };
    match replier.answer(rt, alloc, pass, &command) {
        Numbered::NoMemory => Err(Memory),
        numbered => Ok(numbered.is_entered()),
    }
}
