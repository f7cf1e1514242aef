//! The input, taken to its end.
ghost use Rattle.std.specs.Prelude.{◌≡◌, ◌≤◌, ◌++◌, length, IfOk, MatchResult};
ghost use Rattle.pj_io.specs.Told.{Where};
ghost use Rattle.pj_serve.specs.Input.{Reads, HasReadCause};
ghost use Rattle.pj_serve.specs.Show.{most_taken};

use pj_change::MOST_TEXT_BYTES;
use pj_io::{Failed, Memory, Source};
use std::alloc::{AllocError, Global};

/// The most bytes that are taken: one more than any text has.
const MOST_TAKEN: usize = MOST_TEXT_BYTES + 1;

/// The most bytes that are asked for at once.
const PIECE: usize = 4_096;

/// Why the input was not read.
#[derive(Clone, Copy, Debug, PartialEq, Eq)]
pub(crate) enum InputRefusal {
    /// The source failed.
    Fault,
    /// There was no memory for its bytes.
    Memory,
}

impl From<Failed> for InputRefusal {
    ghost use Rattle.pj_serve.specs.declared.input.InputRefusal.TheVariants.{Fault};

    ghost from_gives = { λ _ e. e ≡ Fault };

    fn from(_: Failed) -> Self {
        InputRefusal::Fault
    }
}

impl From<AllocError> for InputRefusal {
    ghost use Rattle.pj_serve.specs.declared.input.InputRefusal.TheVariants.{Memory as OutOfMemory};

    ghost from_gives = { λ _ e. e ≡ OutOfMemory };

    fn from(_: AllocError) -> Self {
        InputRefusal::Memory
    }
}

/// Takes the source to its end, or `MOST_TAKEN` bytes of it.
///
/// # Errors
/// `Fault` only where the source's count of faults rose, or `Memory`.
pub(crate) fn take_all<S: Source>(alloc: Global, source: &mut S) -> Result<Vec<u8>, InputRefusal>
    ensures few { IfOk result (λ text. length text.items ≤ most_taken) }
    ensures read { Where (S.meaning.tells source.old) (Reads (S.meaning.left source.old) (S.meaning.left source.new) result) }
    ensures told { S.meaning.tells source.new ≡ S.meaning.tells source.old }
    ensures cause { HasReadCause (S.meaning.faults source.old) (S.meaning.faults source.new) result }
{
    let mut text = Vec::new(alloc);
    let mut piece = [0; PIECE];
    while text.len() < MOST_TAKEN {
        let wanted = (MOST_TAKEN - text.len()).min(PIECE);
        let count = source.take(&mut piece[..wanted])?;
        if count == 0 {
            break;
        }
        text.extend_from_slice(&piece[..count])?;
    }
    Ok(text)
}
