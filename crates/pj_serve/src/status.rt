//! How a call ends.
ghost use Rattle.std.specs.Prelude.{◌≡◌};
ghost use Rattle.pj_serve.specs.Status.{first_end, status_of_end, status_after as after};

use pj_session::{End, Ended};

/// How the call ended, as the exit status of the program.
#[derive(Clone, Copy, Debug, PartialEq, Eq)]
pub enum Status {
    /// All was done.
    Done,
    /// `show` read its input, and no change has this text.
    Malformed,
    /// The words name no command.
    Words,
    /// An input, a door, or an opening for reading failed.
    ReadFault,
    /// An output, or an opening for writing, failed.
    WriteFault,
    /// There was no memory for the work.
    Memory,
    /// A session ended within a request, at bytes that are no request, or at its limit.
    Session,
    /// The store of a kept repository has another form, or its strings are not one history.
    Journal,
    /// A store, or its opening, failed.
    Store,
}

impl Status {
    ghost use Rattle.pj_serve.specs.Status.{exit_status};

    /// The exit status of the program, from 0 to 8.
    pub fn code(self) -> u8
        ensures { result ≡ exit_status self }
    {
        match self {
            Status::Done => 0,
            Status::Malformed => 1,
            Status::Words => 2,
            Status::ReadFault => 3,
            Status::WriteFault => 4,
            Status::Memory => 5,
            Status::Session => 6,
            Status::Journal => 7,
            Status::Store => 8,
        }
    }
}

/// The first end other than `Done`.
fn first_of(ends: &[Ended]) -> Option<End>
    ensures { result ≡ first_end ends.now }
{
    for ended in ends {
        match ended.end {
            End::Done => {}
            end => return Some(end),
        }
    }
    None
}

/// The status for one end.
fn of_end(end: End) -> Status
    ensures { result ≡ status_of_end end }
{
    match end {
        End::Done => Status::Done,
        End::ReadFault => Status::ReadFault,
        End::WriteFault => Status::WriteFault,
        End::StoreFault => Status::Store,
        End::Memory => Status::Memory,
        End::Bad | End::Cut | End::Spent => Status::Session,
    }
}

/// The status after sessions with these ends, of which `whole` says whether all was then written to the output.
pub(crate) fn status_after(ends: &[Ended], whole: bool) -> Status
    ensures { result ≡ after (first_end ends.now) whole }
{
    match first_of(ends) {
        Some(end) => of_end(end),
        None if whole => Status::Done,
        None => Status::WriteFault,
    }
}
