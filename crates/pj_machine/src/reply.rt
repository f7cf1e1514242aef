//! What is replied.
ghost use Rattle.std.specs.Prelude.{◌≡◌};
ghost use Rattle.pj_machine.specs.Told.{is_entered};

use pj_change::{Bytes, Point};
use pj_name::Name;

/// Why a command is refused.
#[derive(Clone, Copy, PartialEq, Eq)]
pub enum Refusal {
    /// A channel is not there.
    Channel,
    /// A channel of the new name is there.
    Taken,
    /// The change is not in the store.
    Change,
    /// No change has this text.
    Malformed,
    /// The store has another text under the name of this one.
    Clash,
    /// A need is not in the channel; this is the least one.
    Needs(Name),
    /// The number of the first hunk, counted from 0, whose context does not hold.
    Context(u32),
    /// The channel does not have the change.
    Absent,
    /// A change of the channel needs this one; this is the least one.
    Held(Name),
    /// A file has too many live vertices; this is the first one of the print.
    Wide(Point),
    /// The number of the first hunk, counted from 0, that has no inverse.
    Inverse(u32),
    /// The store has as many changes as it may, or would have more bytes than it may with the text.
    FullStore,
    /// There are as many channels as there may be.
    FullChannels,
    /// The journal has as many entries as it may.
    FullJournal,
}

/// The reply to a command.
#[derive(Drop)]
pub enum Reply {
    /// It was entered.
    Done,
    /// The change of this name was stored.
    Named(Name),
    /// The channel has the change already, and nothing was entered.
    Already,
    /// The store has the change of this name already, and nothing was entered.
    AlreadyNamed(Name),
    /// What was asked for.
    Body(Bytes),
    /// It was refused.
    No(Refusal),
}

/// A reply with its place in the journal, or want of memory.
#[derive(Drop)]
pub enum Numbered {
    /// The reply at this place: for a command that was entered the number of its entry, from 1, and for any other the
    /// number of entries after which it is the reply.
    At { place: u64, reply: Reply },
    /// There was no memory, and nothing was done.
    NoMemory,
}

impl Numbered {
    /// Whether it is the reply to a write that was entered.
    pub fn is_entered(&self) -> bool
        ensures { result ≡ is_entered self.now }
    {
        match self {
            Numbered::At { place: _, reply } => match reply {
                Reply::Done => true,
                Reply::Named(_) => true,
                _ => false,
            },
            Numbered::NoMemory => false,
        }
    }
}
