//! How sessions end.
use std::marker::Model;

/// How a session ended.
#[derive(Clone, Copy, Debug, PartialEq, Eq)]
pub enum End {
    /// It was told to quit, or its input ended with nothing left over.
    Done,
    /// Its source failed.
    ReadFault,
    /// Its sink failed.
    WriteFault,
    /// The bytes left over neither begin with a request nor are a proper front of one.
    Bad,
    /// Its input ended within a request.
    Cut,
    /// It took as many bytes as it may.
    Spent,
    /// There was no memory for its input, or for a step before a command was answered.
    Memory,
    /// What keeps its writes failed.
    StoreFault,
}

/// The end of the session of a pass.
#[derive(Clone, Copy, Debug, PartialEq, Eq)]
pub struct Ended {
    pub pass: u32,
    pub end: End,
}

/// Ends, by rising pass.
#[derive(Drop)]
pub struct Ends {
    items: Vec<Ended>,
}

impl Model for Ends {
    ghost use Rattle.std.specs.Prelude.{List};
    ghost use Rattle.pj_session.specs.declared.end.Ended.{Ended};

    ghost Value = { List Ended };

    ghost view = { λ e. e.items.items };
}

impl Ends {
    ghost use Rattle.std.specs.Prelude.{◌≡◌};

    /// The list of these ends.
    pub fn of(items: Vec<Ended>) -> Ends
        ensures { result ≡ items.items }
    {
        Ends { items }
    }

    /// Its ends.
    pub fn items(&self) -> &[Ended]
        ensures { result.now ≡ self.now }
    {
        self.items.as_slice()
    }
}
