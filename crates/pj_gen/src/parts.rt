//! What holds scripts.
use pj_change::Bytes;
use std::marker::Model;

/// What holds scripts. Contracts see a list of lists of bytes.
#[derive(Drop)]
pub struct Parts {
    items: Vec<Bytes>,
}

impl Model for Parts {
    ghost use Rattle.std.specs.Prelude.{ℕ, List};

    ghost Value = { List (List ℕ) };

    ghost view = { λ p. p.items.items };
}

impl Parts {
    ghost use Rattle.std.specs.Prelude.{◌≡◌};

    /// The list of these scripts. It takes no memory.
    pub fn of(items: Vec<Bytes>) -> Parts
        ensures { result ≡ items.items }
    {
        Parts { items }
    }

    /// Its scripts. It takes no memory.
    pub fn items(&self) -> &[Bytes]
        ensures { result.now ≡ self.now }
    {
        self.items.as_slice()
    }
}

/// The scripts of a large run.
#[derive(Drop)]
pub struct Scripts {
    /// The script of the session before all others.
    pub prelude: Bytes,
    /// The scripts of the sessions.
    pub sessions: Parts,
    /// The script of the session after all others.
    pub closing: Bytes,
}
