//! The verbs of requests.
ghost use Rattle.std.specs.Prelude.{◌≡◌, ◌↔◌, ℕ, ◌<◌, List, ◌∷◌, ◌++◌, length, IsTrue, IsNone, IfSome};
ghost use Rattle.pj_wire.specs.Verbs.{word_of, GoesOn};

/// The first word of a request.
#[derive(Clone, Copy)]
pub enum Verb {
    Apply,
    Channels,
    Drop,
    Fork,
    Get,
    Graph,
    Inverse,
    Journal,
    Log,
    New,
    Print,
    Pull,
    Put,
    Quit,
    Unrecord,
    Uproot,
}

/// All verbs.
pub const VERBS: [Verb; 16] = [
    Verb::Apply,
    Verb::Channels,
    Verb::Drop,
    Verb::Fork,
    Verb::Get,
    Verb::Graph,
    Verb::Inverse,
    Verb::Journal,
    Verb::Log,
    Verb::New,
    Verb::Print,
    Verb::Pull,
    Verb::Put,
    Verb::Quit,
    Verb::Unrecord,
    Verb::Uproot,
];

/// Whether the word goes on with this byte behind such a front.
fn goes_on(word: &[u8], front: &[u8], byte: u8) -> bool
    ensures { IsTrue result ↔ ((behind : List ℕ) × (word.now ≡ front.now ++ byte ∷ behind)) }
{
    if !word.starts_with(front) {
        return false;
    }
    let (_, behind) = word.split_at(front.len());
    match behind.split_first() {
        Some((first, _)) => *first == byte,
        None => false,
    }
}

impl Verb {
    /// What a request of this verb begins with: the verb and the byte that ends it.
    pub fn word(self) -> &'static [u8]
        ensures { result.now ≡ word_of self }
    {
        match self {
            Verb::Apply => b"apply ",
            Verb::Channels => b"channels\n",
            Verb::Drop => b"drop ",
            Verb::Fork => b"fork ",
            Verb::Get => b"get ",
            Verb::Graph => b"graph ",
            Verb::Inverse => b"inverse ",
            Verb::Journal => b"journal\n",
            Verb::Log => b"log ",
            Verb::New => b"new ",
            Verb::Print => b"print ",
            Verb::Pull => b"pull ",
            Verb::Put => b"put ",
            Verb::Quit => b"quit\n",
            Verb::Unrecord => b"unrecord ",
            Verb::Uproot => b"uproot ",
        }
    }

    /// The first verb that begins with as many bytes of this one, and goes on with this byte.
    pub fn going_on(self, read: usize, byte: u8) -> Option<Verb>
        requires { read < length (word_of self) }
        ensures some { IfSome result (λ verb. GoesOn self read byte verb) }
        ensures none { IsNone result → (verb : Verb) → ¬ (GoesOn self read byte verb) }
    {
        let (front, _) = self.word().split_at(read);
        for verb in VERBS.iter() {
            if goes_on(verb.word(), front, byte) {
                return Some(*verb);
            }
        }
        None
    }
}
