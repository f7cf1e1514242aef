//! How far a request was read.
ghost use Rattle.std.specs.Prelude.{◌≡◌, ◌↔◌, ℕ, ◌<◌, ◌≤◌, List, [], ◌∷◌, ◌++◌, Some, length, take, decimal, IfSome};
ghost use Rattle.pj_name.specs.Name.{is_lower_hex_digit};
ghost use Rattle.pj_machine.specs.ChannelName.{is_channel_byte};
ghost use Rattle.pj_wire.specs.Verbs.{word_of};
ghost use Rattle.pj_wire.specs.Stages.{Completes, AfterRest, Rest, IsStage, Moves, fields_of, end_before, digits_read};

use crate::verb::Verb;
use pj_change::MOST_TEXT_BYTES;

/// What stands behind the name of a channel.
#[derive(Clone, Copy)]
pub enum After {
    /// The end of the line.
    End,
    /// The name of a second channel.
    Channel,
    /// The name of a change.
    Change,
}

/// Which part of a request the bytes end in, and what of this part they have. Each says what may follow, so that no byte that was
/// read is looked at again.
#[derive(Clone, Copy)]
pub enum Stage {
    /// So many bytes of this verb, and the same of no verb before it.
    Verb { verb: Verb, read: usize },
    /// So many bytes of the name of a channel.
    Channel { read: usize, then: After },
    /// So many digits of the name of a change, which ends the line.
    Change { read: usize },
    /// Digits of the length of a text, which write this number, or none yet.
    Length { value: Option<usize> },
    /// A text of which so many bytes are missing, and the newline behind them.
    Text { missing: usize },
}

/// Before the first byte.
pub const START: Stage = Stage::Verb {
    verb: Verb::Apply,
    read: 0,
};

impl After {
    /// The byte that ends the name before it.
    fn end(self) -> u8
        ensures { result ≡ end_before self }
    {
        match self {
            After::End => b'\n',
            After::Channel | After::Change => b' ',
        }
    }

    /// The stage before its first byte, or `None` at the end of the line.
    fn start(self) -> Option<Stage>
        ensures { Moves (λ more. AfterRest self more) result }
    {
        match self {
            After::End => None,
            After::Channel => Some(Stage::Channel {
                read: 0,
                then: After::End,
            }),
            After::Change => Some(Stage::Change { read: 0 }),
        }
    }
}

/// The stage behind a verb, or `None` where nothing more belongs to its request.
fn fields(verb: Verb) -> Option<Stage>
    ensures { result ≡ fields_of verb }
{
    match verb {
        Verb::Channels | Verb::Journal | Verb::Quit => None,
        Verb::Get | Verb::Inverse => Some(Stage::Change { read: 0 }),
        Verb::Put => Some(Stage::Length { value: None }),
        Verb::Drop | Verb::Graph | Verb::Log | Verb::New | Verb::Print => Some(Stage::Channel {
            read: 0,
            then: After::End,
        }),
        Verb::Fork | Verb::Pull => Some(Stage::Channel {
            read: 0,
            then: After::Channel,
        }),
        Verb::Apply | Verb::Unrecord | Verb::Uproot => Some(Stage::Channel {
            read: 0,
            then: After::Change,
        }),
    }
}

/// A byte behind so many of a verb.
fn verb_on(verb: Verb, read: usize, byte: u8) -> Option<Stage>
    requires { read < length (word_of verb) }
    ensures { Moves (λ more. Rest (Stage.Verb verb read) (byte ∷ more)) result }
{
    match verb.going_on(read, byte) {
        None => None,
        Some(next) if read + 1 < next.word().len() => Some(Stage::Verb {
            verb: next,
            read: read + 1,
        }),
        Some(next) => fields(next),
    }
}

/// Whether the names of channels have such bytes.
fn is_channel_byte(byte: u8) -> bool
    ensures { result ≡ is_channel_byte byte }
{
    byte.is_ascii_alphanumeric() || byte == b'.' || byte == b'-' || byte == b'_'
}

/// Whether the names of changes have such bytes: lower-case hex digits.
fn is_hex_digit(byte: u8) -> bool
    ensures { result ≡ is_lower_hex_digit byte }
{
    byte.is_ascii_digit() || (b'a' <= byte && byte <= b'f')
}

/// A byte behind so many of the name of a channel.
fn channel_on(read: usize, then: After, byte: u8) -> Option<Stage>
    requires { read ≤ 64 }
    ensures { Moves (λ more. Rest (Stage.Channel read then) (byte ∷ more)) result }
{
    if is_channel_byte(byte) {
        if read < 64 {
            Some(Stage::Channel {
                read: read + 1,
                then,
            })
        } else {
            None
        }
    } else if byte == then.end() && read > 0 {
        then.start()
    } else {
        None
    }
}

/// A byte behind so many digits of the name of a change. What ends them ends the request.
fn change_on(read: usize, byte: u8) -> Option<Stage>
    requires { read ≤ 64 }
    ensures { Moves (λ more. Rest (Stage.Change read) (byte ∷ more)) result }
{
    if is_hex_digit(byte) && read < 64 {
        Some(Stage::Change { read: read + 1 })
    } else {
        None
    }
}

/// The number that the digits write with one more behind them, where it is the length of a text.
fn with_digit(value: Option<usize>, byte: u8) -> Option<usize>
    requires { IsStage (Stage.Length value) }
    ensures { (n : ℕ) → (result ≡ Some n) ↔ ((n ≤ 16777216) × (digits_read value ++ byte ∷ [] ≡ decimal n)) }
{
    if !byte.is_ascii_digit() {
        return None;
    }
    let digit = (byte - b'0') as usize;
    match value {
        None => Some(digit),
        Some(0) => None,
        Some(tens) => {
            let number = tens * 10 + digit;
            if number <= MOST_TEXT_BYTES {
                Some(number)
            } else {
                None
            }
        }
    }
}

/// A byte behind the digits of the length of a text.
fn length_on(value: Option<usize>, byte: u8) -> Option<Stage>
    requires { IsStage (Stage.Length value) }
    ensures { Moves (λ more. Rest (Stage.Length value) (byte ∷ more)) result }
{
    if byte == b'\n' {
        return match value {
            Some(missing) => Some(Stage::Text { missing }),
            None => None,
        };
    }
    match with_digit(value, byte) {
        Some(number) => Some(Stage::Length {
            value: Some(number),
        }),
        None => None,
    }
}

/// So many bytes of a text, none of which is looked at.
fn text_on(missing: usize, count: usize) -> Option<Stage>
    ensures { (bytes : List ℕ) → length bytes ≡ count → Moves (λ more. Rest (Stage.Text missing) (bytes ++ more)) result }
{
    if count <= missing {
        Some(Stage::Text {
            missing: missing - count,
        })
    } else {
        None
    }
}

impl Stage {
    /// The stage behind one more byte, or `None` where the request ends with it, or no request has it there.
    fn step(self, byte: u8) -> Option<Stage>
        requires { IsStage self }
        ensures { Moves (λ more. Rest self (byte ∷ more)) result }
    {
        match self {
            Stage::Verb { verb, read } => verb_on(verb, read, byte),
            Stage::Channel { read, then } => channel_on(read, then, byte),
            Stage::Change { read } => change_on(read, byte),
            Stage::Length { value } => length_on(value, byte),
            Stage::Text { missing } => text_on(missing, 1),
        }
    }

    /// The stage behind more bytes, or `None` where the request ends among them, or no request has them there. Each of them is
    /// looked at once, and those of a text are not.
    pub fn read(self, bytes: &[u8]) -> Option<Stage>
        requires { IsStage self }
        ensures { Moves (λ more. Rest self (bytes.now ++ more)) result }
    {
        let mut stage = self;
        for place in 0..bytes.len() {
            if let Stage::Text { missing } = stage {
                return text_on(missing, bytes.len() - place);
            }
            match stage.step(bytes[place]) {
                Some(next) => stage = next,
                None => return None,
            }
        }
        Some(stage)
    }
}
