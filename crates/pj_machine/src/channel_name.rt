//! Names of channels.
ghost use Rattle.std.specs.Prelude.{◌≡◌, ◌↔◌, ◌≤◌, length, IsSome, IfSome};
ghost use Rattle.pj_machine.specs.Padded.{padded};
ghost use Rattle.std.specs.Ordering.{as_partial_cmp, eq_by_cmp};
ghost use Rattle.std.proofs.Common.{refl};
ghost use Rattle.pj_machine.specs.ChannelName.{is_channel_byte, IsChannelName, channel_cmp, channel_total, channel_equivalence, channel_partial_equivalence, channel_partial_order};

use std::cmp::Ordering;
use std::marker::Model;

/// The name of a channel: 1 to 64 bytes, each a letter of a to z or A to Z, a digit, `.`, `-` or `_`.
///
/// Contracts see its bytes. Names are ordered by their first byte that differs.
#[derive(Clone, Copy)]
pub struct ChannelName {
    // The name, and zeros behind it.
    bytes: [u8; 64],
    len: usize,
}

impl Model for ChannelName {
    ghost use Rattle.std.specs.Prelude.{ℕ, List, length, take};
    ghost use Rattle.std.proofs.Common.{sym};
    ghost use Rattle.pj_machine.specs.Padded.{padded, IsPadded};

    ghost Value = { List ℕ };

    ghost view = { λ c. take c.len c.bytes };

    ghost invariant = { λ c. IsPadded c.bytes c.len };

    ghost inverse = { λ text. record { bytes = padded text; len = length text } };

    ghost inverse_ok = { λ a h i. record { bytes = sym h.zeros i; len = h.count i } };
}

/// A letter, a digit, `.`, `-` or `_`.
fn is_channel_byte(byte: u8) -> bool
    ensures { result ≡ is_channel_byte byte }
{
    byte.is_ascii_alphanumeric() || byte == b'.' || byte == b'-' || byte == b'_'
}

/// The text, and zeros behind it.
fn pad(text: &[u8]) -> [u8; 64]
    requires { length text.now ≤ 64 }
    ensures { result ≡ padded text.now }
{
    let mut bytes = [0; 64];
    bytes[..text.len()].copy_from_slice(text);
    bytes
}

impl ChannelName {
    /// The name of these bytes, or `None` where no channel may have it. It takes no memory.
    pub fn read(text: &[u8]) -> Option<ChannelName>
        ensures found { IsSome result ↔ IsChannelName text.now }
        ensures bytes { IfSome result (λ name. name ≡ text.now) }
    {
        if text.is_empty() || text.len() > 64 || !text.iter().all(|byte| is_channel_byte(*byte)) {
            return None;
        }
        let bytes = pad(text);
        Some(ChannelName {
            bytes,
            len: text.len(),
        })
    }

    /// Its bytes.
    pub fn bytes(&self) -> &[u8]
        ensures bytes { result.now ≡ self.now }
        ensures allowed { IsChannelName self.now }
    {
        &self.bytes[..self.len]
    }
}

impl PartialEq for ChannelName {
    ghost eq = { eq_by_cmp channel_cmp };

    ghost laws = { channel_partial_equivalence };

    fn eq(&self, other: &ChannelName) -> bool {
        self.cmp(other) == Ordering::Equal
    }
}

impl Eq for ChannelName {
    ghost laws = { channel_equivalence };
}

impl Ord for ChannelName {
    ghost cmp = { channel_cmp };

    ghost total = { channel_total };

    ghost matches_partial_cmp = { λ x y. refl };

    ghost matches_eq = { λ x y. refl };

    fn cmp(&self, other: &ChannelName) -> Ordering {
        self.bytes().cmp(other.bytes())
    }
}

impl PartialOrd for ChannelName {
    ghost partial_cmp = { as_partial_cmp channel_cmp };

    ghost laws = { channel_partial_order };

    fn partial_cmp(&self, other: &ChannelName) -> Option<Ordering> {
        Some(self.cmp(other))
    }
}
