//! Names of changes, as 32 bytes and as 64 digits.

ghost use Rattle.std.specs.Prelude.{◌≡◌, ◌↔◌, ℕ, ◌<◌, length, slice_index, IsSome};

use crate::digits::is_lower_hex;
use hex::FromHex;

/// The name of a change: the SHA-256 digest of its text.
///
/// Names are ordered by their first byte that differs.
#[derive(Clone, Copy, PartialEq, Eq, Hash, Debug)]
pub struct Name {
    pub bytes: [u8; 32],
    pub ghost whole: { length bytes ≡ 32 },
    pub ghost small: { (i : ℕ) → slice_index bytes i < 256 },
}

impl Name {
    ghost use Rattle.pj_name.specs.Name.{IsHex, hex, no_name};

    /// The name with these bytes.
    pub fn of(bytes: [u8; 32]) -> Self
        ensures { result.bytes ≡ bytes }
    {
        Name { bytes }
    }

    /// Thirty-two zeros, the least name.
    pub fn least() -> Self
        ensures { result ≡ no_name }
    {
        Name::of([0; 32])
    }

    /// The name that 64 lower-case hex digits spell, or `None` where the text is anything else.
    pub fn read(text: &[u8]) -> Option<Self>
        ensures found { IsSome result ↔ IsHex text.now }
        ensures spelled { (name : Name) → (result ≡ Some name) ↔ (text.now ≡ hex name.bytes) }
    {
        if !is_lower_hex(text) {
            return None;
        }
        let bytes = <[u8; 32]>::from_hex(text).ok()?;
        Some(Name { bytes })
    }

    /// The name as 64 lower-case hex digits.
    pub fn hex(self) -> [u8; 64]
        ensures { result ≡ hex self.bytes }
    {
        let mut digits = [0; 64];
        let _ = hex::encode_to_slice(self.bytes, &mut digits);
        digits
    }
}
