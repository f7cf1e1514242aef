//! The naming of texts by their digests.

ghost use Rattle.std.specs.Prelude.{◌≡◌};
ghost use Rattle.pj_name.specs.Name.{name_of as text_name};

use crate::name::Name;
use sha2::{Digest, Sha256};

/// The name of a text: its SHA-256 digest (FIPS 180-4).
#[tactic(auto, unfolding(crate::specs::Name::name_of))]
pub fn name_of(bytes: &[u8]) -> Name
    ensures { result ≡ text_name bytes.now }
{
    Name {
        bytes: Sha256::digest(bytes),
    }
}
