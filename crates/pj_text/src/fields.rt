//! What stands in a line: words that are always the same, numbers, names and references.

ghost use Rattle.std.specs.Prelude.{◌≡◌, ◌<◌, ◌^◌, length};
ghost use Rattle.pj_scan.specs.Scan.{rest as left};
ghost use Rattle.pj_text.specs.Gives.{Gives};
ghost use Rattle.pj_text.specs.Reading.{begins, token_at, bytes_at, line_at, word_at, number_at, name_at, reference_at};

use crate::refusal::ReadRefusal;
use pj_change::{Bytes, Ref};
use pj_name::Name;
use pj_scan::Scan;
use std::alloc::Global;

/// Whether these bytes come next.
pub fn comes(scan: &Scan<'_>, word: &[u8]) -> bool
    ensures { result ≡ begins word.now (left scan.now) }
{
    scan.rest().starts_with(word)
}

/// Passes over these bytes.
#[tactic(auto, using(crate::proofs::Scans::token_found, crate::proofs::Scans::token_missed), unfolding(crate::specs::Reading::token_at))]
pub fn token(scan: &mut Scan<'_>, word: &[u8]) -> Result<(), ReadRefusal>
    requires { length word.now < 2 ^ 32 }
    ensures { Gives result (left scan.new) (token_at word.now (left scan.old)) }
{
    if !comes(scan, word) {
        return Err(ReadRefusal::Malformed);
    }
    match scan.bytes(word.len() as u32) {
        Some(_) => Ok(()),
        None => Err(ReadRefusal::Malformed),
    }
}

/// As many bytes.
#[tactic(auto, using(crate::proofs::Scans::piece_found, crate::proofs::Scans::piece_missed))]
pub fn bytes(alloc: Global, scan: &mut Scan<'_>, count: u32) -> Result<Bytes, ReadRefusal>
    ensures { Gives result (left scan.new) (bytes_at count (left scan.old)) }
{
    match scan.bytes(count) {
        Some(bytes) => Ok(Bytes::of(Vec::from_slice(alloc, bytes)?)),
        None => Err(ReadRefusal::Malformed),
    }
}

/// What is left of the line. Its newline is passed over too.
#[tactic(auto, using(crate::proofs::Scans::line_found, crate::proofs::Scans::line_missed))]
pub fn line(alloc: Global, scan: &mut Scan<'_>) -> Result<Bytes, ReadRefusal>
    ensures { Gives result (left scan.new) (line_at (left scan.old)) }
{
    match scan.line() {
        Some(line) => Ok(Bytes::of(Vec::from_slice(alloc, line)?)),
        None => Err(ReadRefusal::Malformed),
    }
}

/// A decimal number.
#[tactic(auto, using(crate::proofs::Scans::number_found, crate::proofs::Scans::number_missed))]
pub fn number(scan: &mut Scan<'_>) -> Result<u32, ReadRefusal>
    ensures { Gives result (left scan.new) (number_at (left scan.old)) }
{
    match scan.number() {
        Some(number) => Ok(number),
        None => Err(ReadRefusal::Malformed),
    }
}

/// The name of a change.
#[tactic(auto, using(crate::proofs::Scans::piece_missed), unfolding(crate::specs::Reading::name_at))]
pub fn name(scan: &mut Scan<'_>) -> Result<Name, ReadRefusal>
    ensures { Gives result (left scan.new) (name_at (left scan.old)) }
{
    match scan.bytes(64) {
        Some(digits) => Name::read(digits).ok_or(ReadRefusal::Malformed),
        None => Err(ReadRefusal::Malformed),
    }
}

/// A reference.
#[tactic(auto, unfolding(crate::specs::Reading::reference_at))]
pub fn reference(scan: &mut Scan<'_>) -> Result<Ref, ReadRefusal>
    ensures { Gives result (left scan.new) (reference_at (left scan.old)) }
{
    if comes(scan, b"root") {
        token(scan, b"root")?;
        return Ok(Ref::Root);
    }
    let owner = number(scan)?;
    token(scan, b".")?;
    let offset = number(scan)?;
    Ok(Ref::At { owner, offset })
}
