//! How many bytes a call in memory moves, and how it moves them.
ghost use Rattle.std.specs.Prelude.{◌≡◌, ◌≤◌, ◌++◌, length, take, drop};
ghost use Rattle.pj_io.specs.Pieces.{AllPositive, piece_at, within_piece};

/// At most as many bytes as the piece of this call, counted from 1, allows.
#[tactic(auto, using(crate::proofs::Taken::none_within))]
pub fn allowed(pieces: &[usize], call: u64, count: usize) -> usize
    ensures value { result ≡ within_piece (piece_at pieces.now call) count }
    ensures bound { result ≤ count }
    ensures progress { AllPositive pieces.now → result ≡ 0 → count ≡ 0 }
{
    let place = (call as usize).min(pieces.len()).saturating_sub(1);
    match pieces.get(place) {
        Some(piece) => count.min(*piece),
        None => count,
    }
}

/// Copies the first bytes to the front of the buffer.
pub fn copy_front(bytes: &[u8], into: &mut [u8], count: usize)
    requires given { count ≤ length bytes.now }
    requires room { count ≤ length into.old }
    ensures { into.new ≡ take count bytes.now ++ drop count into.old }
{
    into[..count].copy_from_slice(&bytes[..count]);
}
