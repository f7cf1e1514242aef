//! What stands at a place of a file.
ghost use Rattle.std.specs.Prelude.{◌≢◌, ◌<◌, ◌^◌, [], ◌∷◌, take};
ghost use Rattle.pj_journal.specs.Head.{SaysHead, HasEnd};

/// How many bytes a string may have.
const MOST: u64 = 16_777_230;

/// What stands at a place: a closed gate, an entry by the length of its string, or neither.
#[derive(Clone, Copy, Debug)]
pub enum Head {
    Closed,
    Entry(u64),
    Broken,
}

/// What these bytes say: those that stand at the place in a file of this length, up to 9.
pub fn head_of(front: &[u8], place: u64, file_len: u64) -> Head
    requires { file_len < 2 ^ 63 }
    ensures says { SaysHead front.now place file_len result }
    ensures bound { HasEnd place result }
{
    match front.first() {
        None => Head::Broken,
        Some(0) => Head::Closed,
        Some(_) => entry_of(front, place, file_len),
    }
}

// The same where the gate is open.
fn entry_of(front: &[u8], place: u64, file_len: u64) -> Head
    requires open { take 1 front.now ≢ 0 ∷ [] }
    requires short { file_len < 2 ^ 63 }
    ensures says { SaysHead front.now place file_len result }
    ensures bound { HasEnd place result }
{
    if front.len() < 9 {
        return Head::Broken;
    }
    let mut size = [0; 8];
    size.copy_from_slice(&front[1..9]);
    let len = u64::from_be_bytes(size);
    let room = file_len.saturating_sub(place).saturating_sub(9);
    if len == 0 || len > MOST || len > room {
        return Head::Broken;
    }
    Head::Entry(len)
}
