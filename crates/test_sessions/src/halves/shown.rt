//! What is written of the repository that a case leaves.
use crate::written::{put_journal, put_number};
use pj_change::Memory;
use pj_repo::Closed;

/// Writes the lines of the journal, and of each channel how many changes it has and the number of its last entry.
pub fn put_closed(out: &mut Vec<u8>, closed: &Closed) -> Result<(), Memory> {
    put_journal(out, closed.entries.items())?;
    for (name, standing) in &closed.channels {
        out.extend_from_slice(name.bytes())?;
        let changes = u64::try_from(standing.channel.len()).unwrap_or(u64::MAX);
        put_number(out, b" has ", changes, b" changes")?;
        put_number(out, b", and its last entry is ", standing.last, b"\n")?;
    }
    Ok(())
}
