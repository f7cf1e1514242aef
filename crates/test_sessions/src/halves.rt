//! Cases of two sessions on one repository: what they were replied, and what the repository leaves. Of each case the first session is
//! held between the halves of its first call that has two, until the second session has been answered.

mod case;
mod hold;
mod seat;
mod shown;

use case::next_case;
use hold::play;
use pj_change::Memory;
use pj_scan::Scan;
use std::alloc::Global;
use std::sync::Wait;
use std::thread::Threads;

/// What is written of all cases.
pub fn play_all<R: Threads + Wait + Sync>(
    rt: &R,
    alloc: Global,
    input: &[u8],
) -> Result<Vec<u8>, Memory> {
    let mut scan = Scan::new(input);
    let mut out = Vec::new(alloc);
    for _ in 0..input.len() {
        let Some(case) = next_case(&mut scan) else {
            break;
        };
        play(rt, alloc, case, &mut out)?;
    }
    Ok(out)
}
