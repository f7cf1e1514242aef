//! The scripts of a large run, each made.
ghost use Rattle.std.specs.Prelude.{◌≡◌, ◌+◌, ◌-◌, ◌%◌, ◌<◌, ◌≤◌, ◌++◌, IfOk};
ghost use Rattle.pj_name.specs.Name.{name_of as name_of_text};
ghost use Rattle.pj_change.specs.Text.{text_of};
ghost use Rattle.pj_wire.specs.Requests.{spellings};
ghost use Rattle.pj_gen.specs.Changes.{zero_name, change_after, last_after as last_insertion_after};
ghost use Rattle.pj_gen.specs.Requests.{script, requests_for, session_requests, session_scripts, AreScripts};

use crate::changes::{Insertion, change_text, last_after};
use crate::draws::{Draws, draw_change};
use crate::parts::{Parts, Scripts};
use crate::requests::{closing, prelude, put_change, put_quit};
use crate::zero::zero_text;
use pj_change::{Bytes, Memory};
use pj_name::{Name, name_of};
use std::alloc::{AllocError, Global};

/// The most changes of a large run.
pub const MOST_CHANGES: u32 = 16_384;

/// The most sessions of a large run.
pub const MOST_SESSIONS: u32 = 8;

/// Appends the requests for the change after this many others, by the last insertion of its line. Gives the last insertion
/// once the line has the change.
fn put_own(
    alloc: Global,
    out: &mut Vec<u8>,
    before: u32,
    zero: Name,
    last: Option<Insertion>,
    draws: Draws,
) -> Result<Option<Insertion>, AllocError>
    requires before { before < MOST_CHANGES }
    requires zero { zero ≡ zero_name }
    ensures { IfOk result (λ now. let text = text_of (change_after last (before + 1) draws) in
        (out.new.items ≡ out.old.items ++ spellings (requests_for (before % 8) (before + 1) text))
        × (now ≡ last_insertion_after last draws (name_of_text text))) }
{
    let text = change_text(alloc, before + 1, zero, last, draws)?;
    let name = name_of(&text);
    put_change(out, (before % 8) as u8, before + 1, &text, name)?;
    Ok(last_after(last, draws, name))
}

/// The script of a session.
fn session_script(
    alloc: Global,
    number: u32,
    changes: u32,
    sessions: u32,
    session: u32,
    zero: Name,
) -> Result<Vec<u8>, AllocError>
    requires changes { (1 ≤ changes) × (changes ≤ MOST_CHANGES) }
    requires sessions { 1 ≤ sessions }
    requires zero { zero ≡ zero_name }
    ensures { IfOk result (λ bytes. bytes.items ≡ script (session_requests number sessions session (changes - 1))) }
{
    let mut out = Vec::new(alloc);
    let mut state = u64::from(number);
    let mut last: [Option<Insertion>; 8] = [None; 8];
    for before in 0..changes - 1 {
        let draws = draw_change(&mut state);
        if before % 8 % sessions == session {
            let line = (before % 8) as usize;
            last[line] = put_own(alloc, &mut out, before, zero, last[line], draws)?;
        }
    }
    put_quit(&mut out)?;
    Ok(out)
}

/// The scripts of all sessions.
fn session_parts(
    alloc: Global,
    number: u32,
    changes: u32,
    sessions: u32,
    zero: Name,
) -> Result<Vec<Bytes>, AllocError>
    requires changes { (1 ≤ changes) × (changes ≤ MOST_CHANGES) }
    requires sessions { 1 ≤ sessions }
    requires zero { zero ≡ zero_name }
    ensures { IfOk result (λ parts. parts.items ≡ session_scripts number changes sessions sessions) }
{
    let mut parts = Vec::new(alloc);
    for session in 0..sessions {
        let bytes = session_script(alloc, number, changes, sessions, session, zero)?;
        parts.push(Bytes::of(bytes))?;
    }
    Ok(parts)
}

/// All scripts, whose only error is that of the allocator.
fn all_scripts(
    alloc: Global,
    number: u32,
    changes: u32,
    sessions: u32,
) -> Result<Scripts, AllocError>
    requires changes { (1 ≤ changes) × (changes ≤ MOST_CHANGES) }
    requires sessions { (1 ≤ sessions) × (sessions ≤ MOST_SESSIONS) }
    ensures { IfOk result (AreScripts number changes sessions) }
{
    let text = zero_text(alloc)?;
    let zero = name_of(&text);
    let prelude = prelude(alloc, &text, zero)?;
    let sessions = session_parts(alloc, number, changes, sessions, zero)?;
    let closing = closing(alloc)?;
    Ok(Scripts {
        prelude: Bytes::of(prelude),
        sessions: Parts::of(sessions),
        closing: Bytes::of(closing),
    })
}

/// The scripts of the large run of this number, with 1 to 16,384 changes and 1 to 8 sessions.
///
/// # Errors
/// `Memory` where there was no memory for them.
pub fn scripts(alloc: Global, number: u32, changes: u32, sessions: u32) -> Result<Scripts, Memory>
    requires changes { (1 ≤ changes) × (changes ≤ MOST_CHANGES) }
    requires sessions { (1 ≤ sessions) × (sessions ≤ MOST_SESSIONS) }
    ensures { IfOk result (AreScripts number changes sessions) }
{
    Ok(all_scripts(alloc, number, changes, sessions)?)
}
