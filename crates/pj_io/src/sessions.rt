//! The sessions that a door in memory has still to give, and how several doors share them.
ghost use Rattle.std.specs.Prelude.{◌≡◌, ◌<◌, ◌^◌, ◌∷◌, length, vec_len, IfOk};
ghost use Rattle.pj_io.specs.Sessions.{bytes_of_each, first_sessions, shared_sessions};

use std::alloc::{AllocError, Global};
use std::collections::VecDeque;
use std::marker::Model;

/// The bytes of each session still to come. Past the end of the list a session sends no byte.
#[derive(Drop)]
pub struct Sessions {
    listed: VecDeque<Vec<u8>>,
    left: u32,
}

impl Model for Sessions {
    ghost use Rattle.std.specs.Prelude.{ℕ, List};
    ghost use Rattle.pj_io.specs.Sessions.{bytes_of_each, first_sessions};

    ghost Value = { List (List ℕ) };

    ghost view = { λ s. first_sessions s.left (bytes_of_each s.listed.items) };
}

impl Sessions {
    /// All sessions of a list.
    #[tactic(auto, using(crate::proofs::Shared::all_sessions))]
    pub fn all(listed: Vec<Vec<u8>>) -> Sessions
        requires { vec_len listed < 2 ^ 32 }
        ensures { result ≡ bytes_of_each listed.items }
    {
        let left = listed.len() as u32;
        Sessions::first(listed, left)
    }

    /// The first sessions of a list, as many as told.
    pub fn first(listed: Vec<Vec<u8>>, count: u32) -> Sessions
        ensures { result ≡ first_sessions count (bytes_of_each listed.items) }
    {
        Sessions {
            listed: VecDeque::from_vec(listed),
            left: count,
        }
    }

    /// How many are still to come.
    #[tactic(auto, using(crate::specs::SessionCounts::session_count))]
    pub fn len(&self) -> u32
        ensures { result ≡ length self.now }
    {
        self.left
    }

    /// Takes the next session out.
    pub fn next(&mut self) -> Vec<u8>
        requires { 0 < length self.old }
        ensures { self.old ≡ result.items ∷ self.new }
    {
        self.left -= 1;
        let alloc = *self.listed.allocator();
        self.listed.pop_front().unwrap_or(Vec::new(alloc))
    }
}

/// Each door's sessions, where doors with these shares take the listed sessions in order.
pub fn share_out(
    alloc: Global,
    listed: &[Vec<u8>],
    shares: &[u32],
) -> Result<Vec<Sessions>, AllocError>
    ensures { IfOk result (λ parts. parts.items ≡ shared_sessions (bytes_of_each listed.now) shares.now) }
{
    let mut parts = Vec::new(alloc);
    let mut rest = listed;
    for share in shares {
        let (own, after) = rest.split_at((*share as usize).min(rest.len()));
        parts.push(Sessions::first(copies(alloc, own)?, *share))?;
        rest = after;
    }
    Ok(parts)
}

// Sessions with the same bytes.
fn copies(alloc: Global, sessions: &[Vec<u8>]) -> Result<Vec<Vec<u8>>, AllocError>
    ensures { IfOk result (λ copies. bytes_of_each copies.items ≡ bytes_of_each sessions.now) }
{
    let mut copies = Vec::new(alloc);
    for session in sessions {
        copies.push(session.to_vec(alloc)?)?;
    }
    Ok(copies)
}
