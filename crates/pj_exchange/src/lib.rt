//! What an exchange between two servers is, and what it leaves.
//!
//! Contract: definitions and laws, and no code but how an exchange ends. An exchange over a channel goes
//! through phases: the own log, the other log, each change that is lacked here (got, stored, applied),
//! each that is lacked there (stored, applied). A side is a pass of a legal journal in which no other
//! pass changed the channel meanwhile; the own repository is one, and an honest peer is one. Laws: at
//! the end each list is the union of both, with its own changes first, so that both have one set, one
//! graph and one print; two sides that have one text for each name are never found odd; and however it
//! ends, nothing was asked but what adds to the channel, so each list begins with what it was. The bytes
//! of a side have each reply that is due, so with an honest peer an exchange ends neither as strange nor
//! as cut, nor at a refusal here but that of a limit.
//! Cost: none.
//! Used by: `pj_sync`.

#![tactic(auto)]

mod end;
pub mod laws;

pub use end::SyncEnd;
