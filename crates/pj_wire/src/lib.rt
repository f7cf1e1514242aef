//! Requests and replies as bytes.
//!
//! Contract: a decoder is seen as the bytes left over; `next` takes the request that they begin with, says `More` exactly
//! where they are a proper front of one, and `Bad` exactly where they neither begin with a request nor are a front of one.
//! `head` and `write_request` write the one spelling.
//! Cost: bytes are copied once into the decoder and the text of a `put` once out of it. Of an incomplete request it keeps how far it
//! was read: no byte that a call of `next` looked at is looked at again before the request is whole, and those of a text never are.
//! So the time is linear in the bytes, whatever the pieces, and a `next` with no new byte looks at none.
//! Used by: `request_cases`, `bench_wire`, `pj_gen`, `pj_load`, `pj_session`, `pj_stored`, `state_rows`, `repo_cases`,
//! `session_cases`, `pj_serve`.

#![tactic(auto)]

mod buffer;
mod decoder;
mod fields;
pub mod laws;
mod replies;
mod requests;
mod stage;
mod verb;
mod writing;

pub use decoder::{Decoder, Next};
pub use replies::head;
pub use writing::write_request;
