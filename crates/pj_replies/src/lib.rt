//! Replies out of bytes that come in pieces.
//!
//! Contract: a decoder is seen as the bytes left over. `next` takes the reply that they begin with,
//! where it may come to the request, says `More` exactly where they are a proper prefix of one, and
//! `Strange` exactly where they neither begin with one nor are a prefix of one, or where the line of a
//! `get` says of its body that it is longer than any text. Laws: what a repository answers may come,
//! and bytes begin with at most one reply to a request.
//! Cost: `next` looks at the line of a reply each time, at most 160 bytes, and of a body at nothing but
//! the newline behind it. The body is copied once out of the decoder, and what is left over behind a
//! reply moves to the beginning.
//! Used by: `pj_exchange`.

#![tactic(auto)]

mod decoder;
mod due;
mod fields;
mod found;
pub mod laws;
mod lines;
mod reasons;

pub use decoder::{Reading, ReplyDecoder};
pub use due::Due;
