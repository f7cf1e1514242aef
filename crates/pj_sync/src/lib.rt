//! What an exchange does with logs, and how the replies of another server are received.
//!
//! Contract: `names_of` gives the names that the body of a `log` lists, or nothing exactly where it is
//! none; `are_distinct` says whether no name stands twice; `lacked` gives what the first list lacks of
//! the second, in the order of the second. `Link::receive` gives the reply that is due, or says why
//! none came: the bytes are none that may come, the input ended within it, no more may be taken, the
//! source failed, or memory ran out; no byte is lost but where memory ran out.
//! Cost: `names_of` looks at each byte once; the others of lists take the logarithm of the length for
//! each name, and memory for a set of one list. `receive` takes at most 4,096 bytes at once.
//! Used by: nothing yet.

#![tactic(auto)]

mod link;
mod names;
mod stop;

pub use link::Link;
pub use names::{are_distinct, lacked, names_of};
pub use stop::Stop;

#[cfg(test)]
mod tests;
