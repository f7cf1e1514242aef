//! The words of the command `serve`, read by `clap`, and words that are numbers.
//!
//! Contract: `request_in` answers the address, the sessions, the workers, the seconds of silence and the mode of a socket's file that
//! the words ask for by the definition of `Words`, and `None` exactly where they ask for nothing by it; which words the command takes, and with which values, is the
//! definition of `clap` itself. `number_of` answers the number that a word is.
//! Cost: the memory and the time of one parse by `clap`; the address is a part of the words. A number takes no memory.
//! Used by: `pj_serve`, and `pijuld`, which reads there what concerns sockets alone.

#![tactic(auto)]

mod number;
mod words;

pub use number::number_of;
pub use words::{Request, request_in};
