//! A session: requests from a source, replies to a sink.
//!
//! Contract: `session` says what was taken and which requests it spells, that the replies are what one thread replies at their
//! places in the journal that the pass has seen, that just these were written, and why it ended; the law `spoke_later` carries
//! the replies to every later journal in which the pass has no more entries, and `enters_accepted` says that the entries of the
//! pass are the writes of its accepted requests. `session_by` is the same loop over any `Step`.
//! Cost: a piece of 4,096 bytes and what the decoder holds; a body goes to the sink from where the reply has it.
//! Used by: `pj_load`, `pj_stored`, `bench_repo`, `session_cases`, `pj_serve`, `serve_cases`.
#![tactic(auto)]

mod answering;
mod end;
pub mod laws;
mod reply;
mod sessions;
mod step;

pub use end::{End, Ended, Ends};
pub use sessions::{session, session_by};
pub use step::{Direct, Step, StepRefusal};
