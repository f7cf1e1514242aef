//! The outside as traits: where bytes come from and go to, doors at which sessions arrive, and the
//! office that opens them; and each of them in memory, for tests.
//!
//! Contract: each has a written meaning and a count of faults that never falls, and answers a failure
//! only where the count rose, so that a caller can tell a fault of the outside from a fault of its
//! own. A source, sink, door or office may tell what it holds: the clauses on contents hold where it
//! does, those on causes and on the number of pairs that a door gave hold always.
//! Cost: `give_all` takes one call for each piece that the sink takes, and no memory. In memory a call
//! takes time linear in the bytes that it moves and in the list of calls that fail; an opening copies
//! its bytes.
//! Used by: `book_counter`, `pj_load`, `pj_session`, `pj_stored`, `bench_repo`, `session_cases`, `pj_serve`, `serve_cases`, `pijuld`.
#![tactic(auto)]

mod door;
mod giving;
mod mem_door;
mod mem_office;
mod mem_sink;
mod mem_source;
mod office;
mod pieces;
mod plan;
mod refusal;
mod sessions;
mod sink;
mod source;
mod sure_door;
mod sure_office;
mod sure_sink;
mod sure_source;
mod ways;

pub use door::Door;
pub use giving::give_all;
pub use mem_door::MemDoor;
pub use mem_office::MemOffice;
pub use mem_sink::MemSink;
pub use mem_source::MemSource;
pub use office::Office;
pub use pj_memory::Memory;
pub use plan::Plan;
pub use refusal::{DoorRefusal, Failed, WriteFault};
pub use sink::Sink;
pub use source::Source;
pub use sure_door::SureDoor;
pub use sure_office::SureOffice;
pub use sure_sink::SureSink;
pub use sure_source::SureSource;
pub use ways::Ways;

#[cfg(test)]
mod tests;
