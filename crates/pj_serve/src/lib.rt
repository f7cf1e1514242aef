//! The top call: all that the program does with what is handed in.
//!
//! `run` takes the words of the command line and the office that opens sources, sinks and doors, and
//! answers a `Finish`: the status, the journal, how each session ended, and all that was opened,
//! handed back with its counts of faults.
//!
//! Contract: `run` and `run_with` keep all that `Promises` says, for every office, whatever it gives
//! and however often it fails. `work` is one worker at its door: it keeps what `HasWorked` says, for
//! every replier and every door. The module `laws` says what holds of a session that is alone.
//! The words of `serve` are read by `pj_words`, and those of all other commands here.
//! Cost: `show` takes memory for its input, at most 16,777,217 bytes, the change and its lines; its
//! time is that of reading the text (`pj_text`), of one digest and of the writing. `one` and `run`
//! take a pass, an end and what was opened for each session before the first one, and a thread for
//! each; the journal is written without memory. `serve` takes the same for each session that may
//! come before the first one, and a thread for each worker. `load` takes what a large run takes (`pj_load`).
//! Used by: `serve_cases`, `pijuld`.

#![tactic(auto)]

mod finish;
mod hold;
mod input;
pub mod laws;
mod leaving;
mod listing;
mod load;
mod one;
mod opening;
mod scripts;
mod seating;
mod serve;
mod sessions;
mod shares;
mod show;
mod staff;
mod status;
mod task;
mod top;
mod workers;
mod working;

pub use finish::{Finish, Kept};
pub use opening::Opened;
pub use pj_machine::{Entries, Entry, Limits};
pub use pj_session::{End, Ended, Ends};
pub use status::Status;
pub use top::{run, run_with};
pub use working::{Turn, Worker, work};
