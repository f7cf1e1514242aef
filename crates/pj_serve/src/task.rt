//! What the words of the command line ask for.
ghost use Rattle.std.specs.Prelude.{◌≡◌, Some, IfOk, IfErr, IfSome, option_map};
ghost use Rattle.pj_serve.specs.Tasks.{IsBoundedRun, IsWithinBounds, LacksTask, bounded_run, load_of, plain_of as asked_plainly, task_of as asked, view_of};

use crate::status::Status;
use pj_words::{Request, number_of, request_in};
use std::alloc::Global;

/// The large run that `load` is asked for.
#[derive(Clone, Copy, Debug, PartialEq, Eq)]
pub struct Loading {
    /// The number from which all draws follow.
    pub number: u32,
    /// The changes, from 1 to 16,384.
    pub changes: u32,
    /// The sessions between the prelude and the closing, from 1 to 8.
    pub sessions: u32,
}

/// A command of the program.
#[derive(Clone, Copy, Debug, PartialEq, Eq)]
pub enum Task<'a> {
    /// `show`: the name and the positions of one change text.
    Show,
    /// `one`: a session over the input and the output.
    One,
    /// `run PATH ..`: a session for each of 1 to 64 scripts.
    Run,
    /// `serve ADDRESS --sessions N --workers W`: workers that serve the sessions at an address.
    Serve(Request<'a>),
    /// `load NUMBER CHANGES SESSIONS`: the large run of a number, in sessions of its own.
    Load(Loading),
}

/// The large run of this number, if it may have so many changes and sessions.
fn bounded(number: u32, changes: u32, sessions: u32) -> Option<Loading>
    ensures run { result ≡ bounded_run (Some number) (Some changes) (Some sessions) }
    ensures bounds { IfSome result IsBoundedRun }
{
    if 1 <= changes && changes <= 16_384 && 1 <= sessions && sessions <= 8 {
        Some(Loading {
            number,
            changes,
            sessions,
        })
    } else {
        None
    }
}

/// The large run that the words behind `load` ask for.
fn loading_of(words: &[String]) -> Option<Loading>
    ensures run { result ≡ load_of words.now }
    ensures bounds { IfSome result IsBoundedRun }
{
    match words {
        [number, changes, sessions] => bounded(
            number_of(number.as_str())?,
            number_of(changes.as_str())?,
            number_of(sessions.as_str())?,
        ),
        _ => None,
    }
}

/// The command that the words are, by their number and the first of them.
fn plain_of(words: &[String]) -> Option<Task<'_>>
    ensures { option_map view_of result ≡ asked_plainly words.entry.now }
{
    match words {
        [word] => match word.as_str() {
            "show" => Some(Task::Show),
            "one" => Some(Task::One),
            _ => None,
        },
        [word, _, more @ ..] if word.as_str() == "run" && more.len() <= 63 => Some(Task::Run),
        _ => None,
    }
}

/// The command that the words are, those after the program's name.
///
/// # Errors
/// `Status::Words` where they are no command, and `Status::Memory` where memory was wanted for reading the words of `serve`.
pub(crate) fn task_of(alloc: Global, words: &[String]) -> Result<Task<'_>, Status>
    ensures task { IfOk result (λ task. asked words.entry.now ≡ Some (view_of task)) }
    ensures servable { IfOk result IsWithinBounds }
    ensures refused { IfErr result (LacksTask words.entry.now) }
{
    match words {
        [word, ..] if word.as_str() == "serve" => match request_in(alloc, words) {
            Ok(Some(request)) => Ok(Task::Serve(request)),
            Ok(None) => Err(Status::Words),
            Err(_) => Err(Status::Memory),
        },
        [word, numbers @ ..] if word.as_str() == "load" => match loading_of(numbers) {
            Some(loading) => Ok(Task::Load(loading)),
            None => Err(Status::Words),
        },
        _ => match plain_of(words) {
            Some(task) => Ok(task),
            None => Err(Status::Words),
        },
    }
}
