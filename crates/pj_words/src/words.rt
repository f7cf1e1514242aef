//! What the words of `serve` ask for.
ghost use Rattle.std.specs.Prelude.{◌≡◌, Some, IfOk, IfSome, map, option_map, string_bytes};
ghost use Rattle.clap.specs.Words.{app_of, found_of, rows_of};
ghost use Rattle.pj_words.specs.Words.{required_app, serve_app, bounded as bounded_by, mode_of as mode_in, number_of as number_in, texts_of, value_or, values_of, asked_of, work_of, IsBounded};

use crate::number::{mode_of, number_of};
use clap::error::ErrorKind;
use clap::{Arg, ArgMatches, Command};
use pj_memory::Memory;
use std::alloc::Global;

/// The seconds of silence after which a connection is given no more time, where the words do not say it.
const IDLE: u32 = 300;

/// The mode of the file of a socket, where the words do not say it: its owner alone may connect.
const MODE: u32 = 0o600;

/// The work that `serve` is asked for.
#[derive(Clone, Copy, Debug, PartialEq, Eq)]
pub struct Request<'a> {
    /// The address of the doors.
    pub address: &'a str,
    /// The sessions, at least as many as workers and at most 65,536.
    pub sessions: u32,
    /// The workers, from 1 to 64.
    pub workers: u32,
    /// The seconds for which a connection may be silent, at most 86,400. 0 is no limit.
    pub idle: u32,
    /// The mode of the file of a socket.
    pub mode: u32,
}

/// The work of these numbers at an address, if each of them is one, and within its bounds.
fn bounded<'a>(
    address: &'a str,
    sessions: Option<u32>,
    workers: Option<u32>,
    idle: Option<u32>,
    mode: Option<u32>,
) -> Option<Request<'a>>
    ensures work { option_map work_of result ≡ bounded_by address.entry.now sessions workers idle mode }
    ensures bounds { IfSome result (λ request. IsBounded (work_of request)) }
{
    let sessions = sessions?;
    let workers = workers?;
    let idle = idle?;
    let mode = mode?;
    if 1 <= workers
        && workers <= 64
        && workers <= sessions
        && sessions <= 65_536
        && idle <= 86_400
    {
        Some(Request {
            address,
            sessions,
            workers,
            idle,
            mode,
        })
    } else {
        None
    }
}

/// What the command `serve` requires, as `clap` reads it.
fn required_words<'a>(alloc: Global) -> Result<Command<'a>, Memory>
    ensures { IfOk result (λ c. app_of c ≡ required_app) }
{
    let address = Arg::new(alloc, "address").required(true);
    let sessions = Arg::new(alloc, "sessions").long("sessions").required(true);
    let workers = Arg::new(alloc, "workers").long("workers").required(true);
    let serve = Command::new(alloc, "serve")
        .arg(address)?
        .arg(sessions)?
        .arg(workers)?;
    Ok(serve)
}

/// The command `serve` as `clap` reads it.
fn command<'a>(alloc: Global) -> Result<Command<'a>, Memory>
    ensures { IfOk result (λ c. app_of c ≡ serve_app) }
{
    let idle = Arg::new(alloc, "idle").long("idle");
    let mode = Arg::new(alloc, "mode").long("mode");
    let serve = required_words(alloc)?.arg(idle)?.arg(mode)?;
    Ok(serve)
}

/// The seconds of silence that the value of an option is.
fn idle_of(word: Option<&str>) -> Option<u32>
    ensures { result ≡ value_or 300 number_in (option_map (λ w. w.now) word.entry) }
{
    match word {
        Some(word) => number_of(word),
        None => Some(IDLE),
    }
}

/// The mode of a socket's file that the value of an option is.
fn file_mode_of(word: Option<&str>) -> Option<u32>
    ensures { result ≡ value_or 384 mode_in (option_map (λ w. w.now) word.entry) }
{
    match word {
        Some(word) => mode_of(word),
        None => Some(MODE),
    }
}

/// What the values that `clap` found ask for.
fn requested<'a>(matches: &ArgMatches<'a>) -> Option<Request<'a>>
    ensures work { option_map work_of result
        ≡ values_of (rows_of (found_of matches.now)) }
    ensures bounds { IfSome result (λ request. IsBounded (work_of request)) }
{
    let address = matches.get_str("address")?;
    let sessions = matches.get_str("sessions")?;
    let workers = matches.get_str("workers")?;
    let idle = idle_of(matches.get_str("idle"));
    let mode = file_mode_of(matches.get_str("mode"));
    bounded(address, number_of(sessions), number_of(workers), idle, mode)
}

/// The work that the words ask for, of which the first is the command's name and stands for any. `None` where `clap` finds a fault
/// in them, or the values of the options are no numbers within the bounds.
///
/// # Errors
/// Want of memory for reading the words.
pub fn request_in<'a>(alloc: Global, words: &'a [String]) -> Result<Option<Request<'a>>, Memory>
    ensures work { IfOk result (λ asked.
        option_map work_of asked
        ≡ asked_of (map string_bytes words.entry.now)) }
    ensures bounds { IfOk result (λ asked. IfSome asked (λ request. IsBounded (work_of request))) }
{
    match command(alloc)?.try_get_matches_from(words) {
        Ok(matches) => Ok(requested(&matches)),
        Err(error) => match error.kind() {
            ErrorKind::OutOfMemory => Err(Memory),
            _ => Ok(None),
        },
    }
}
