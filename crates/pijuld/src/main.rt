//! The program: `pijuld WORDS`.
//!
//! `main` reads the words, makes the office over the real streams, calls `run_kept`, and prints the line
//! of the status on standard error. All that it does with the words but `--help` and `--version` is
//! the work of `pj_top::run_kept`.
//!
//! Contract: that of `pj_top::run_kept`; streams, files and sockets tell nothing of their bytes, and count each fault.
//! Cost: a call of a stream, a file or a socket is one call of the system, with no buffer beside that of `run_kept`.
//! Used by: users.
#![tactic(auto)]

mod adapters;
mod connection;
mod files;
mod listener;
mod socket_file;
mod sockets;
mod streams;

use crate::streams::Streams;
use pj_serve::{Limits, Status};
use pj_top::run_kept;
use std::env;
use std::io::{ErrorKind, Write};
use std::process::ExitCode;

const HELP: &str = "\
pijuld, a server of patch repositories

Usage:
  pijuld show          read the text of one change from standard input, and write its name and the
                       positions of its hunks, or `malformed`
  pijuld one           answer the requests on standard input, and write the replies
  pijuld keep PATH     the same on a repository that is kept in a file, where each accepted request is before
                       its reply is written; a file of at most 9 bytes is written over, whatever it holds
  pijuld run PATH ..   answer the requests in each of 1 to 64 files at once, write the replies to
                       PATH.out, which is made anew, and then the journal to standard output
  pijuld serve ADDRESS --sessions N --workers W [--idle SECONDS] [--mode MODE]
                       answer the requests of N connections to ADDRESS, of W at once; W is from 1 to 64,
                       and N from W to 65536; ADDRESS is HOST:PORT, as 127.0.0.1:7777, or unix:PATH, a
                       socket whose file gets the mode MODE, three octal digits (600); a connection that
                       is silent for SECONDS has ended (300; at most 86400; 0: no limit); the options
                       stand in any order, before or behind ADDRESS, also as --sessions=N
  pijuld load NUMBER CHANGES SESSIONS
                       make the large run of a number below 4294967296, of 1 to 16384 changes in 1 to 8
                       sessions at once, and write its summary
  pijuld --help        write this help
  pijuld --version     write the version

Requests, each on a line:
  put LEN              store a change; behind the line come its LEN bytes and a newline
  get HEX              the text of a change
  inverse HEX          the text of a change that takes a change back
  new CH               make a channel
  fork CH1 CH2         make CH2 with the changes of CH1
  drop CH              remove a channel
  apply CH HEX         add a change to a channel
  unrecord CH HEX      take a change out of a channel
  uproot CH HEX        take a change out of a channel, and all that need it
  pull CH1 CH2         add to CH1 the changes of CH2 that it lacks
  graph CH             the vertices and edges of a channel
  print CH             the files of a channel
  log CH               the names of its changes
  channels             all channels
  journal              all that was accepted
  quit                 end the session

Exit status:
  0  all was done            4  a write fault
  1  the text is malformed   5  no memory
  2  unknown words           6  a session ended within a request, at bytes that
  3  a read fault               are no request, or at its limit
  7  the file of a kept repository is none
  8  a fault of that file, or another process has it
";

const VERSION: &str = "pijuld 1.0.0\n";

fn main(rt: HostRuntime) -> ExitCode {
    let mut arguments = match env::args(&rt) {
        Ok(arguments) => arguments,
        Err(e) if e.kind() == ErrorKind::OutOfMemory => return ended(&rt, Status::Memory.code()),
        // A word is no UTF-8.
        Err(_) => return ended(&rt, Status::Words.code()),
    };
    let _program = arguments.next();
    let Ok(words) = arguments.collect::<Vec<String>>(rt.alloc()) else {
        return ended(&rt, Status::Memory.code());
    };
    match words.as_slice() {
        [word] if word.as_str() == "--help" => written(&rt, HELP),
        [word] if word.as_str() == "--version" => written(&rt, VERSION),
        words => {
            let mut office = Streams::new(&rt, words);
            let kept = run_kept(&rt, rt.alloc(), &mut office, words, Limits::FULL);
            office.close();
            ended(&rt, kept.finish.status)
        }
    }
}

/// Writes a text of `main` itself to standard output.
fn written(rt: &HostRuntime, text: &str) -> ExitCode {
    match rt.stdout().write_all(text.as_bytes()) {
        Ok(()) => ended(rt, Status::Done.code()),
        Err(_) => ended(rt, Status::WriteFault.code()),
    }
}

/// The exit status, after its line on standard error.
fn ended(rt: &HostRuntime, status: u8) -> ExitCode {
    let line = match status {
        2 => "pijuld: words",
        3 => "pijuld: read fault",
        4 => "pijuld: write fault",
        5 => "pijuld: memory",
        6 => "pijuld: session",
        7 => "pijuld: journal",
        8 => "pijuld: store fault",
        _ => "",
    };
    if !line.is_empty() {
        // Where standard error cannot be written, the status still tells.
        let _ = eprintln!(rt; "{line}");
    }
    ExitCode::from(status)
}
