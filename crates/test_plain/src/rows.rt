//! Sessions of requests on plain channels. A session begins with an empty channel `main` and ends at `quit` or at the next `row`. What
//! is no request ends the rows.

mod lines;
mod reply;
mod request;
mod session;

use pj_change::Memory;
use pj_scan::Scan;
use request::{Request, next};
use session::Session;
use std::alloc::Global;

/// The replies to the requests, one after the other.
pub fn replies(alloc: Global, input: &[u8]) -> Result<Vec<u8>, Memory> {
    let mut scan = Scan::new(input);
    let mut replies = Vec::new(alloc);
    let mut session = Session::begin(alloc)?;
    for _ in 0..input.len() {
        match next(&mut scan) {
            None => break,
            Some(Request::Quit) => session = Session::begin(alloc)?,
            Some(Request::Row(title)) => {
                session = Session::begin(alloc)?;
                reply::title(&mut replies, title)?;
            }
            Some(request) => session.answer(alloc, request, &mut replies)?,
        }
    }
    Ok(replies)
}
