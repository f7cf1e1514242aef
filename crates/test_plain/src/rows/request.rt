//! The requests of a session, each a line.
//!
//! | Request | What it asks |
//! |---|---|
//! | `row TITLE` | a new session, whose title is told |
//! | `put LEN`, and LEN bytes and a newline | to keep a change |
//! | `get HEX` | the text of a change, as it is written |
//! | `inverse HEX` | the text of the change that undoes a change |
//! | `fork CH CH` | a second channel with the changes of the first |
//! | `apply CH HEX`, `unrecord CH HEX`, `uproot CH HEX` | to change a channel by a change |
//! | `pull CH CH` | to add to the first channel what it lacks of the second |
//! | `graph CH`, `walk CH`, `print CH`, `log CH` | what the channel shows |
//! | `sizes CH` | how many vertices and edges its graph has |
//! | `length CH` | how many bytes its print has |
//! | `live N` | prints with no file of more live vertices than N; it is 16,384 at first |
//! | `quit` | a new session |

use pj_name::Name;
use pj_scan::Scan;

/// What a channel shows.
#[derive(Clone, Copy)]
pub enum View {
    Graph,
    Walk,
    Print,
    Log,
    Sizes,
    Length,
}

/// What is asked of a session. A channel stands by the bytes of its name.
#[derive(Clone, Copy)]
pub enum Request<'a> {
    Row(&'a [u8]),
    Put(&'a [u8]),
    Get(Name),
    Inverse(Name),
    Fork(&'a [u8], &'a [u8]),
    Apply(&'a [u8], Name),
    Unrecord(&'a [u8], Name),
    Uproot(&'a [u8], Name),
    Pull(&'a [u8], &'a [u8]),
    Show(View, &'a [u8]),
    Live(u32),
    Quit,
}

/// The next request, or `None` where none is left.
pub fn next<'a>(scan: &mut Scan<'a>) -> Option<Request<'a>> {
    match field(scan)? {
        b"row" => Some(Request::Row(scan.line()?)),
        b"put" => Some(Request::Put(text(scan)?)),
        b"get" => Some(Request::Get(name(scan)?)),
        b"inverse" => Some(Request::Inverse(name(scan)?)),
        b"fork" => Some(Request::Fork(field(scan)?, field(scan)?)),
        b"apply" => Some(Request::Apply(field(scan)?, name(scan)?)),
        b"unrecord" => Some(Request::Unrecord(field(scan)?, name(scan)?)),
        b"uproot" => Some(Request::Uproot(field(scan)?, name(scan)?)),
        b"pull" => Some(Request::Pull(field(scan)?, field(scan)?)),
        b"graph" => Some(Request::Show(View::Graph, field(scan)?)),
        b"walk" => Some(Request::Show(View::Walk, field(scan)?)),
        b"print" => Some(Request::Show(View::Print, field(scan)?)),
        b"log" => Some(Request::Show(View::Log, field(scan)?)),
        b"sizes" => Some(Request::Show(View::Sizes, field(scan)?)),
        b"length" => Some(Request::Show(View::Length, field(scan)?)),
        b"live" => Some(Request::Live(number(scan)?)),
        b"quit" => Some(Request::Quit),
        _ => None,
    }
}

/// The next word, and the space or the newline behind it is passed over.
fn field<'a>(scan: &mut Scan<'a>) -> Option<&'a [u8]> {
    let word = scan.word()?;
    scan.bytes(1)?;
    Some(word)
}

fn name(scan: &mut Scan) -> Option<Name> {
    Name::read(field(scan)?)
}

fn number(scan: &mut Scan) -> Option<u32> {
    let number = scan.number()?;
    scan.bytes(1)?;
    Some(number)
}

/// Bytes with their length before them and a newline behind them.
fn text<'a>(scan: &mut Scan<'a>) -> Option<&'a [u8]> {
    let length = number(scan)?;
    let text = scan.bytes(length)?;
    scan.bytes(1)?;
    Some(text)
}
