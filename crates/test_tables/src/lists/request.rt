//! The requests, each a line. A change is told by its number, counted from 0 as the changes come.
//!
//! | Request | Answer |
//! |---|---|
//! | `row TITLE` | the line; a new list begins, which has no change |
//! | `text LENGTH`, a newline, so many bytes and a newline | one more change; `no` where the bytes are no text of one |
//! | `with CHANGE` | the change comes to the list; `no` where it is there, or a need is not, or its context does not hold |
//! | `without CHANGE` | the change goes; `no` where it is not there, or one that is there needs it |
//! | `share` | the list gets a second owner, and is kept as it is |
//! | `back` | the list is again the one that was shared last |
//! | `cuts` | each point before which cuts stand, with their count, and `end` |
//! | `rows` | the rows of edges by source and `end`, and then by target and `end` |
//! | `pairs` | each need with each change of the list that has it, and `end` |
//! | `graph` | `agrees`: the graph and the print are those of the plain channel, and the look-ups of the tables show that graph |
//! | `vertex CHANGE POSITION` | the vertex of text that has the position, or `none` |
//! | `surviving CHANGE POSITION` | the surviving versions, in order, and `end` |
//! | `status CHANGE POSITION` | the status |
//! | `vertices CHANGE` | the vertices of its text, and `end` |
//! | `missing CHANGE` | its least need that is not there, or `none` |
//! | `holders CHANGE` | each change of the list that needs it, in order, and `end`, and then the least of them or `none` |

use pj_scan::Scan;

/// What is asked of the list as a whole.
#[derive(Clone, Copy)]
pub enum OfList {
    Cuts,
    Rows,
    Pairs,
    Graph,
}

/// What is asked of a point.
#[derive(Clone, Copy)]
pub enum OfPoint {
    Vertex,
    Surviving,
    Status,
}

/// What is asked of a change.
#[derive(Clone, Copy)]
pub enum OfChange {
    Vertices,
    Missing,
    Holders,
}

/// What is asked of a session.
#[derive(Clone, Copy)]
pub enum Request<'a> {
    Row(&'a [u8]),
    Text(&'a [u8]),
    With(u32),
    Without(u32),
    Share,
    Back,
    List(OfList),
    /// By the number of the change and the position.
    Point(OfPoint, u32, u32),
    Change(OfChange, u32),
}

/// The next request, or `None` where none is left.
pub fn next<'a>(scan: &mut Scan<'a>) -> Option<Request<'a>> {
    match field(scan)? {
        b"row" => Some(Request::Row(scan.line()?)),
        b"text" => Some(Request::Text(text(scan)?)),
        b"with" => Some(Request::With(number(scan)?)),
        b"without" => Some(Request::Without(number(scan)?)),
        b"share" => Some(Request::Share),
        b"back" => Some(Request::Back),
        word => question(scan, word),
    }
}

/// The request that begins with this word, if it changes nothing.
fn question<'a>(scan: &mut Scan<'a>, word: &[u8]) -> Option<Request<'a>> {
    match word {
        b"cuts" => Some(Request::List(OfList::Cuts)),
        b"rows" => Some(Request::List(OfList::Rows)),
        b"pairs" => Some(Request::List(OfList::Pairs)),
        b"graph" => Some(Request::List(OfList::Graph)),
        b"vertex" => of_point(scan, OfPoint::Vertex),
        b"surviving" => of_point(scan, OfPoint::Surviving),
        b"status" => of_point(scan, OfPoint::Status),
        b"vertices" => of_change(scan, OfChange::Vertices),
        b"missing" => of_change(scan, OfChange::Missing),
        b"holders" => of_change(scan, OfChange::Holders),
        _ => None,
    }
}

fn of_point<'a>(scan: &mut Scan<'a>, question: OfPoint) -> Option<Request<'a>> {
    let change = number(scan)?;
    let offset = number(scan)?;
    Some(Request::Point(question, change, offset))
}

fn of_change<'a>(scan: &mut Scan<'a>, question: OfChange) -> Option<Request<'a>> {
    let change = number(scan)?;
    Some(Request::Change(question, change))
}

/// The next word, and the space or the newline behind it is passed over.
fn field<'a>(scan: &mut Scan<'a>) -> Option<&'a [u8]> {
    let word = scan.word()?;
    scan.bytes(1)?;
    Some(word)
}

/// The next number, and the space or the newline behind it is passed over.
fn number(scan: &mut Scan) -> Option<u32> {
    let number = scan.number()?;
    scan.bytes(1)?;
    Some(number)
}

/// Bytes with their length before them and a newline behind them.
fn text<'a>(scan: &mut Scan<'a>) -> Option<&'a [u8]> {
    let length = number(scan)?;
    let text = scan.bytes(length)?;
    scan.bytes(1)?;
    Some(text)
}
