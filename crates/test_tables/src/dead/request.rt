//! The requests of a row, each a line.
//!
//! | Request | What it says |
//! |---|---|
//! | `row TITLE` | a new row, with a view that has no vertex |
//! | `vertex CHANGE FIRST LAST live` or `dead` | a vertex of the next view, behind the others; CHANGE is a letter |
//! | `edge CHANGE FIRST CHANGE FIRST` | an edge of the next view from vertex to vertex |
//! | `touch CHANGE POSITION` | a point that is touched |
//! | `refresh` | the rows of the next view are asked for |

use crate::dead::shape::{Arrow, Shape};
use pj_change::Point;
use pj_name::Name;
use pj_scan::Scan;

/// What a line says.
#[derive(Clone, Copy)]
pub enum Request<'a> {
    Row(&'a [u8]),
    Vertex(Shape),
    Edge(Arrow),
    Touch(Point),
    Refresh,
}

/// The next request, or `None` where none is left.
pub fn next<'a>(scan: &mut Scan<'a>) -> Option<Request<'a>> {
    match field(scan)? {
        b"row" => Some(Request::Row(scan.line()?)),
        b"vertex" => Some(Request::Vertex(vertex(scan)?)),
        b"edge" => Some(Request::Edge(Arrow {
            from: point(scan)?,
            to: point(scan)?,
        })),
        b"touch" => Some(Request::Touch(point(scan)?)),
        b"refresh" => Some(Request::Refresh),
        _ => None,
    }
}

/// The next word, and the space or the newline behind it is passed over.
fn field<'a>(scan: &mut Scan<'a>) -> Option<&'a [u8]> {
    let word = scan.word()?;
    scan.bytes(1)?;
    Some(word)
}

/// The next number, and the space or the newline behind it is passed over.
fn number(scan: &mut Scan) -> Option<u32> {
    let number = scan.number()?;
    scan.bytes(1)?;
    Some(number)
}

fn point(scan: &mut Scan) -> Option<Point> {
    let letter = *field(scan)?.first()?;
    let offset = number(scan)?;
    Some(Point {
        change: Name::of([letter; 32]),
        offset,
    })
}

fn vertex(scan: &mut Scan) -> Option<Shape> {
    let first = point(scan)?;
    let last = Point {
        change: first.change,
        offset: number(scan)?,
    };
    let dead = match field(scan)? {
        b"dead" => true,
        b"live" => false,
        _ => return None,
    };
    Some(Shape { first, last, dead })
}
