//! Rows of views: the requests say the views, and the rows of each are written. What is no request ends the cases. That the dead vertices
//! of two views differ only where they have a touched point is tested before each refresh, which takes the square of the vertices times
//! the edges.

ghost use Rattle.std.specs.Prelude.{IfOk};
ghost use Rattle.test_tables.specs.States.{AreOwnRows};

mod kept;
mod reply;
mod request;
mod shape;
mod state;
mod table;

use anyhow::{Result, anyhow};
use pj_change::Point;
use pj_dead::Memory;
use pj_scan::Scan;
use request::{Request, next};
use shape::{Arrow, Shape};
use state::State;
use std::alloc::Global;
use std::io::Write;
use table::Table;

/// What was said of the next view.
#[derive(Drop)]
struct Draft {
    shapes: Vec<Shape>,
    arrows: Vec<Arrow>,
    touched: Vec<Point>,
}

impl Draft {
    fn new(alloc: Global) -> Draft {
        Draft {
            shapes: Vec::new(alloc),
            arrows: Vec::new(alloc),
            touched: Vec::new(alloc),
        }
    }
}

/// Writes the rows of the state.
fn tell(alloc: Global, out: &mut Vec<u8>, state: &State) -> Result<(), Memory> {
    reply::word(out, "rows")?;
    reply::rows(alloc, out, &state.rows)?;
    for shape in &state.table.shapes {
        reply::targets(alloc, out, &state.rows, shape.last)?;
    }
    Ok(())
}

/// The state of the next view, after its rows are written.
fn refresh(alloc: Global, out: &mut Vec<u8>, state: State, draft: Draft) -> Result<State, Memory>
    requires { AreOwnRows state }
    ensures { IfOk result AreOwnRows }
{
    let Some(table) = Table::of(draft.shapes, draft.arrows) else {
        reply::word(out, "no order")?;
        return Ok(state);
    };
    if !state.is_kept_in(alloc, &table, &draft.touched)? {
        reply::word(out, "untouched difference")?;
        return Ok(state);
    }
    let now = state.refreshed(alloc, table, &draft.touched)?;
    tell(alloc, out, &now)?;
    Ok(now)
}

/// The state and the next view after a request.
fn answer(
    alloc: Global,
    out: &mut Vec<u8>,
    request: Request,
    state: State,
    mut draft: Draft,
) -> Result<(State, Draft), Memory>
    requires { AreOwnRows state }
    ensures { IfOk result (λ after. AreOwnRows after.0) }
{
    match request {
        Request::Row(title) => {
            reply::title(out, title)?;
            Ok((State::empty(alloc), Draft::new(alloc)))
        }
        Request::Vertex(shape) => {
            draft.shapes.push(shape)?;
            Ok((state, draft))
        }
        Request::Edge(arrow) => {
            draft.arrows.push(arrow)?;
            Ok((state, draft))
        }
        Request::Touch(point) => {
            draft.touched.push(point)?;
            Ok((state, draft))
        }
        Request::Refresh => {
            let state = refresh(alloc, out, state, draft)?;
            Ok((state, Draft::new(alloc)))
        }
    }
}

/// The replies to the requests, one after the other.
fn replies(alloc: Global, input: &[u8]) -> Result<Vec<u8>, Memory> {
    let mut scan = Scan::new(input);
    let mut out = Vec::new(alloc);
    let mut after = (State::empty(alloc), Draft::new(alloc));
    for _ in 0..input.len() {
        let Some(request) = next(&mut scan) else {
            break;
        };
        let (state, draft) = after;
        after = answer(alloc, &mut out, request, state, draft)?;
    }
    Ok(out)
}

/// Plays the requests, and writes the replies.
pub fn play(rt: &HostRuntime, input: &[u8]) -> Result<()> {
    let Ok(replies) = replies(rt.alloc(), input) else {
        return Err(anyhow!("out of memory"));
    };
    rt.stdout().write_all(&replies)?;
    Ok(())
}
