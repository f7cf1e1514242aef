//! A session: the changes that it keeps, its channel, and the one that was shared last.

use crate::lists::answer::{put_status, put_title, put_word};
use crate::lists::both::{Both, Fault};
use crate::lists::question::{
    put_cuts, put_holders, put_missing, put_pairs, put_rows, put_surviving, put_vertex,
    put_vertices,
};
use crate::lists::request::{OfChange, OfList, OfPoint, Request};
use pj_change::{Point, Record};
use pj_pmap::Steps;
use pj_tables::Tables;
use pj_text::{ReadRefusal, read_record};
use std::alloc::{AllocError, Global};
use std::sync::Arc;
use std::sync::ledger::Ledger;

/// Its changes are numbered from 0 as they come.
#[derive(Drop)]
pub struct Session {
    changes: Vec<Arc<Record>>,
    channel: Both,
    shared: Both,
}

/// The change with this text, or `None` where the bytes are no text of one.
fn change_of(alloc: Global, text: &[u8]) -> Result<Option<Arc<Record>>, Fault> {
    match read_record(alloc, text) {
        Ok(record) => Ok(Some(Arc::new(alloc, record)?)),
        Err(ReadRefusal::Malformed) => Ok(None),
        Err(ReadRefusal::Memory) => Err(Fault::Memory),
    }
}

/// Answers what is asked of a point.
fn put_of_point(
    alloc: Global,
    tables: &Tables,
    question: OfPoint,
    at: Point,
    out: &mut Vec<u8>,
) -> Result<(), AllocError> {
    match question {
        OfPoint::Vertex => put_vertex(alloc, tables, at, out),
        OfPoint::Surviving => put_surviving(alloc, tables, at, out),
        OfPoint::Status => put_status(out, tables.status(at)),
    }
}

/// Answers what is asked of a change.
fn put_of_change(
    alloc: Global,
    tables: &Tables,
    question: OfChange,
    change: &Record,
    out: &mut Vec<u8>,
) -> Result<(), AllocError> {
    match question {
        OfChange::Vertices => put_vertices(alloc, tables, change.name, out),
        OfChange::Missing => put_missing(tables, change, out),
        OfChange::Holders => put_holders(tables, change.name, out),
    }
}

impl Session {
    /// It keeps no change, and its channel has none.
    pub fn begin(alloc: Global) -> Result<Session, Fault> {
        let channel = Both::empty(alloc)?;
        let shared = channel.share()?;
        Ok(Session {
            changes: Vec::new(alloc),
            channel,
            shared,
        })
    }

    /// Answers the request.
    pub fn answer<L: Ledger>(
        &mut self,
        alloc: Global,
        request: Request,
        steps: &mut Steps<L>,
        out: &mut Vec<u8>,
    ) -> Result<(), Fault> {
        match request {
            Request::Row(title) => self.row(alloc, title, out),
            Request::Text(text) => self.text(alloc, text, out),
            Request::With(number) => self.with(alloc, number, steps, out),
            Request::Without(number) => self.without(alloc, number, steps, out),
            Request::Share => self.share(out),
            Request::Back => self.back(out),
            Request::List(question) => self.of_list(alloc, question, out),
            Request::Point(question, number, offset) => {
                self.of_point(alloc, question, number, offset, out)
            }
            Request::Change(question, number) => self.of_change(alloc, question, number, out),
        }
    }

    fn change(&self, number: u32) -> Option<&Arc<Record>> {
        self.changes.get(number as usize)
    }

    fn row(&mut self, alloc: Global, title: &[u8], out: &mut Vec<u8>) -> Result<(), Fault> {
        self.channel = Both::empty(alloc)?;
        put_title(out, title)?;
        Ok(())
    }

    fn text(&mut self, alloc: Global, text: &[u8], out: &mut Vec<u8>) -> Result<(), Fault> {
        let Some(change) = change_of(alloc, text)? else {
            put_word(out, b"no")?;
            return Ok(());
        };
        self.changes.push(change)?;
        put_word(out, b"ok")?;
        Ok(())
    }

    /// Takes the channel, if there is one, and says so.
    fn take(&mut self, channel: Option<Both>, out: &mut Vec<u8>) -> Result<(), Fault> {
        let Some(channel) = channel else {
            put_word(out, b"no")?;
            return Ok(());
        };
        self.channel = channel;
        put_word(out, b"ok")?;
        Ok(())
    }

    fn with<L: Ledger>(
        &mut self,
        alloc: Global,
        number: u32,
        steps: &mut Steps<L>,
        out: &mut Vec<u8>,
    ) -> Result<(), Fault> {
        let channel = match self.change(number) {
            Some(change) => self.channel.with(alloc, change, steps)?,
            None => None,
        };
        self.take(channel, out)
    }

    fn without<L: Ledger>(
        &mut self,
        alloc: Global,
        number: u32,
        steps: &mut Steps<L>,
        out: &mut Vec<u8>,
    ) -> Result<(), Fault> {
        let channel = match self.change(number) {
            Some(change) => self.channel.without(alloc, change.name, steps)?,
            None => None,
        };
        self.take(channel, out)
    }

    fn share(&mut self, out: &mut Vec<u8>) -> Result<(), Fault> {
        self.shared = self.channel.share()?;
        put_word(out, b"ok")?;
        Ok(())
    }

    fn back(&mut self, out: &mut Vec<u8>) -> Result<(), Fault> {
        self.channel = self.shared.share()?;
        put_word(out, b"ok")?;
        Ok(())
    }

    /// Answers that the channels agree, or fails.
    fn graph(&self, alloc: Global, out: &mut Vec<u8>) -> Result<(), Fault> {
        self.channel.same(alloc)?;
        put_word(out, b"agrees")?;
        Ok(())
    }

    fn of_list(&self, alloc: Global, question: OfList, out: &mut Vec<u8>) -> Result<(), Fault> {
        let tables = self.channel.tables();
        match question {
            OfList::Cuts => put_cuts(alloc, tables, out)?,
            OfList::Rows => put_rows(alloc, tables, out)?,
            OfList::Pairs => put_pairs(tables, out)?,
            OfList::Graph => self.graph(alloc, out)?,
        }
        Ok(())
    }

    fn of_point(
        &self,
        alloc: Global,
        question: OfPoint,
        number: u32,
        offset: u32,
        out: &mut Vec<u8>,
    ) -> Result<(), Fault> {
        let Some(change) = self.change(number) else {
            put_word(out, b"no")?;
            return Ok(());
        };
        let at = Point {
            change: change.name,
            offset,
        };
        put_of_point(alloc, self.channel.tables(), question, at, out)?;
        Ok(())
    }

    fn of_change(
        &self,
        alloc: Global,
        question: OfChange,
        number: u32,
        out: &mut Vec<u8>,
    ) -> Result<(), Fault> {
        let Some(change) = self.change(number) else {
            put_word(out, b"no")?;
            return Ok(());
        };
        put_of_change(alloc, self.channel.tables(), question, change, out)?;
        Ok(())
    }
}
