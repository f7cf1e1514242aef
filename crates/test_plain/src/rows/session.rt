//! A session: the changes that it keeps, its channels, and its place.

use crate::rows::lines::{graph_lines, log_lines, sizes_line, walk_lines};
use crate::rows::reply::{self, Reason, Reply};
use crate::rows::request::{Request, View};
use pj_change::{
    Applied, ApplyRefusal, Memory, PrintRefusal, Record, UnrecordRefusal, UprootRefusal,
};
use pj_inverse::{InverseRefusal, inverse};
use pj_name::Name;
use pj_plain::PlainChannel;
use pj_text::{ReadRefusal, read_record, write};
use std::alloc::Global;
use std::sync::Arc;

/// A channel as it was after a request.
#[derive(Drop)]
struct Named {
    name: Vec<u8>,
    channel: PlainChannel,
}

/// Its channels stand as they were after each request: the last one of a name counts.
#[derive(Drop)]
pub struct Session {
    changes: Vec<Arc<Record>>,
    channels: Vec<Named>,
    place: usize,
    /// Prints have no file of more live vertices.
    live: u32,
}

impl Session {
    /// It keeps no change, and its channel `main` has none.
    pub fn begin(alloc: Global) -> Result<Session, Memory> {
        let mut session = Session {
            changes: Vec::new(alloc),
            channels: Vec::new(alloc),
            place: 0,
            live: 16_384,
        };
        session.keep(alloc, b"main", PlainChannel::empty(alloc)?)?;
        Ok(session)
    }

    /// Answers the request.
    pub fn answer(
        &mut self,
        alloc: Global,
        request: Request,
        out: &mut Vec<u8>,
    ) -> Result<(), Memory> {
        match request {
            Request::Put(text) => {
                let reply = self.put(alloc, text)?;
                self.reply(alloc, out, reply)
            }
            Request::Get(name) => self.get(alloc, name, out),
            Request::Inverse(name) => self.inverse(alloc, name, out),
            Request::Fork(from, to) => {
                let reply = self.fork(alloc, from, to)?;
                self.reply(alloc, out, reply)
            }
            Request::Apply(channel, name) => {
                let reply = self.apply(alloc, channel, name)?;
                self.reply(alloc, out, reply)
            }
            Request::Unrecord(channel, name) => {
                let reply = self.unrecord(alloc, channel, name)?;
                self.reply(alloc, out, reply)
            }
            Request::Uproot(channel, name) => {
                let reply = self.uproot(alloc, channel, name)?;
                self.reply(alloc, out, reply)
            }
            Request::Pull(into, from) => {
                let reply = self.pull(alloc, into, from)?;
                self.reply(alloc, out, reply)
            }
            Request::Show(view, channel) => self.show(alloc, view, channel, out),
            Request::Live(live) => {
                self.live = live;
                Ok(())
            }
            // They begin a session.
            Request::Row(_) | Request::Quit => Ok(()),
        }
    }

    fn reply(&self, alloc: Global, out: &mut Vec<u8>, reply: Reply) -> Result<(), Memory> {
        Ok(reply::put(alloc, out, self.place, reply)?)
    }

    /// Keeps a channel under a name.
    fn keep(&mut self, alloc: Global, name: &[u8], channel: PlainChannel) -> Result<(), Memory> {
        let name = Vec::from_slice(alloc, name)?;
        self.channels.push(Named { name, channel })?;
        Ok(())
    }

    /// Keeps it, and counts the request.
    fn enter(
        &mut self,
        alloc: Global,
        name: &[u8],
        channel: PlainChannel,
    ) -> Result<Reply<'static>, Memory> {
        self.keep(alloc, name, channel)?;
        self.place = self.place.saturating_add(1);
        Ok(Reply::Done)
    }

    fn channel(&self, name: &[u8]) -> Option<&PlainChannel> {
        let named = self
            .channels
            .iter()
            .rev()
            .find(|named| named.name.as_slice() == name)?;
        Some(&named.channel)
    }

    fn change(&self, name: Name) -> Option<&Arc<Record>> {
        self.changes.iter().find(|change| change.name == name)
    }

    fn put(&mut self, alloc: Global, text: &[u8]) -> Result<Reply<'static>, Memory> {
        let record = match read_record(alloc, text) {
            Ok(record) => record,
            Err(ReadRefusal::Malformed) => return Ok(Reply::No(Reason::Malformed)),
            Err(ReadRefusal::Memory) => return Err(Memory),
        };
        let name = record.name;
        if self.change(name).is_some() {
            return Ok(Reply::AlreadyNamed(name));
        }
        self.changes.push(Arc::new(alloc, record)?)?;
        self.place = self.place.saturating_add(1);
        Ok(Reply::Named(name))
    }

    fn get(&self, alloc: Global, name: Name, out: &mut Vec<u8>) -> Result<(), Memory> {
        match self.change(name) {
            Some(record) => {
                let Ok(text) = write(alloc, &record.change) else {
                    return Err(Memory);
                };
                self.reply(alloc, out, Reply::Body(&text))
            }
            None => self.reply(alloc, out, Reply::No(Reason::Change)),
        }
    }

    /// Answers with the text of the inverse.
    fn inverse(&self, alloc: Global, name: Name, out: &mut Vec<u8>) -> Result<(), Memory> {
        let Some(record) = self.change(name) else {
            return self.reply(alloc, out, Reply::No(Reason::Change));
        };
        match inverse(alloc, record) {
            Ok(change) => {
                let Ok(text) = write(alloc, &change) else {
                    return Err(Memory);
                };
                self.reply(alloc, out, Reply::Body(&text))
            }
            Err(InverseRefusal::Hunk(hunk)) => {
                self.reply(alloc, out, Reply::No(Reason::Inverse(hunk)))
            }
            Err(InverseRefusal::Memory) => Err(Memory),
        }
    }

    fn fork(&mut self, alloc: Global, from: &[u8], to: &[u8]) -> Result<Reply<'static>, Memory> {
        let Some(channel) = self.channel(from) else {
            return Ok(Reply::No(Reason::Channel));
        };
        if self.channel(to).is_some() {
            return Ok(Reply::No(Reason::Taken));
        }
        let channel = channel.share(alloc)?;
        self.enter(alloc, to, channel)
    }

    fn apply(
        &mut self,
        alloc: Global,
        name: &[u8],
        change: Name,
    ) -> Result<Reply<'static>, Memory> {
        let Some(channel) = self.channel(name) else {
            return Ok(Reply::No(Reason::Channel));
        };
        let Some(change) = self.change(change) else {
            return Ok(Reply::No(Reason::Change));
        };
        match channel.apply(alloc, change) {
            Ok(Applied::New(after)) => self.enter(alloc, name, after),
            Ok(Applied::Already) => Ok(Reply::Already),
            Err(ApplyRefusal::Needs(need)) => Ok(Reply::No(Reason::Needs(need))),
            Err(ApplyRefusal::Context(hunk)) => Ok(Reply::No(Reason::Context(hunk))),
            Err(ApplyRefusal::Memory) => Err(Memory),
        }
    }

    fn unrecord(
        &mut self,
        alloc: Global,
        name: &[u8],
        change: Name,
    ) -> Result<Reply<'static>, Memory> {
        let Some(channel) = self.channel(name) else {
            return Ok(Reply::No(Reason::Channel));
        };
        match channel.unrecord(alloc, change) {
            Ok(after) => self.enter(alloc, name, after),
            Err(UnrecordRefusal::Absent) => Ok(Reply::No(Reason::Absent)),
            Err(UnrecordRefusal::Held(holder)) => Ok(Reply::No(Reason::Held(holder))),
            Err(UnrecordRefusal::Memory) => Err(Memory),
        }
    }

    fn uproot(
        &mut self,
        alloc: Global,
        name: &[u8],
        change: Name,
    ) -> Result<Reply<'static>, Memory> {
        let Some(channel) = self.channel(name) else {
            return Ok(Reply::No(Reason::Channel));
        };
        match channel.uproot(alloc, change) {
            Ok(after) => self.enter(alloc, name, after),
            Err(UprootRefusal::Absent) => Ok(Reply::No(Reason::Absent)),
            Err(UprootRefusal::Memory) => Err(Memory),
        }
    }

    fn pull(&mut self, alloc: Global, into: &[u8], from: &[u8]) -> Result<Reply<'static>, Memory> {
        let Some(channel) = self.channel(into) else {
            return Ok(Reply::No(Reason::Channel));
        };
        let Some(other) = self.channel(from) else {
            return Ok(Reply::No(Reason::Channel));
        };
        if !channel.agrees_with(other) {
            return Ok(Reply::No(Reason::Clash));
        }
        let after = channel.pull(alloc, other)?;
        self.enter(alloc, into, after)
    }

    /// Answers what a channel shows.
    fn show(
        &self,
        alloc: Global,
        view: View,
        name: &[u8],
        out: &mut Vec<u8>,
    ) -> Result<(), Memory> {
        let Some(channel) = self.channel(name) else {
            return self.reply(alloc, out, Reply::No(Reason::Channel));
        };
        let body = match view {
            View::Graph => graph_lines(alloc, &channel.graph(alloc)?)?,
            View::Sizes => sizes_line(alloc, &channel.graph(alloc)?)?,
            View::Walk => walk_lines(alloc, &channel.walk(alloc)?)?,
            View::Log => log_lines(alloc, &channel.log(alloc)?)?,
            View::Print => return self.print(alloc, channel, true, out),
            View::Length => return self.print(alloc, channel, false, out),
        };
        self.reply(alloc, out, Reply::Body(&body))
    }

    /// Answers with the print, or with its length alone.
    fn print(
        &self,
        alloc: Global,
        channel: &PlainChannel,
        whole: bool,
        out: &mut Vec<u8>,
    ) -> Result<(), Memory> {
        match channel.print(alloc, self.live) {
            Ok(bytes) if whole => self.reply(alloc, out, Reply::Body(bytes.items())),
            Ok(bytes) => {
                let length = format!(in alloc; "{}\n", bytes.items().len())?;
                self.reply(alloc, out, Reply::Body(length.as_bytes()))
            }
            Err(PrintRefusal::Wide(inode)) => {
                self.reply(alloc, out, Reply::No(Reason::Wide(inode)))
            }
            Err(PrintRefusal::Memory) => Err(Memory),
        }
    }
}
