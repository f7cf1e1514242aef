//! What a line does to the changes and to their history, and what it is answered.

use crate::contests::history::History;
use crate::contests::lines::{Word, number, put_counts, put_word};
use pj_change::Record;
use pj_pmap::{Memory, Steps};
use pj_scan::Scan;
use pj_text::{ReadRefusal, read_record};
use std::alloc::Global;
use std::sync::Arc;
use std::sync::ledger::Ledger;

/// The changes that were told of, and those of them that are held.
#[derive(Drop)]
pub struct Cases {
    changes: Vec<Arc<Record>>,
    history: History,
}

/// The change that stands behind its length and a newline, or `None` where the bytes are no text of one.
fn change(alloc: Global, line: &mut Scan) -> Result<Option<Arc<Record>>, Memory> {
    let length = number(line);
    let _ = line.bytes(1);
    let Some(text) = line.bytes(length) else {
        return Ok(None);
    };
    match read_record(alloc, text) {
        Ok(record) => Ok(Some(Arc::new(alloc, record)?)),
        Err(ReadRefusal::Malformed) => Ok(None),
        Err(ReadRefusal::Memory) => Err(Memory),
    }
}

impl Cases {
    /// No change was told of.
    pub fn empty(alloc: Global) -> Result<Cases, Memory> {
        let history = History::empty(alloc)?;
        Ok(Cases {
            changes: Vec::new(alloc),
            history,
        })
    }

    /// The change of this number, if so many were told of.
    fn change(&self, place: usize) -> Option<&Arc<Record>> {
        self.changes.get(place)
    }

    /// Takes the history, if there is one, and says so.
    fn take(&mut self, history: Option<History>, out: &mut Vec<u8>) -> Result<(), Memory> {
        match history {
            Some(history) => {
                self.history = history;
                put_word(out, b"ok")
            }
            None => put_word(out, b"no"),
        }
    }

    /// The history with a change too, by its number, if that may come.
    fn with<L: Ledger>(
        &self,
        alloc: Global,
        place: usize,
        steps: &mut Steps<L>,
    ) -> Result<Option<History>, Memory> {
        let Some(change) = self.change(place) else {
            return Ok(None);
        };
        let Some(contests) = self.history.tried(alloc, change, steps)? else {
            return Ok(None);
        };
        let history = self.history.with(alloc, change, contests, steps)?;
        Ok(Some(history))
    }

    /// The history without a change, by its number, if that may go.
    fn without<L: Ledger>(
        &self,
        alloc: Global,
        place: usize,
        steps: &mut Steps<L>,
    ) -> Result<Option<History>, Memory> {
        let Some(change) = self.change(place) else {
            return Ok(None);
        };
        self.history.without(alloc, change.name, steps)
    }

    /// Begins a new history, after its title was written.
    fn begin(&mut self, alloc: Global, line: &mut Scan, out: &mut Vec<u8>) -> Result<(), Memory> {
        out.extend_from_slice(b"row")?;
        put_word(out, Scan::new(line.rest()).line().unwrap_or(b""))?;
        self.history = History::empty(alloc)?;
        Ok(())
    }

    /// Takes one more change, if the line has one, and says so.
    fn tell(&mut self, alloc: Global, line: &mut Scan, out: &mut Vec<u8>) -> Result<(), Memory> {
        let Some(change) = change(alloc, line)? else {
            return put_word(out, b"no");
        };
        self.changes.push(change)?;
        put_word(out, b"ok")
    }

    /// Holds the change of this number, if it may come, and says so.
    fn hold<L: Ledger>(
        &mut self,
        alloc: Global,
        place: usize,
        steps: &mut Steps<L>,
        out: &mut Vec<u8>,
    ) -> Result<(), Memory> {
        let history = self.with(alloc, place, steps)?;
        self.take(history, out)
    }

    /// Lets the change of this number go, if it may, and says so.
    fn let_go<L: Ledger>(
        &mut self,
        alloc: Global,
        place: usize,
        steps: &mut Steps<L>,
        out: &mut Vec<u8>,
    ) -> Result<(), Memory> {
        let history = self.without(alloc, place, steps)?;
        self.take(history, out)
    }

    /// Whether the change of this number may come: `ok` or `no`.
    fn put_tried<L: Ledger>(
        &self,
        alloc: Global,
        place: usize,
        steps: &mut Steps<L>,
        out: &mut Vec<u8>,
    ) -> Result<(), Memory> {
        let Some(change) = self.change(place) else {
            return put_word(out, b"no");
        };
        let contests = self.history.tried(alloc, change, steps)?;
        put_word(out, if contests.is_some() { b"ok" } else { b"no" })
    }

    /// Whether a hunk of the change of this number is contested: `yes` or `no`.
    fn put_contested(&self, place: usize, hunk: u32, out: &mut Vec<u8>) -> Result<(), Memory> {
        let Some(change) = self.change(place) else {
            return put_word(out, b"no");
        };
        let contested = self.history.contests().contested(change.name, hunk);
        put_word(out, if contested { b"yes" } else { b"no" })
    }

    /// Answers the line that begins with this word.
    pub fn answer<L: Ledger>(
        &mut self,
        alloc: Global,
        word: Word,
        line: &mut Scan,
        steps: &mut Steps<L>,
        out: &mut Vec<u8>,
    ) -> Result<(), Memory> {
        match word {
            Word::Row => self.begin(alloc, line, out),
            Word::Text => self.tell(alloc, line, out),
            Word::With => self.hold(alloc, number(line) as usize, steps, out),
            Word::Without => self.let_go(alloc, number(line) as usize, steps, out),
            Word::Try => self.put_tried(alloc, number(line) as usize, steps, out),
            Word::Contested => {
                let place = number(line) as usize;
                self.put_contested(place, number(line), out)
            }
            Word::Counts => put_counts(alloc, out, self.history.contests()),
        }
    }
}
