//! Operations on needs. The changes are numbered from 0 as they come.
//!
//! | Line | Answer |
//! |---|---|
//! | `dtext LENGTH`, a newline and so many bytes | one more change, or `no` where the bytes are no text of one |
//! | `dwith CHANGE`, `dwithout CHANGE` | the change is held, or no more; `no` where there is no such change |
//! | `dmissing CHANGE` | the first eight digits of the least need that is not held, or `none` |
//! | `dholders CHANGE` | those of each held change that needs it, in order, and `end`, and then the first of them again or `none` |

use crate::operations::numbers::{number, put_word};
use pj_change::Record;
use pj_deps::Deps;
use pj_name::Name;
use pj_pmap::{Memory, Steps};
use pj_scan::Scan;
use pj_text::{ReadRefusal, read_record};
use std::alloc::Global;
use std::mem;
use std::sync::ledger::Ledger;

/// How many names are written at most.
const MOST: u32 = 10_000;

/// The changes, and those that are held.
#[derive(Drop)]
pub struct DepCases {
    records: Vec<Record>,
    deps: Deps,
}

fn put_digits(out: &mut Vec<u8>, name: Option<Name>) -> Result<(), Memory> {
    let Some(name) = name else {
        return put_word(out, b"none");
    };
    let digits = name.hex();
    put_word(out, &digits[..8])
}

impl DepCases {
    pub fn empty(alloc: Global) -> DepCases {
        DepCases {
            records: Vec::new(alloc),
            deps: Deps::empty(),
        }
    }

    fn put_text(
        &mut self,
        alloc: Global,
        line: &mut Scan,
        out: &mut Vec<u8>,
    ) -> Result<(), Memory> {
        let length = number(line);
        let _ = line.bytes(1);
        let Some(text) = line.bytes(length) else {
            return put_word(out, b"no");
        };
        match read_record(alloc, text) {
            Ok(record) => {
                self.records.push(record)?;
                put_word(out, b"ok")
            }
            Err(ReadRefusal::Malformed) => put_word(out, b"no"),
            Err(ReadRefusal::Memory) => Err(Memory),
        }
    }

    fn put_holders(&self, out: &mut Vec<u8>, name: Name) -> Result<(), Memory> {
        let mut next = self.deps.next_holder(name, None);
        for _ in 0..MOST {
            let Some(holder) = next else {
                break;
            };
            put_digits(out, Some(holder))?;
            next = self.deps.next_holder(name, Some(holder));
        }
        put_word(out, b"end")?;
        put_digits(out, self.deps.holder(name))
    }

    pub fn answer<L: Ledger>(
        &mut self,
        alloc: Global,
        word: &[u8],
        line: &mut Scan,
        steps: &mut Steps<L>,
        out: &mut Vec<u8>,
    ) -> Result<(), Memory> {
        if let b"text" = word {
            return self.put_text(alloc, line, out);
        }
        let place = number(line) as usize;
        if self.change(alloc, word, place, steps)? {
            return put_word(out, b"ok");
        }
        self.tell(word, place, out)
    }

    /// Carries out the operation, if it is one that changes the table, and says whether it is.
    fn change<L: Ledger>(
        &mut self,
        alloc: Global,
        word: &[u8],
        place: usize,
        steps: &mut Steps<L>,
    ) -> Result<bool, Memory> {
        let Some(record) = self.records.get(place) else {
            return Ok(false);
        };
        match word {
            b"with" => {
                let deps = mem::replace(&mut self.deps, Deps::empty());
                self.deps = deps.with(alloc, record, steps)?;
                Ok(true)
            }
            b"without" => {
                let deps = mem::replace(&mut self.deps, Deps::empty());
                self.deps = deps.without(alloc, record, steps)?;
                Ok(true)
            }
            _ => Ok(false),
        }
    }

    /// Writes what is asked of the change of this number.
    fn tell(&self, word: &[u8], place: usize, out: &mut Vec<u8>) -> Result<(), Memory> {
        let Some(record) = self.records.get(place) else {
            return put_word(out, b"no");
        };
        match word {
            b"missing" => put_digits(out, self.deps.missing(record)),
            b"holders" => self.put_holders(out, record.name),
            _ => Ok(()),
        }
    }
}
