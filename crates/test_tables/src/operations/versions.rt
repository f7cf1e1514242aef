//! Operations on versions. A HUNK is two numbers, its change and its number, and a POINT two, its change and its position.
//!
//! | Line | Answer |
//! |---|---|
//! | `vadd HUNK OWNER START END ALIVE COUNT NAME..` | adds what the hunk says, with so many names under `by`; `no` where it is there or has no position |
//! | `vremove HUNK` | takes it away |
//! | `vsurviving POINT` | the surviving versions, in order, and `end` |
//! | `vstatus POINT` | what survives, and the status, where the hunks with odd numbers are contested |

ghost use Rattle.std.specs.Prelude.{◌≡◌, nat_eq, ◌%◌, None, IsTrue};
ghost use Rattle.pj_states.specs.Rows.{said_by, hunk_at};

use crate::operations::numbers::{name, number, point, put, put_name, put_word};
use pj_change::{Names, Point, Status, Version};
use pj_name::Name;
use pj_pmap::{Memory, Steps};
use pj_scan::Scan;
use pj_states::{ContestedHunks, Deletion, HunkAt, Versions};
use std::alloc::Global;
use std::mem;
use std::sync::ledger::Ledger;

/// How many versions are written, and how many names are read, at most.
const MOST: u32 = 1_000;

/// A table of versions.
#[derive(Drop)]
pub struct VersionCases {
    versions: Versions,
}

/// The hunks with odd numbers.
struct OddHunks;

impl ContestedHunks for OddHunks {
    ghost use Rattle.std.specs.Prelude.{nat_eq, ◌%◌};

    ghost contested = { λ s k. nat_eq (k.hunk % 2) 1 };

    fn is_contested(&self, by: HunkAt) -> bool {
        by.hunk % 2 == 1
    }
}

/// The names behind their number.
fn names(alloc: Global, line: &mut Scan) -> Result<Names, Memory> {
    let mut names = Vec::new(alloc);
    let count = number(line);
    for _ in 0..count.min(MOST) {
        names.push(name(line))?;
    }
    Ok(Names::of(names))
}

/// What the hunk of a line says.
fn deletion(alloc: Global, line: &mut Scan) -> Result<Deletion, Memory> {
    let owner = name(line);
    let start = number(line);
    let end = number(line);
    let alive = number(line) == 1;
    let by = names(alloc, line)?;
    Ok(Deletion {
        owner,
        start,
        end,
        by,
        alive,
    })
}

fn put_version(alloc: Global, out: &mut Vec<u8>, version: Version) -> Result<(), Memory> {
    match version {
        Version::Owner => put_word(out, b"owner"),
        Version::Deleted { change, hunk } => {
            out.extend_from_slice(b"deleted")?;
            put_name(alloc, out, change)?;
            put(alloc, out, hunk)?;
            put_word(out, b"")
        }
        Version::Revived { change, hunk } => {
            out.extend_from_slice(b"revived")?;
            put_name(alloc, out, change)?;
            put(alloc, out, hunk)?;
            put_word(out, b"")
        }
    }
}

fn status_word(status: Status) -> &'static [u8] {
    match status {
        Status::Alive => b"alive",
        Status::Dead => b"dead",
        Status::Zombie => b"zombie",
    }
}

impl VersionCases {
    pub fn empty() -> VersionCases {
        VersionCases {
            versions: Versions::empty(),
        }
    }

    /// The table, with none in its place.
    fn give_up(&mut self) -> Versions
        ensures { result ≡ self.old.versions }
    {
        mem::replace(&mut self.versions, Versions::empty())
    }

    fn add<L: Ledger>(
        &mut self,
        alloc: Global,
        change: Name,
        hunk: u32,
        op: Deletion,
        steps: &mut Steps<L>,
        out: &mut Vec<u8>,
    ) -> Result<(), Memory> {
        if op.start >= op.end || self.versions.get(HunkAt { change, hunk }).is_some() {
            return put_word(out, b"no");
        }
        self.versions = self.give_up().add(alloc, change, hunk, op, steps)?;
        put_word(out, b"ok")
    }

    fn put_surviving(&self, alloc: Global, out: &mut Vec<u8>, at: Point) -> Result<(), Memory> {
        let mut next = self.versions.surviving(at, None);
        for _ in 0..MOST {
            let Some(version) = next else {
                break;
            };
            put_version(alloc, out, version)?;
            next = self.versions.surviving(at, Some(version));
        }
        put_word(out, b"end")
    }

    fn put_status(&self, out: &mut Vec<u8>, at: Point) -> Result<(), Memory> {
        let found = self.versions.survivors(at, &OddHunks);
        if found.owner {
            out.extend_from_slice(b"owner ")?;
        }
        if found.revived {
            out.extend_from_slice(b"revived ")?;
        }
        if found.deleted {
            out.extend_from_slice(b"deleted ")?;
        }
        if found.contested {
            out.extend_from_slice(b"contested ")?;
        }
        put_word(out, status_word(self.versions.status(at, &OddHunks)))
    }

    pub fn answer<L: Ledger>(
        &mut self,
        alloc: Global,
        word: &[u8],
        line: &mut Scan,
        steps: &mut Steps<L>,
        out: &mut Vec<u8>,
    ) -> Result<(), Memory> {
        let Point { change, offset } = point(line);
        match word {
            b"add" => {
                let op = deletion(alloc, line)?;
                self.add(alloc, change, offset, op, steps, out)
            }
            b"remove" => {
                self.versions = self.give_up().remove(alloc, change, offset, steps)?;
                put_word(out, b"ok")
            }
            b"surviving" => self.put_surviving(alloc, out, Point { change, offset }),
            b"status" => self.put_status(out, Point { change, offset }),
            _ => Ok(()),
        }
    }
}
