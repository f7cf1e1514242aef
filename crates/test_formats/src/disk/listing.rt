//! How a file reads.
use crate::disk::runs::read_all;
use pj_disk::MemDisk;
use pj_journal::{Log, LogRefusal, Memory, OpenRefusal};
use std::alloc::Global;

/// How the reading of a file ends.
#[derive(Clone, Copy, Debug, PartialEq, Eq)]
pub enum End {
    Closed,
    Foreign,
    Broken,
    Store,
}

/// The strings that were read, and how that ended.
#[derive(Drop)]
pub struct Listing {
    pub strings: Vec<Vec<u8>>,
    pub end: End,
}

/// What the file stores.
pub fn list(alloc: Global, file: &[u8]) -> Result<Listing, Memory> {
    let disk = MemDisk::new(alloc, file.to_vec(alloc)?, u64::MAX)?;
    let mut strings = Vec::new(alloc);
    let end = match Log::open(disk) {
        Ok(mut log) => match read_all(alloc, &mut log, &mut strings) {
            Ok(()) => End::Closed,
            Err(LogRefusal::Broken) => End::Broken,
            Err(LogRefusal::Store) => End::Store,
            Err(LogRefusal::Memory) => return Err(Memory),
        },
        Err(OpenRefusal::Foreign(_disk)) => End::Foreign,
        Err(OpenRefusal::Store(_disk)) => End::Store,
    };
    Ok(Listing { strings, end })
}

impl Listing {
    /// Whether these are the strings, to the end.
    pub fn is_of(&self, strings: &[Vec<u8>]) -> bool {
        self.end == End::Closed && self.strings.as_slice() == strings
    }

    /// Writes the strings and the end.
    pub fn write(&self, out: &mut Vec<u8>) -> Result<(), Memory> {
        for string in &self.strings {
            put_string(out, string)?;
            out.extend_from_slice(b" ")?;
        }
        let end: &[u8] = match self.end {
            End::Closed => b"end",
            End::Foreign => b"foreign",
            End::Broken => b"broken",
            End::Store => b"store",
        };
        out.extend_from_slice(end)?;
        Ok(())
    }
}

/// Writes a number in decimal.
pub fn put_number(out: &mut Vec<u8>, number: usize) -> Result<(), Memory> {
    let mut buffer = itoa::Buffer::new();
    out.extend_from_slice(buffer.format(number).as_bytes())?;
    Ok(())
}

// A short string in hex, and a longer one as its length.
fn put_string(out: &mut Vec<u8>, string: &[u8]) -> Result<(), Memory> {
    if string.len() <= 8 {
        let text = hex::encode(*out.allocator(), string)?;
        out.extend_from_slice(text.as_bytes())?;
    } else {
        put_number(out, string.len())?;
    }
    Ok(())
}
