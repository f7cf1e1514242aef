//! Runs of a log over a disk.
use crate::disk::torn::{Tear, TornDisk};
use pj_disk::{Disk, MemDisk};
use pj_journal::{Frame, Log, LogRefusal, Memory, OpenRefusal};
use std::alloc::Global;

/// The most bytes that a string may have.
const MOST: usize = 16_777_230;

/// The frame of a string, where it can be stored.
pub fn frame_of(alloc: Global, string: &[u8]) -> Result<Option<Frame>, Memory> {
    if string.is_empty() || string.len() > MOST {
        return Ok(None);
    }
    Ok(Some(Frame::of(alloc, string)?))
}

/// Reads the strings that are left.
pub fn read_all<K: Disk>(
    alloc: Global,
    log: &mut Log<K>,
    strings: &mut Vec<Vec<u8>>,
) -> Result<(), LogRefusal> {
    for _ in 0..u64::MAX {
        match log.read(alloc)? {
            Some(string) => match strings.push(string) {
                Ok(()) => {}
                Err(_) => return Err(LogRefusal::Memory),
            },
            None => break,
        }
    }
    Ok(())
}

/// Appends the strings in turn, as far as that goes: how many.
pub fn append_all<K: Disk>(log: &mut Log<K>, frames: &[Frame]) -> usize {
    let mut count: usize = 0;
    for frame in frames {
        if !log.is_at_end() || log.append(frame).is_err() {
            break;
        }
        count = count.saturating_add(1);
    }
    count
}

/// Opens the file of a disk, reads it, and appends: how many strings were acknowledged, and the disk.
pub fn run<K: Disk>(alloc: Global, disk: K, frames: &[Frame]) -> (usize, K) {
    match Log::open(disk) {
        Ok(mut log) => {
            let mut strings = Vec::new(alloc);
            let read = read_all(alloc, &mut log, &mut strings);
            let count = if read.is_ok() {
                append_all(&mut log, frames)
            } else {
                0
            };
            (count, log.close())
        }
        Err(OpenRefusal::Foreign(disk)) => (0, disk),
        Err(OpenRefusal::Store(disk)) => (0, disk),
    }
}

/// What a crash leaves of the file where the disk stops after so many calls, and how many strings were acknowledged.
pub fn stopped(
    alloc: Global,
    file: &[u8],
    frames: &[Frame],
    calls: u64,
    synced: bool,
) -> Result<(usize, Vec<u8>), Memory> {
    let disk = MemDisk::new(alloc, file.to_vec(alloc)?, calls)?;
    let (count, disk) = run(alloc, disk, frames);
    let left = disk.crash(synced);
    Ok((count, left.bytes().to_vec(alloc)?))
}

/// What is left of the file where the disk stops at the last of so many calls and tears it, and whether all was acknowledged.
pub fn torn(
    alloc: Global,
    file: &[u8],
    frames: &[Frame],
    calls: u64,
    tear: Tear,
) -> Result<(bool, Vec<u8>), Memory> {
    let disk = TornDisk::new(file.to_vec(alloc)?, calls, tear);
    let (count, disk) = run(alloc, disk, frames);
    Ok((count == frames.len(), disk.into_file()))
}

/// The file with the strings appended.
pub fn appended(alloc: Global, file: &[u8], frames: &[Frame]) -> Result<Vec<u8>, Memory> {
    let disk = MemDisk::new(alloc, file.to_vec(alloc)?, u64::MAX)?;
    let (_, disk) = run(alloc, disk, frames);
    Ok(disk.bytes().to_vec(alloc)?)
}
