//! A disk in memory.
ghost use Rattle.std.specs.Prelude.{◌≡◌, ◌↔◌, ◌≤◌, ◌<◌, ◌+◌, ◌++◌, ◌^◌, true, false, if◌then◌else◌, length, Some, None, option_to_list, IfOk, OnOk, OnErr, IsErr, MatchResult, refl};
ghost use Rattle.std.proofs.Common.{inl};
ghost use Rattle.pj_disk.specs.Causes.{one_more, HasCause};
ghost use Rattle.pj_disk.specs.Image.{overwritten, Torn, Follows, AddsNone, Only};
ghost use Rattle.pj_disk.specs.Moments.{Elapses};
ghost use Rattle.pj_disk.specs.Reading.{ReadAt};
ghost use Rattle.pj_disk.specs.MemDisk.{new_disk, stretch_of, one_less, MayLeave, LeftSince, AfterReading, AfterWriting, Notes, only_now};

use crate::stretch::{Stretch, overwrite};
use crate::{Disk, Failed};
use pj_memory::Memory;
use std::alloc::Global;
use std::marker::Model;

/// A disk over bytes in memory, which can be made to crash, and all whose calls fail after so many. It
/// keeps what it had at each sync and the ranges written since, so that its images are all that a
/// crash may leave of a real one.
#[derive(Drop)]
pub struct MemDisk {
    bytes: Vec<u8>,
    /// Since the last sync; None where nothing was written since.
    unsynced: Option<Stretch>,
    past: Vec<Stretch>,
    calls_left: Option<u64>,
    faults: u64,
}

impl Model for MemDisk {
    ghost use Rattle.pj_disk.specs.MemDisk.{DiskInMemory, MayLeaveIn, stretch_of};

    ghost Value = { DiskInMemory };

    ghost view = { λ s. record {
      bytes = s.bytes.items;
      stretch = stretch_of s.bytes.items s.unsynced;
      past = s.past.items;
      calls_left = s.calls_left;
      faults = s.faults;
    } };

    // What is there is reached from what was synced.
    ghost invariant = { λ s. MayLeaveIn (stretch_of s.bytes.items s.unsynced) s.bytes.items };
}

impl MemDisk {
    /// A disk of these bytes, which are its only image. After so many calls all of them fail, and a
    /// write or a sync that finds no memory fails too.
    ///
    /// # Errors
    /// `Memory`, where none is left for what was synced.
    pub fn new(alloc: Global, bytes: Vec<u8>, calls: u64) -> Result<MemDisk, Memory>
        ensures { IfOk result (λ disk. disk ≡ new_disk bytes.items (Some calls)) }
    {
        let synced = bytes.to_vec(alloc)?;
        Ok(MemDisk {
            bytes,
            unsynced: Some(Stretch::of(synced)),
            past: Vec::new(alloc),
            calls_left: Some(calls),
            faults: 0,
        })
    }

    /// What a read gives.
    pub fn bytes(&self) -> &[u8]
        ensures { result.now ≡ self.now.bytes }
    {
        &self.bytes
    }

    /// The disk after a crash that left one of its images: what a read gave, or, where `synced` is true,
    /// what was synced last. It does not stop, and takes no memory.
    pub fn crash(self, synced: bool) -> MemDisk
        ensures disk { result ≡ new_disk (if synced then self.stretch.synced else self.bytes) None }
        ensures image { MayLeave self result.bytes }
    {
        let alloc = *self.bytes.allocator();
        MemDisk {
            bytes: left(self.bytes, self.unsynced, synced),
            unsynced: None,
            past: Vec::new(alloc),
            calls_left: None,
            faults: 0,
        }
    }
}

impl Disk for MemDisk {
    ghost tells = { λ _. true };

    ghost seen = { λ m. m.bytes };

    ghost may_leave = { MayLeave };

    ghost moment = { λ m. length m.past };

    ghost left_since = { LeftSince };

    ghost faults = { λ m. m.faults };

    ghost reads_an_image = { λ m. inl refl };

    ghost counts_now = { λ m t c le now. inl now };

    ghost only_now = { λ m c left. only_now m c left };

    fn len(&mut self) -> Result<u64, Failed>
        ensures bound { IfOk result (λ n. n < 2 ^ 63) }
        ensures length { IfOk result (λ n. n ≡ length self.old.bytes) }
        ensures images { AddsNone (MayLeave self.old) (MayLeave self.new) }
        ensures time { Elapses (length self.old.past) (length self.new.past) (LeftSince self.old) (LeftSince self.new) (MayLeave self.new) }
        ensures cause { HasCause self.old.faults self.new.faults result }

        // It fails exactly where no call is left.
        ensures failing { IsErr result ↔ (self.old.calls_left ≡ Some 0) }
        ensures after { AfterReading self.old self.new result }
    {
        if !spend(&mut self.calls_left) {
            return fail(&mut self.faults);
        }
        Ok(self.bytes.len() as u64)
    }

    fn read(&mut self, at: u64, into: &mut [u8]) -> Result<usize, Failed>
        ensures bound { IfOk result (λ n. n ≤ length into.old) }
        ensures bytes { IfOk result (λ n. ReadAt self.old.bytes at into.old into.new n) }
        ensures images { AddsNone (MayLeave self.old) (MayLeave self.new) }
        ensures time { Elapses (length self.old.past) (length self.new.past) (LeftSince self.old) (LeftSince self.new) (MayLeave self.new) }
        ensures cause { HasCause self.old.faults self.new.faults result }

        // It fails exactly where no call is left.
        ensures failing { IsErr result ↔ (self.old.calls_left ≡ Some 0) }
        ensures after { AfterReading self.old self.new result }
        ensures untouched { OnErr result (into.new ≡ into.old) }
    {
        if !spend(&mut self.calls_left) {
            return fail(&mut self.faults);
        }
        Ok(copy_from(&self.bytes, at, into))
    }

    fn write_at(&mut self, at: u64, bytes: &[u8]) -> Result<(), Failed>
        requires { at ≤ length self.old.bytes }
        ensures bound { OnOk result (at + length bytes.now < 2 ^ 63) }
        ensures written { OnOk result (self.new.bytes ≡ overwritten self.old.bytes at bytes.now) }
        ensures images { Follows (Torn at (length bytes.now)) (MayLeave self.old) (MayLeave self.new) }
        ensures time { Elapses (length self.old.past) (length self.new.past) (LeftSince self.old) (LeftSince self.new) (MayLeave self.new) }
        ensures cause { HasCause self.old.faults self.new.faults result }

        // It fails where no call is left.
        ensures failing { self.old.calls_left ≡ Some 0 → IsErr result }
        ensures after { AfterWriting self.old self.new (overwritten self.old.bytes at bytes.now) self.old.stretch.synced result }
    {
        if !spend(&mut self.calls_left) {
            return fail(&mut self.faults);
        }
        match write_noted(&mut self.bytes, &mut self.unsynced, at, bytes) {
            Ok(()) => Ok(()),
            Err(_) => fail(&mut self.faults),
        }
    }

    fn sync(&mut self) -> Result<(), Failed>
        ensures durable { OnOk result (Only self.old.bytes (MayLeave self.new)) }
        ensures seen { OnOk result (self.new.bytes ≡ self.old.bytes) }
        ensures images { AddsNone (MayLeave self.old) (MayLeave self.new) }
        ensures time { Elapses (length self.old.past) (length self.new.past) (LeftSince self.old) (LeftSince self.new) (MayLeave self.new) }
        ensures cause { HasCause self.old.faults self.new.faults result }

        // It fails where no call is left.
        ensures failing { self.old.calls_left ≡ Some 0 → IsErr result }
        ensures after { AfterWriting self.old self.new self.old.bytes self.old.bytes result }
    {
        if !spend(&mut self.calls_left) {
            return fail(&mut self.faults);
        }
        match keep(&mut self.unsynced, &mut self.past) {
            Ok(()) => Ok(()),
            Err(_) => fail(&mut self.faults),
        }
    }

    fn faults(&self) -> u64 {
        self.faults
    }
}

// The image that a crash leaves: what was synced, or all that was written.
fn left(bytes: Vec<u8>, unsynced: Option<Stretch>, synced: bool) -> Vec<u8>
    ensures { result.items ≡ (if synced then (stretch_of bytes.items unsynced).synced else bytes.items) }
{
    match unsynced {
        Some(stretch) if synced => stretch.into_synced(),
        _ => bytes,
    }
}

// Counts a call: whether one was left.
fn spend(calls_left: &mut Option<u64>) -> bool
    ensures left { calls_left.new ≡ one_less calls_left.old }
    ensures none { result ≡ false ↔ (calls_left.old ≡ Some 0) }
{
    match calls_left {
        Some(0) => false,
        Some(calls) => {
            *calls -= 1;
            true
        }
        None => true,
    }
}

// A failure, which is counted.
fn fail<T>(faults: &mut u64) -> Result<T, Failed>
    ensures fails { IsErr result }
    ensures count { faults.new ≡ one_more faults.old }
{
    *faults = faults.saturating_add(1);
    Err(Failed)
}

// Copies the bytes from this place on to the front of `into`, as many as there are or as it holds.
fn copy_from(bytes: &[u8], at: u64, into: &mut [u8]) -> usize
    ensures bytes { ReadAt bytes.now at into.old into.new result }
    ensures bound { result ≤ length into.old }
{
    let from = (at as usize).min(bytes.len());
    let count = into.len().min(bytes.len() - from);
    into[..count].copy_from_slice(&bytes[from..from + count]);
    count
}

// Notes the range, and writes.
fn write_noted(
    file: &mut Vec<u8>,
    unsynced: &mut Option<Stretch>,
    at: u64,
    bytes: &[u8],
) -> Result<(), Memory>
    requires { at ≤ length file.old.items }
    ensures bytes { MatchResult result
        (λ _. file.new.items ≡ overwritten file.old.items at bytes.now)
        (λ _. file.new.items ≡ file.old.items) }
    ensures stretch { Notes at (length bytes.now) (stretch_of file.old.items unsynced.old) (stretch_of file.new.items unsynced.new) result }
    ensures bound { OnOk result (at + length bytes.now < 2 ^ 63) }
{
    if unsynced.is_none() {
        *unsynced = Some(Stretch::of(file.to_vec(*file.allocator())?));
    }
    if let Some(stretch) = unsynced {
        stretch.add(at, bytes.len())?;
    }
    overwrite(file, at as usize, bytes)
}

// Keeps the stretch that ends, where something was written in it.
fn keep(unsynced: &mut Option<Stretch>, past: &mut Vec<Stretch>) -> Result<(), Memory>
    ensures { MatchResult result
        (λ _. (unsynced.new ≡ None) × (past.new.items ≡ past.old.items ++ option_to_list unsynced.old))
        (λ _. (unsynced.new ≡ unsynced.old) × (past.new.items ≡ past.old.items)) }
{
    let Some(stretch) = unsynced.take() else {
        return Ok(());
    };
    if let Err(refused) = past.push(stretch) {
        *unsynced = Some(refused.value);
        return Err(Memory);
    }
    Ok(())
}
