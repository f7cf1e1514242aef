//! How a thread takes the lock: it tries for a while before it sleeps.
//!
//! A call mostly holds the lock for a microsecond or two, and to put a thread to sleep and to wake it takes longer than that. So a
//! thread that finds the lock taken tries again for some tens of microseconds, and sleeps only then.
use std::hint::spin_loop;
use std::sync::{Mutex, MutexGuard, Wait};

// How often a thread tries before it sleeps.
const TRIES: u32 = 500;

/// The value behind the lock, once it is free.
pub(crate) fn taken<'a, T, R: Wait>(rt: &R, lock: &'a Mutex<T>) -> MutexGuard<'a, T> {
    for _ in 0..TRIES {
        if let Some(guard) = lock.try_lock() {
            return guard;
        }
        spin_loop();
    }
    lock.lock(rt)
}
