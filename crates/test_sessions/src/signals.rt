//! What two sessions wait for, of which the first is held until the second has been answered.
use std::sync::atomic::{AtomicBool, AtomicU32, Ordering};
use std::thread::yield_now;

/// How many turns a wait has.
const TURNS: u32 = 20_000_000;

/// What has happened.
#[derive(Drop)]
pub struct Signals {
    /// The first session stands where it is held, or has ended.
    stands: AtomicBool,
    /// The second session has been answered.
    answered: AtomicBool,
    /// How often the first session stood where it is held.
    times: AtomicU32,
    /// The turns of a wait ran out.
    late: AtomicBool,
}

impl Signals {
    /// Nothing has happened.
    pub fn new() -> Signals {
        Signals {
            stands: AtomicBool::new(false),
            answered: AtomicBool::new(false),
            times: AtomicU32::new(0),
            late: AtomicBool::new(false),
        }
    }

    /// Waits until this has happened, or the turns run out.
    fn wait_for(&self, signal: &AtomicBool) {
        for _ in 0..TURNS {
            if signal.load(Ordering::SeqCst) {
                return;
            }
            yield_now();
        }
        self.late.store(true, Ordering::SeqCst);
    }

    /// Holds the first session until the second has been answered.
    pub fn hold_first(&self) {
        self.times.fetch_add(1, Ordering::SeqCst);
        self.stands.store(true, Ordering::SeqCst);
        self.wait_for(&self.answered);
    }

    /// Says that the first session has ended.
    pub fn first_has_ended(&self) {
        self.stands.store(true, Ordering::SeqCst);
    }

    /// Holds the second session until the first stands where it is held, or has ended.
    pub fn hold_second(&self) {
        self.wait_for(&self.stands);
    }

    /// Says that the second session has been answered.
    pub fn second_is_answered(&self) {
        self.answered.store(true, Ordering::SeqCst);
    }

    /// How often the first session stood where it is held.
    pub fn times(&self) -> u32 {
        self.times.load(Ordering::SeqCst)
    }

    /// Whether the turns of a wait ran out.
    pub fn is_late(&self) -> bool {
        self.late.load(Ordering::SeqCst)
    }
}
