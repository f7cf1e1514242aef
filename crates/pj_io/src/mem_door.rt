//! A door in memory.
ghost use Rattle.std.specs.Prelude.{refl, ◌≡◌, ◌<◌, ◌^◌, ◌↔◌, true, length, vec_len, Contains, IsErrOf};
ghost use Rattle.pj_io.specs.Causes.{one_more, HasFaultCause};
ghost use Rattle.pj_io.specs.Door.{IfPair, Counts, Comes};
ghost use Rattle.pj_io.specs.Sessions.{bytes_of_each};
ghost use Rattle.pj_io.specs.MemDoor.{new_door, AfterAccept, MadeByWays};

use crate::sessions::Sessions;
use crate::{Door, DoorRefusal, MemSink, MemSource, Ways};
use std::marker::Model;

/// A door whose sessions stand in memory. Chosen calls fail.
#[derive(Drop)]
pub struct MemDoor {
    sessions: Sessions,
    total: u32,
    ways: Ways,
    failing: Vec<u64>,
    calls: u64,
    faults: u64,
}

impl Model for MemDoor {
    ghost use Rattle.std.specs.Prelude.{◌-◌, ◌≤◌, length};
    ghost use Rattle.pj_io.specs.MemDoor.{DoorInMemory};

    ghost Value = { DoorInMemory };

    ghost view = { λ d. record {
      coming = d.sessions;
      given = d.total - length d.sessions;
      ways = d.ways;
      failing = d.failing.items;
      calls = d.calls;
      faults = d.faults;
    } };

    ghost invariant = { λ d. length d.sessions ≤ d.total };
}

impl MemDoor {
    /// A door with these sessions to give, each by its bytes, in order. Call `k` of `accept`, counted
    /// from 1, fails where `failing` has `k` and a session is left. The sources and sinks that it
    /// gives are made by `ways`.
    pub fn new(sessions: Vec<Vec<u8>>, ways: Ways, failing: Vec<u64>) -> MemDoor
        requires { vec_len sessions < 2 ^ 32 }
        ensures { result ≡ new_door (bytes_of_each sessions.items) ways failing.items }
    {
        MemDoor::over(Sessions::all(sessions), ways, failing)
    }

    pub(crate) fn over(sessions: Sessions, ways: Ways, failing: Vec<u64>) -> MemDoor
        ensures { result ≡ new_door sessions ways failing.items }
    {
        MemDoor {
            total: sessions.len(),
            sessions,
            ways,
            failing,
            calls: 0,
            faults: 0,
        }
    }
}

impl Door for MemDoor {
    type Src = MemSource;

    type Dst = MemSink;

    ghost meaning = { record {
      tells = λ _. true;
      given = λ d. d.given;
      coming = λ d. d.coming;
      left = λ d. length d.coming;
      faults = λ d. d.faults;
    } };

    ghost all_told = { λ d told. refl };

    fn accept(&mut self) -> Result<Option<(MemSource, MemSink)>, DoorRefusal>
        ensures left { Counts (length self.old.coming) (length self.new.coming) result }
        ensures cause { HasFaultCause self.old.faults self.new.faults result }
        ensures bytes { Comes (λ source. source.left) self.old.coming self.new.coming result }

        // Exactly the chosen calls fail, where a session is left.
        ensures failing { IsErrOf result DoorRefusal.Failed ↔
            ((0 < length self.old.coming) × Contains self.old.failing (one_more self.old.calls)) }
        ensures made { IfPair result (MadeByWays self.old) }
        ensures after { AfterAccept self.old self.new result }
    {
        self.calls = self.calls.saturating_add(1);
        if self.sessions.len() == 0 {
            return Ok(None);
        }
        if self.failing.contains(&self.calls) {
            self.faults = self.faults.saturating_add(1);
            return Err(DoorRefusal::Failed);
        }
        let number = self.total - self.sessions.len() + 1;
        let label = format!(in *self.failing.allocator(); "{number}")?;
        let ways = self.ways.clone()?;
        let source = MemSource::new(self.sessions.next(), ways.pieces, ways.take_failing);
        let sink = MemSink::new(label, ways.piece, ways.give_failing);
        Ok(Some((source, sink)))
    }

    fn left(&self) -> u32 {
        self.sessions.len()
    }

    fn faults(&self) -> u64 {
        self.faults
    }
}
