//! A door in memory that never fails.
ghost use Rattle.std.specs.Prelude.{refl, ◌≡◌, ◌<◌, ◌^◌, true, length, vec_len, IsOk};
ghost use Rattle.pj_io.specs.Door.{IfPair, Counts, CountsGiven, Comes};
ghost use Rattle.pj_io.specs.Sessions.{bytes_of_each};
ghost use Rattle.pj_io.specs.SureSource.{new_sure_source};
ghost use Rattle.pj_io.specs.SureDoor.{new_sure_door};

use crate::sessions::Sessions;
use crate::{Door, DoorRefusal, SureSink, SureSource};
use std::marker::Model;

/// A door whose sessions stand in memory, and that never fails.
#[derive(Drop)]
pub struct SureDoor {
    sessions: Sessions,
    total: u32,
}

impl Model for SureDoor {
    ghost use Rattle.std.specs.Prelude.{◌-◌, ◌≤◌, length};
    ghost use Rattle.pj_io.specs.SureDoor.{SureDoorInMemory};

    ghost Value = { SureDoorInMemory };

    ghost view = { λ d. record { coming = d.sessions; given = d.total - length d.sessions } };

    ghost invariant = { λ d. length d.sessions ≤ d.total };
}

impl SureDoor {
    /// A door with these sessions to give, each by its bytes, in order.
    pub fn new(sessions: Vec<Vec<u8>>) -> SureDoor
        requires { vec_len sessions < 2 ^ 32 }
        ensures { result ≡ new_sure_door (bytes_of_each sessions.items) }
    {
        SureDoor::over(Sessions::all(sessions))
    }

    pub(crate) fn over(sessions: Sessions) -> SureDoor
        ensures { result ≡ new_sure_door sessions }
    {
        SureDoor {
            total: sessions.len(),
            sessions,
        }
    }
}

impl Door for SureDoor {
    type Src = SureSource;

    type Dst = SureSink;

    ghost meaning = { record {
      tells = λ _. true;
      given = λ d. d.given;
      coming = λ d. d.coming;
      left = λ d. length d.coming;
      faults = λ _. 0;
    } };

    ghost all_told = { λ d told. refl };

    fn accept(&mut self) -> Result<Option<(SureSource, SureSink)>, DoorRefusal>
        ensures sure { IsOk result }
        ensures left { Counts (length self.old.coming) (length self.new.coming) result }
        ensures given { CountsGiven self.old.given self.new.given result }
        ensures bytes { Comes (λ source. source.left) self.old.coming self.new.coming result }
        ensures made { IfPair result (λ source _. source ≡ new_sure_source source.left) }
    {
        if self.sessions.len() == 0 {
            return Ok(None);
        }
        let source = SureSource::new(self.sessions.next());
        Ok(Some((source, SureSink::new())))
    }

    fn left(&self) -> u32 {
        self.sessions.len()
    }

    fn faults(&self) -> u64 {
        0
    }
}
