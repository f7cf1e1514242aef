//! What an office in memory has to give.
ghost use Rattle.std.specs.Prelude.{◌≡◌, ◌↔◌, Some, None, MatchOption, IfOk, IsTrue, Contains, map, unwrap_or, []};
ghost use Rattle.pj_io.specs.Sessions.{bytes_of_each, shared_sessions};
ghost use Rattle.pj_io.specs.SureSource.{new_sure_source};
ghost use Rattle.pj_io.specs.SureDoor.{new_sure_door};
ghost use Rattle.pj_io.specs.Plan.{named, source_by, sink_by, door_by};

use crate::sessions::share_out;
use crate::{MemDoor, MemSink, MemSource, SureDoor, SureSource, Ways};
use std::alloc::AllocError;
use std::collections::BTreeMap;
use std::marker::Model;

/// What an office in memory has to give, and which of its openings fail.
#[derive(Drop)]
pub struct Plan {
    /// The bytes of the input.
    pub input: Vec<u8>,
    /// The bytes of each script, by its path.
    pub scripts: BTreeMap<String, Vec<u8>>,
    /// The bytes of each session at an address, in order.
    pub sessions: BTreeMap<String, Vec<Vec<u8>>>,
    /// How the sources and sinks behave.
    pub ways: Ways,
    /// The calls of each door that fail, counted from 1.
    pub accept_failing: Vec<u64>,
    /// The openings that fail, counted from 1 over all five kinds.
    pub open_failing: Vec<u64>,
}

impl Model for Plan {
    ghost use Rattle.pj_io.specs.Plan.{PlanInMemory, scripts_of, sessions_of};

    ghost Value = { PlanInMemory };

    ghost view = { λ p. record {
      input = p.input.items;
      scripts = scripts_of p.scripts;
      sessions = sessions_of p.sessions;
      ways = p.ways;
      accept_failing = p.accept_failing.items;
      open_failing = p.open_failing.items;
    } };
}

impl Plan {
    pub(crate) fn script_at(&self, path: &str) -> Option<&[u8]>
        ensures { MatchOption result (named path.now self.now.scripts ≡ None)
            (λ script. named path.now self.now.scripts ≡ Some script.now) }
    {
        match self.scripts.get(path) {
            Some(script) => Some(script),
            None => None,
        }
    }

    pub(crate) fn sessions_at(&self, address: &str) -> Option<&[Vec<u8>]>
        ensures { MatchOption result (named address.now self.now.sessions ≡ None)
            (λ listed. named address.now self.now.sessions ≡ Some (bytes_of_each listed.now)) }
    {
        match self.sessions.get(address) {
            Some(listed) => Some(listed),
            None => None,
        }
    }

    /// A source over these bytes, made by the plan's numbers.
    pub(crate) fn source(&self, bytes: &[u8]) -> Result<MemSource, AllocError>
        ensures { IfOk result (λ source. source ≡ source_by self.now bytes.now) }
    {
        let ways = self.ways.clone()?;
        let bytes = bytes.to_vec(*ways.pieces.allocator())?;
        Ok(MemSource::new(bytes, ways.pieces, ways.take_failing))
    }

    /// A sink with this label, made by the plan's numbers.
    pub(crate) fn sink(&self, label: &str) -> Result<MemSink, AllocError>
        ensures { IfOk result (λ sink. sink ≡ sink_by self.now label.now) }
    {
        let ways = self.ways.clone()?;
        let label = String::from_str(*ways.pieces.allocator(), label)?;
        Ok(MemSink::new(label, ways.piece, ways.give_failing))
    }

    /// A source over the input.
    pub(crate) fn input_source(&self) -> Result<MemSource, AllocError>
        ensures { IfOk result (λ source. source ≡ source_by self.now self.now.input) }
    {
        self.source(&self.input)
    }

    /// A door for each share of the listed sessions, made by the plan's numbers.
    pub(crate) fn doors(
        &self,
        listed: &[Vec<u8>],
        shares: &[u32],
    ) -> Result<Vec<MemDoor>, AllocError>
        ensures { IfOk result (λ doors. doors.items ≡
            map (door_by self.now) (shared_sessions (bytes_of_each listed.now) shares.now)) }
    {
        let alloc = *self.accept_failing.allocator();
        let mut doors = Vec::new(alloc);
        for sessions in share_out(alloc, listed, shares)? {
            let failing = self.accept_failing.to_vec(alloc)?;
            doors.push(MemDoor::over(sessions, self.ways.clone()?, failing))?;
        }
        Ok(doors)
    }

    /// Whether this opening, counted from 1, is one of those that fail.
    pub(crate) fn fails(&self, opening: u64) -> bool
        ensures { IsTrue result ↔ Contains self.now.open_failing opening }
    {
        self.open_failing.contains(&opening)
    }

    /// A sure source over the input.
    pub(crate) fn sure_input(&self) -> Result<SureSource, AllocError>
        ensures { IfOk result (λ source. source ≡ new_sure_source self.now.input) }
    {
        let bytes = self.input.to_vec(*self.input.allocator())?;
        Ok(SureSource::new(bytes))
    }

    /// A sure source over the script under a path, or over no bytes.
    pub(crate) fn sure_script(&self, path: &str) -> Result<SureSource, AllocError>
        ensures { IfOk result (λ source. source ≡
            new_sure_source (unwrap_or (named path.now self.now.scripts) [])) }
    {
        let script = self.script_at(path).unwrap_or(&[]);
        let bytes = script.to_vec(*self.input.allocator())?;
        Ok(SureSource::new(bytes))
    }

    /// A sure door for each share of the sessions at an address, or of none.
    pub(crate) fn sure_doors(
        &self,
        address: &str,
        shares: &[u32],
    ) -> Result<Vec<SureDoor>, AllocError>
        ensures { IfOk result (λ doors. doors.items ≡ map new_sure_door
            (shared_sessions (unwrap_or (named address.now self.now.sessions) []) shares.now)) }
    {
        let alloc = *self.accept_failing.allocator();
        let listed = self.sessions_at(address).unwrap_or(&[]);
        let mut doors = Vec::new(alloc);
        for sessions in share_out(alloc, listed, shares)? {
            doors.push(SureDoor::over(sessions))?;
        }
        Ok(doors)
    }
}
