//! An office in memory.
ghost use Rattle.std.specs.Prelude.{◌≡◌, ◌≤◌, ◌↔◌, ◌⊎◌, true, map, Contains, IsTrue, IsErrOf, IfOk, None, [], unwrap_or};
ghost use Rattle.pj_io.specs.Causes.{one_more, HasFaultCause};
ghost use Rattle.pj_io.specs.Sessions.{shared_sessions};
ghost use Rattle.pj_io.specs.Plan.{named, contents_of, source_by, sink_by, door_by};
ghost use Rattle.pj_io.specs.MemOffice.{new_office, AfterReading, AfterWriting};
ghost use Rattle.pj_io.specs.SessionCounts.{shared_counts};

use crate::{DoorRefusal, MemDoor, MemSink, MemSource, Office, Plan};
use std::marker::Model;

/// An office whose sources, sinks and doors stand in memory. Chosen openings fail, and so does one
/// that asks for a path or an address that the plan does not have.
#[derive(Drop)]
pub struct MemOffice {
    plan: Plan,
    openings: u64,
    read_faults: u64,
    write_faults: u64,
}

impl Model for MemOffice {
    ghost use Rattle.pj_io.specs.MemOffice.{OfficeInMemory};

    ghost Value = { OfficeInMemory };

    ghost view = { λ o. record {
      plan = o.plan;
      openings = o.openings;
      read_faults = o.read_faults;
      write_faults = o.write_faults;
    } };
}

impl MemOffice {
    /// An office with this plan. Opening `k`, counted from 1 over all five kinds, fails where the
    /// plan's `open_failing` has `k`.
    pub fn new(plan: Plan) -> MemOffice
        ensures { result ≡ new_office plan }
    {
        MemOffice {
            plan,
            openings: 0,
            read_faults: 0,
            write_faults: 0,
        }
    }

    // Counts one more opening, and answers whether it is one of those that fail.
    fn opening_fails(&mut self) -> bool
        ensures failing { IsTrue result ↔ Contains self.old.plan.open_failing (one_more self.old.openings) }
        ensures after { self.new ≡ record self.old { openings = one_more self.old.openings } }
    {
        self.openings = self.openings.saturating_add(1);
        self.plan.fails(self.openings)
    }

    // Counts one more failed opening for reading.
    fn read_fault(&mut self) -> DoorRefusal
        ensures refusal { result ≡ DoorRefusal.Failed }
        ensures after { self.new ≡ record self.old { read_faults = one_more self.old.read_faults } }
        ensures never_falls { self.old.read_faults ≤ self.new.read_faults }
    {
        self.read_faults = self.read_faults.saturating_add(1);
        DoorRefusal::Failed
    }

    // Counts one more failed opening for writing.
    fn write_fault(&mut self) -> DoorRefusal
        ensures refusal { result ≡ DoorRefusal.Failed }
        ensures after { self.new ≡ record self.old { write_faults = one_more self.old.write_faults } }
        ensures never_falls { self.old.write_faults ≤ self.new.write_faults }
    {
        self.write_faults = self.write_faults.saturating_add(1);
        DoorRefusal::Failed
    }
}

impl Office for MemOffice {
    type Src = MemSource;

    type Dst = MemSink;

    type Way = MemDoor;

    ghost meaning = { record {
      tells = λ _. true;
      contents = λ o. contents_of o.plan;
      read_faults = λ o. o.read_faults;
      write_faults = λ o. o.write_faults;
    } };

    ghost as_many = { λ o told. λ address shares. shared_counts _ shares };

    fn input(&mut self) -> Result<MemSource, DoorRefusal>
        ensures cause { HasFaultCause self.old.read_faults self.new.read_faults result }

        // Exactly the chosen openings fail.
        ensures failing { IsErrOf result DoorRefusal.Failed ↔
            Contains self.old.plan.open_failing (one_more self.old.openings) }
        ensures made { IfOk result (λ source. source ≡ source_by self.old.plan self.old.plan.input) }
        ensures after { AfterReading self.old self.new result }
    {
        if self.opening_fails() {
            return Err(self.read_fault());
        }
        Ok(self.plan.input_source()?)
    }

    fn output(&mut self) -> Result<MemSink, DoorRefusal>
        ensures cause { HasFaultCause self.old.write_faults self.new.write_faults result }

        // Exactly the chosen openings fail.
        ensures failing { IsErrOf result DoorRefusal.Failed ↔
            Contains self.old.plan.open_failing (one_more self.old.openings) }
        ensures made { IfOk result (λ sink. sink ≡ sink_by self.old.plan []) }
        ensures after { AfterWriting self.old self.new result }
    {
        if self.opening_fails() {
            return Err(self.write_fault());
        }
        Ok(self.plan.sink("")?)
    }

    fn script(&mut self, path: &str) -> Result<MemSource, DoorRefusal>
        ensures cause { HasFaultCause self.old.read_faults self.new.read_faults result }

        // Exactly the chosen openings fail, and those of a path that is not in the plan.
        ensures failing { IsErrOf result DoorRefusal.Failed ↔
            (Contains self.old.plan.open_failing (one_more self.old.openings) ⊎
            (named path.now self.old.plan.scripts ≡ None)) }
        ensures made { IfOk result (λ source. source ≡
            source_by self.old.plan ((contents_of self.old.plan).script path.now)) }
        ensures after { AfterReading self.old self.new result }
    {
        if self.opening_fails() {
            return Err(self.read_fault());
        }
        match self.plan.script_at(path) {
            Some(script) => Ok(self.plan.source(script)?),
            None => Err(self.read_fault()),
        }
    }

    fn replies(&mut self, path: &str) -> Result<MemSink, DoorRefusal>
        ensures cause { HasFaultCause self.old.write_faults self.new.write_faults result }

        // Exactly the chosen openings fail.
        ensures failing { IsErrOf result DoorRefusal.Failed ↔
            Contains self.old.plan.open_failing (one_more self.old.openings) }
        ensures made { IfOk result (λ sink. sink ≡ sink_by self.old.plan path.now) }
        ensures after { AfterWriting self.old self.new result }
    {
        if self.opening_fails() {
            return Err(self.write_fault());
        }
        Ok(self.plan.sink(path)?)
    }

    fn doors(&mut self, address: &str, shares: &[u32]) -> Result<Vec<MemDoor>, DoorRefusal>
        ensures cause { HasFaultCause self.old.read_faults self.new.read_faults result }

        // Exactly the chosen openings fail, and those of an address that is not in the plan.
        ensures failing { IsErrOf result DoorRefusal.Failed ↔
            (Contains self.old.plan.open_failing (one_more self.old.openings) ⊎
            (named address.now self.old.plan.sessions ≡ None)) }

        // The doors take the sessions of the address in order, as many as each share.
        ensures made { IfOk result (λ doors. doors.items ≡ map (door_by self.old.plan)
            (shared_sessions (unwrap_or (named address.now self.old.plan.sessions) []) shares.now)) }
        ensures after { AfterReading self.old self.new result }
    {
        if self.opening_fails() {
            return Err(self.read_fault());
        }
        match self.plan.sessions_at(address) {
            Some(listed) => Ok(self.plan.doors(listed, shares)?),
            None => Err(self.read_fault()),
        }
    }

    fn read_faults(&self) -> u64 {
        self.read_faults
    }

    fn write_faults(&self) -> u64 {
        self.write_faults
    }
}
