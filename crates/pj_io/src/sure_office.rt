//! An office in memory that never fails.
ghost use Rattle.std.specs.Prelude.{◌≡◌, true};
ghost use Rattle.pj_io.specs.Plan.{contents_of};
ghost use Rattle.pj_io.specs.SessionCounts.{shared_counts};

use crate::{DoorRefusal, Office, Plan, SureDoor, SureSink, SureSource};
use std::marker::Model;

/// An office whose sources and doors stand in memory, and that never fails: it refuses an opening
/// only for want of memory. A path or an address that the plan does not have has no bytes and no
/// sessions. It does not look at the plan's `ways` and failing numbers.
#[derive(Drop)]
pub struct SureOffice {
    plan: Plan,
}

impl Model for SureOffice {
    ghost use Rattle.pj_io.specs.Plan.{PlanInMemory};

    ghost Value = { PlanInMemory };

    ghost view = { λ o. o.plan };
}

impl SureOffice {
    /// An office with this plan.
    pub fn new(plan: Plan) -> SureOffice
        ensures { result ≡ plan }
    {
        SureOffice { plan }
    }
}

impl Office for SureOffice {
    type Src = SureSource;

    type Dst = SureSink;

    type Way = SureDoor;

    ghost meaning = { record {
      tells = λ _. true;
      contents = λ o. contents_of o;
      read_faults = λ _. 0;
      write_faults = λ _. 0;
    } };

    ghost as_many = { λ o told. λ address shares. shared_counts _ shares };

    fn input(&mut self) -> Result<SureSource, DoorRefusal> {
        Ok(self.plan.sure_input()?)
    }

    fn output(&mut self) -> Result<SureSink, DoorRefusal> {
        Ok(SureSink::new())
    }

    fn script(&mut self, path: &str) -> Result<SureSource, DoorRefusal> {
        Ok(self.plan.sure_script(path)?)
    }

    fn replies(&mut self, _path: &str) -> Result<SureSink, DoorRefusal> {
        Ok(SureSink::new())
    }

    fn doors(&mut self, address: &str, shares: &[u32]) -> Result<Vec<SureDoor>, DoorRefusal> {
        Ok(self.plan.sure_doors(address, shares)?)
    }

    fn read_faults(&self) -> u64 {
        0
    }

    fn write_faults(&self) -> u64 {
        0
    }
}
