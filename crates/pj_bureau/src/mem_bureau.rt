//! A bureau in memory.
ghost use Rattle.std.specs.Prelude.{◌≡◌, ◌≤◌, ◌↔◌, true, Some, None, MatchOption, IfOk, IsErrOf};
ghost use Rattle.pj_io.specs.Causes.{one_more, HasFaultCause};
ghost use Rattle.pj_io.specs.Plan.{named, contents_of, scripts_of};
ghost use Rattle.pj_io.specs.SessionCounts.{shared_counts};
ghost use Rattle.pj_disk.specs.MemDisk.{new_disk};
ghost use Rattle.pj_bureau.specs.MemBureau.{store_at, AfterStore};

use crate::bureau::Bureau;
use pj_disk::MemDisk;
use pj_io::{DoorRefusal, MemDoor, MemOffice, MemSink, MemSource, Office};
use std::collections::BTreeMap;
use std::marker::Model;

/// An office in memory with stores in memory. A store that is opened is a disk of its own, all whose calls fail after so many;
/// what is written to it does not come back. The opening of a path that is not there fails.
#[derive(Drop)]
pub struct MemBureau {
    office: MemOffice,
    stores: BTreeMap<String, Vec<u8>>,
    calls: u64,
    faults: u64,
}

impl Model for MemBureau {
    ghost use Rattle.pj_io.specs.Plan.{scripts_of};
    ghost use Rattle.pj_bureau.specs.MemBureau.{BureauInMemory};

    ghost Value = { BureauInMemory };

    ghost view = { λ b. record {
      office = b.office;
      stores = scripts_of b.stores;
      calls = b.calls;
      faults = b.faults;
    } };
}

impl MemBureau {
    /// A bureau with this office and these stores, by their paths. After so many calls of a store all of them fail.
    pub fn new(office: MemOffice, stores: BTreeMap<String, Vec<u8>>, calls: u64) -> MemBureau
        ensures office { result.office ≡ office }
        ensures stores { result.stores ≡ scripts_of stores }
        ensures calls { result.calls ≡ calls }
        ensures faults { result.faults ≡ 0 }
    {
        MemBureau {
            office,
            stores,
            calls,
            faults: 0,
        }
    }

    // The bytes under a path.
    fn bytes_at(&self, path: &str) -> Option<&Vec<u8>>
        ensures { MatchOption result (named path.now self.now.stores ≡ None)
            (λ bytes. named path.now self.now.stores ≡ Some bytes.now.items) }
    {
        match self.stores.get(path) {
            Some(bytes) => Some(bytes),
            None => None,
        }
    }

    // Counts one more failed opening of a store.
    fn store_fault(&mut self) -> DoorRefusal
        ensures refusal { result ≡ DoorRefusal.Failed }
        ensures after { self.new ≡ record self.old { faults = one_more self.old.faults } }
        ensures never_falls { self.old.faults ≤ self.new.faults }
    {
        self.faults = self.faults.saturating_add(1);
        DoorRefusal::Failed
    }
}

impl Office for MemBureau {
    type Src = MemSource;

    type Dst = MemSink;

    type Way = MemDoor;

    ghost meaning = { record {
      tells = λ _. true;
      contents = λ b. contents_of b.office.plan;
      read_faults = λ b. b.office.read_faults;
      write_faults = λ b. b.office.write_faults;
    } };

    ghost as_many = { λ o told. λ address shares. shared_counts _ shares };

    fn input(&mut self) -> Result<MemSource, DoorRefusal> {
        self.office.input()
    }

    fn output(&mut self) -> Result<MemSink, DoorRefusal> {
        self.office.output()
    }

    fn script(&mut self, path: &str) -> Result<MemSource, DoorRefusal> {
        self.office.script(path)
    }

    fn replies(&mut self, path: &str) -> Result<MemSink, DoorRefusal> {
        self.office.replies(path)
    }

    fn doors(&mut self, address: &str, shares: &[u32]) -> Result<Vec<MemDoor>, DoorRefusal> {
        self.office.doors(address, shares)
    }

    fn read_faults(&self) -> u64 {
        self.office.read_faults()
    }

    fn write_faults(&self) -> u64 {
        self.office.write_faults()
    }
}

impl Bureau for MemBureau {
    type Store = MemDisk;

    ghost bureaus = { record { stores = store_at; faults = λ b. b.faults } };

    fn store(&mut self, path: &str) -> Result<MemDisk, DoorRefusal>
        ensures cause { HasFaultCause self.old.faults self.new.faults result }

        // Exactly the opening of a path that is not there fails.
        ensures failing { IsErrOf result DoorRefusal.Failed ↔ (named path.now self.old.stores ≡ None) }
        ensures made { IfOk result (λ disk. disk ≡ new_disk (store_at self.old path.now) (Some self.old.calls)) }
        ensures after { AfterStore self.old self.new result }
    {
        match self.bytes_at(path) {
            Some(bytes) => {
                let alloc = *bytes.allocator();
                let Ok(bytes) = bytes.to_vec(alloc) else {
                    return Err(DoorRefusal::Memory);
                };
                match MemDisk::new(alloc, bytes, self.calls) {
                    Ok(disk) => Ok(disk),
                    Err(_) => Err(DoorRefusal::Memory),
                }
            }
            None => Err(self.store_fault()),
        }
    }

    fn store_faults(&self) -> u64 {
        self.faults
    }
}
