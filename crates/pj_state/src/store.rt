//! The changes of a repository.
ghost use Rattle.std.specs.Prelude.{◌≡◌, ◌+◌, ◌<◌, ◌^◌, [], length, None, Some, cond, IfOk, OnOk, OnErr, MatchOption};
ghost use Rattle.std.specs.Arc.{arc_value};
ghost use Rattle.pj_name.specs.declared.name.Name.{Name};
ghost use Rattle.pj_name.specs.Name.{same_name};
ghost use Rattle.pj_state.specs.Records.{record_in};

use crate::store_key::StoreKey;
use pj_change::{Memory, Record};
use pj_name::Name;
use std::alloc::Global;
use std::collections::HashMap;
use std::sync::Arc;

/// The changes of a repository by their names, and the bytes of their texts.
#[derive(Drop)]
pub struct Store {
    pub records: HashMap<StoreKey, Arc<Record>>,
    pub bytes: u64,
}

impl Store {
    /// No change, and room for so many.
    pub fn with_room(alloc: Global, changes: u32) -> Result<Store, Memory>
        ensures records { IfOk result (λ s. s.records.entries ≡ []) }
        ensures bytes { IfOk result (λ s. s.bytes ≡ 0) }
    {
        let records = HashMap::with_capacity(alloc, changes as usize)?;
        Ok(Store { records, bytes: 0 })
    }

    /// The record of this name.
    pub fn get(&self, name: Name) -> Option<&Arc<Record>>
        ensures { MatchOption result (record_in self.now.records.entries name ≡ None) (λ r. record_in self.now.records.entries name ≡ Some (arc_value r.now)) }
    {
        self.records.get(&StoreKey::of(name))
    }

    /// Puts a record into the store that has none of its name. Where there was no memory the store stays as it was.
    pub fn insert(&mut self, shared: Arc<Record>) -> Result<(), Memory>
        requires new { record_in self.old.records.entries (arc_value shared).name ≡ None }
        requires fits { self.old.bytes + length (arc_value shared).text < 2 ^ 64 }
        ensures found { OnOk result ((name : Name) → record_in self.new.records.entries name ≡ cond (same_name (arc_value shared).name name) (Some (arc_value shared)) (record_in self.old.records.entries name)) }
        ensures count { OnOk result (length self.new.records.entries ≡ length self.old.records.entries + 1) }
        ensures bytes { OnOk result (self.new.bytes ≡ self.old.bytes + length (arc_value shared).text) }
        ensures records_stay { OnErr result (self.new.records.entries ≡ self.old.records.entries) }
        ensures bytes_stay { OnErr result (self.new.bytes ≡ self.old.bytes) }
    {
        let name = shared.name;
        let bytes = self.bytes + shared.text.items().len() as u64;
        if self.records.insert(StoreKey::of(name), shared).is_err() {
            return Err(Memory);
        }
        self.bytes = bytes;
        Ok(())
    }
}
