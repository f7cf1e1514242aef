//! A change of the store.
ghost use Rattle.std.specs.Prelude.{◌≡◌, IfOk};
ghost use Rattle.std.specs.Arc.{arc_value};

use pj_change::{Memory, Record};
use std::marker::Model;
use std::sync::Arc;

/// A change of the store: its record, which is shared. Contracts see the record.
#[derive(Drop)]
pub struct Stored {
    record: Arc<Record>,
}

impl Model for Stored {
    ghost use Rattle.std.specs.Arc.{arc_value};
    ghost use Rattle.pj_change.specs.declared.change.Record.{Record};

    ghost Value = { Record };

    ghost view = { λ s. arc_value s.record };
}

impl Stored {
    /// The change of this record.
    pub fn of(shared: Arc<Record>) -> Stored
        ensures { result ≡ arc_value shared }
    {
        Stored { record: shared }
    }

    /// Its record.
    pub fn record(&self) -> &Arc<Record>
        ensures { arc_value result.now ≡ self.now }
    {
        &self.record
    }

    /// The same record for a second owner.
    pub fn share(&self) -> Result<Stored, Memory>
        ensures { IfOk result (λ s. s ≡ self.now) }
    {
        let record = Arc::try_clone(&self.record)?;
        Ok(Stored { record })
    }
}
