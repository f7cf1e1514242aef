//! The keys and the values of the two maps of a tree, and the orders of the keys.

ghost use Rattle.std.specs.Prelude.{◌≡◌, None, Some, MatchOption};
ghost use Rattle.std.specs.Arc.{arc_value};
ghost use Rattle.std.specs.Ordering.{as_partial_cmp, eq_by_cmp};
ghost use Rattle.std.proofs.Common.{refl};
ghost use Rattle.pj_tree.specs.RowOrder.{key_cmp, key_total, key_equivalence, key_partial_equivalence, key_partial_order};

use crate::row::NameRow;
use pj_change::Point;
use pj_pmap::{Memory, Share};
use std::cmp::Ordering;
use std::marker::Model;
use std::sync::Arc;

/// A key of the map of rows: a row, or what is below each row.
#[derive(Drop)]
pub struct RowKey {
    row: Option<Arc<NameRow>>,
}

impl Model for RowKey {
    ghost use Rattle.std.specs.Prelude.{Option};
    ghost use Rattle.std.specs.Option.{option_map};
    ghost use Rattle.std.specs.Arc.{arc_value};
    ghost use Rattle.pj_tree.specs.declared.row.NameRow.{NameRow};

    ghost Value = { Option NameRow };

    ghost view = { λ k. option_map arc_value k.row };
}

impl RowKey {
    /// Below each row.
    pub fn least() -> RowKey
        ensures { result ≡ None }
    {
        RowKey { row: None }
    }

    /// The key of a row.
    pub fn of(row: Arc<NameRow>) -> RowKey
        ensures { result ≡ Some (arc_value row) }
    {
        RowKey { row: Some(row) }
    }

    /// Its row.
    pub fn row(&self) -> Option<&NameRow>
        ensures { MatchOption result (self.now ≡ None) (λ r. self.now ≡ Some r.now) }
    {
        match &self.row {
            Some(row) => Some(row),
            None => None,
        }
    }
}

impl PartialEq for RowKey {
    ghost eq = { eq_by_cmp key_cmp };

    ghost laws = { key_partial_equivalence };

    fn eq(&self, other: &RowKey) -> bool {
        self.cmp(other) == Ordering::Equal
    }
}

impl Eq for RowKey {
    ghost laws = { key_equivalence };
}

impl Ord for RowKey {
    ghost cmp = { key_cmp };

    ghost total = { key_total };

    ghost matches_partial_cmp = { λ x y. refl };

    ghost matches_eq = { λ x y. refl };

    fn cmp(&self, other: &RowKey) -> Ordering {
        match (self.row(), other.row()) {
            (None, None) => Ordering::Equal,
            (None, Some(_)) => Ordering::Less,
            (Some(_), None) => Ordering::Greater,
            (Some(row), Some(other)) => row.order(other),
        }
    }
}

impl PartialOrd for RowKey {
    ghost partial_cmp = { as_partial_cmp key_cmp };

    ghost laws = { key_partial_order };

    fn partial_cmp(&self, other: &RowKey) -> Option<Ordering> {
        Some(self.cmp(other))
    }
}

impl Share for RowKey {
    ghost shown = { λ k. k };

    fn share(&self) -> Result<RowKey, Memory> {
        let Some(row) = &self.row else {
            return Ok(RowKey::least());
        };
        match Arc::try_clone(row) {
            Ok(row) => Ok(RowKey::of(row)),
            Err(_) => Err(Memory),
        }
    }
}

/// A key of the map of inodes: a point, or what is below each point.
#[derive(Clone, Copy, PartialEq, Eq, PartialOrd, Ord)]
pub struct InodeKey {
    pub at: Option<Point>,
}

impl Share for InodeKey {
    ghost shown = { λ k. k };

    fn share(&self) -> Result<InodeKey, Memory> {
        Ok(*self)
    }
}

/// What the map of rows has beside a key.
#[derive(Clone, Copy)]
pub struct Here;

impl Share for Here {
    ghost shown = { λ h. h };

    fn share(&self) -> Result<Here, Memory> {
        Ok(Here)
    }
}

/// What the map of inodes has beside a key.
#[derive(Clone, Copy)]
pub struct InodeKind {
    pub dir: bool,
}

impl Share for InodeKind {
    ghost shown = { λ k. k };

    fn share(&self) -> Result<InodeKind, Memory> {
        Ok(*self)
    }
}
