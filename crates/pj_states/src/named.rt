//! Which changes stand under which hunks' `by`.

ghost use Rattle.std.specs.Prelude.{◌≡◌, ◌+◌, ◌≤◌, ◌&&◌, ◌||◌, not, true, [], IfOk, IsTrue, length, map};
ghost use Rattle.std.specs.Ordering.{is_eq};
ghost use Rattle.pj_name.specs.declared.name.Name.{Name as NameValue};
ghost use Rattle.pj_ranges.specs.declared.range.HunkAt.{HunkAt as HunkValue};
ghost use Rattle.pj_ranges.specs.Units.{hunk_cmp};
ghost use Rattle.pj_states.specs.Named.{is_named, is_one_of, named_at};

use pj_name::Name;
use pj_pmap::{Memory, PMap, Share, Steps};
use pj_ranges::HunkAt;
use pj_rows::{Here, with_keys, without_keys};
use std::alloc::Global;
use std::marker::Model;
use std::sync::ledger::Ledger;

/// A change, and a hunk that has it under `by`; without a hunk, what is before all of the change.
#[derive(Clone, Copy, PartialEq, Eq, PartialOrd, Ord)]
pub struct NamedAt {
    pub name: Name,
    pub by: Option<HunkAt>,
}

impl Share for NamedAt {
    ghost shown = { λ k. k };

    fn share(&self) -> Result<NamedAt, Memory> {
        Ok(*self)
    }
}

/// The changes, each with the hunk.
fn keys_of(alloc: Global, names: &[Name], by: HunkAt) -> Result<Vec<NamedAt>, Memory>
    ensures { IfOk result (λ keys. keys.items ≡ map (λ name. named_at name by) names.now) }
{
    let mut keys = Vec::new(alloc);
    for name in names {
        keys.push(NamedAt {
            name: *name,
            by: Some(by),
        })?;
    }
    Ok(keys)
}

/// The changes that stand under the `by` of hunks, each with the hunk. A table that changes is given up: whoever keeps it shares it
/// before.
///
/// Contracts see these pairs in order.
pub struct Named {
    rows: PMap<NamedAt, Here>,
}

/// Written out and not derived: whoever lets go of one cites this proof, and proves nothing anew of its parts.
impl Drop for Named {
    fn drop(self) {
        let Named { rows: _rows } = self;
    }
}

impl Model for Named {
    ghost use Rattle.std.specs.Prelude.{List};
    ghost use Rattle.pj_rows.specs.declared.values.Here.{Here};
    ghost use Rattle.pj_states.specs.declared.named.NamedAt.{NamedAt};

    ghost Value = { List (NamedAt × Here) };

    ghost view = { λ n. n.rows };
}

impl Named {
    /// No change. It takes no memory.
    pub fn empty() -> Named
        ensures { result ≡ [] }
    {
        Named {
            rows: PMap::empty(),
        }
    }

    /// The same for a second owner, in constant time.
    pub fn share(&self) -> Result<Named, Memory>
        ensures { IfOk result (λ same. same ≡ self.now) }
    {
        let rows = self.rows.share()?;
        Ok(Named { rows })
    }

    /// With these changes under the `by` of the hunk too. One step for each.
    pub fn with<L: Ledger>(
        self,
        alloc: Global,
        names: &[Name],
        by: HunkAt,
        steps: &mut Steps<L>,
    ) -> Result<Named, Memory>
        ensures rows { IfOk result (λ new. (name : NameValue) (k : HunkValue) → is_named new name k ≡ ((is_one_of names.now name && is_eq (hunk_cmp k by)) || is_named self name k)) }
        ensures cost { steps.new ≤ steps.old + length names.now }
    {
        let keys = keys_of(alloc, names, by)?;
        let Named { rows } = self;
        let rows = with_keys(alloc, rows, &keys, steps)?;
        Ok(Named { rows })
    }

    /// Without these changes under the `by` of the hunk. One step for each.
    pub fn without<L: Ledger>(
        self,
        alloc: Global,
        names: &[Name],
        by: HunkAt,
        steps: &mut Steps<L>,
    ) -> Result<Named, Memory>
        ensures rows { IfOk result (λ new. (name : NameValue) (k : HunkValue) → is_named new name k ≡ (not (is_one_of names.now name && is_eq (hunk_cmp k by)) && is_named self name k)) }
        ensures cost { steps.new ≤ steps.old + length names.now }
    {
        let keys = keys_of(alloc, names, by)?;
        let Named { rows } = self;
        let rows = without_keys(alloc, rows, &keys, steps)?;
        Ok(Named { rows })
    }

    /// Whether some hunk has the change under its `by`. One search.
    pub fn has(&self, name: Name) -> bool
        ensures { (k : HunkValue) → is_named self.now name k ≡ true → IsTrue result }
    {
        let _rising = self.rows.len();
        match self.rows.next_after(&NamedAt { name, by: None }) {
            Some((row, _)) => row.name == name,
            None => false,
        }
    }
}
