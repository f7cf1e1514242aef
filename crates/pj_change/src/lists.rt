//! The lists that changes are made of: bytes, numbers of needs, references, names and hunks.

use crate::hunk::Hunk;
use crate::point::Ref;
use pj_name::Name;
use std::marker::Model;

/// A list of bytes.
#[derive(Drop)]
pub struct Bytes {
    items: Vec<u8>,
}

impl Model for Bytes {
    ghost use Rattle.std.specs.Prelude.{ℕ, List};

    ghost Value = { List ℕ };

    ghost view = { λ b. b.items.items };
}

impl Bytes {
    ghost use Rattle.std.specs.Prelude.{◌≡◌};

    /// The list of these bytes.
    pub fn of(items: Vec<u8>) -> Bytes
        ensures { result ≡ items.items }
    {
        Bytes { items }
    }

    /// Its bytes.
    pub fn items(&self) -> &[u8]
        ensures { result.now ≡ self.now }
    {
        self.items.as_slice()
    }
}

/// A list of the numbers of needs, counted from 1.
#[derive(Drop)]
pub struct Owners {
    items: Vec<u32>,
}

impl Model for Owners {
    ghost use Rattle.std.specs.Prelude.{ℕ, List};

    ghost Value = { List ℕ };

    ghost view = { λ b. b.items.items };
}

impl Owners {
    ghost use Rattle.std.specs.Prelude.{◌≡◌};

    /// The list of these numbers.
    pub fn of(items: Vec<u32>) -> Owners
        ensures { result ≡ items.items }
    {
        Owners { items }
    }

    /// Its numbers.
    pub fn items(&self) -> &[u32]
        ensures { result.now ≡ self.now }
    {
        self.items.as_slice()
    }
}

/// A list of references.
#[derive(Drop)]
pub struct Refs {
    items: Vec<Ref>,
}

impl Model for Refs {
    ghost use Rattle.std.specs.Prelude.{List};
    ghost use Rattle.pj_change.specs.declared.point.Ref.{Ref};

    ghost Value = { List Ref };

    ghost view = { λ b. b.items.items };
}

impl Refs {
    ghost use Rattle.std.specs.Prelude.{◌≡◌};

    /// The list of these references.
    pub fn of(items: Vec<Ref>) -> Refs
        ensures { result ≡ items.items }
    {
        Refs { items }
    }

    /// Its references.
    pub fn items(&self) -> &[Ref]
        ensures { result.now ≡ self.now }
    {
        self.items.as_slice()
    }
}

/// A list of names of changes.
#[derive(Drop)]
pub struct Names {
    items: Vec<Name>,
}

impl Model for Names {
    ghost use Rattle.std.specs.Prelude.{List};
    ghost use Rattle.pj_name.specs.declared.name.Name.{Name};

    ghost Value = { List Name };

    ghost view = { λ b. b.items.items };
}

impl Names {
    ghost use Rattle.std.specs.Prelude.{◌≡◌};

    /// The list of these names.
    pub fn of(items: Vec<Name>) -> Names
        ensures { result ≡ items.items }
    {
        Names { items }
    }

    /// Its names.
    pub fn items(&self) -> &[Name]
        ensures { result.now ≡ self.now }
    {
        self.items.as_slice()
    }
}

/// A list of hunks.
#[derive(Drop)]
pub struct Hunks {
    items: Vec<Hunk>,
}

impl Model for Hunks {
    ghost use Rattle.std.specs.Prelude.{List};
    ghost use Rattle.pj_change.specs.declared.hunk.Hunk.{Hunk};

    ghost Value = { List Hunk };

    ghost view = { λ b. b.items.items };
}

impl Hunks {
    ghost use Rattle.std.specs.Prelude.{◌≡◌};

    /// The list of these hunks.
    pub fn of(items: Vec<Hunk>) -> Hunks
        ensures { result ≡ items.items }
    {
        Hunks { items }
    }

    /// Its hunks.
    pub fn items(&self) -> &[Hunk]
        ensures { result.now ≡ self.now }
    {
        self.items.as_slice()
    }
}
