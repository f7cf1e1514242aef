//! The values of the table of versions: which positions a hunk deletes or revives, and whose versions it takes the place of.

ghost use Rattle.std.specs.Prelude.{◌≡◌};
ghost use Rattle.pj_states.specs.Rows as row;

use pj_change::Names;
use pj_name::Name;

/// What a `delete` or a `revive` hunk says of a range of positions of a change.
#[derive(Drop)]
pub struct Deletion {
    /// The change whose positions they are.
    pub owner: Name,
    /// The first position.
    pub start: u32,
    /// The one past the last.
    pub end: u32,
    /// The changes whose versions of these positions the hunk takes the place of.
    pub by: Names,
    /// Whether the hunk revives.
    pub alive: bool,
}

impl Deletion {
    /// Whether the change of this name is under `by`.
    pub fn has_by(&self, name: Name) -> bool
        ensures { result ≡ row.has_by self.now name }
    {
        self.by.items().iter().any(|by| *by == name)
    }
}
