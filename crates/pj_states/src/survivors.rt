//! What survives at a point, and the status that follows from it.

ghost use Rattle.std.specs.Prelude.{◌≡◌, ◌&&◌, ◌||◌, false};
ghost use Rattle.pj_states.specs.Statuses.{status_by};

use pj_change::Status;

/// Which kinds of versions of a point survive.
#[derive(Clone, Copy, PartialEq, Eq)]
pub struct Survivors {
    /// The owner's, which is alive.
    pub owner: bool,
    /// One of a hunk that revives, which is alive.
    pub revived: bool,
    /// One of a hunk that deletes.
    pub deleted: bool,
    /// One of a hunk that deletes and is contested.
    pub contested: bool,
}

impl Survivors {
    /// Nothing survives.
    pub fn none() -> Survivors
        ensures { result ≡ record { owner = false; revived = false; deleted = false; contested = false } }
    {
        Survivors {
            owner: false,
            revived: false,
            deleted: false,
            contested: false,
        }
    }

    /// Whether the point is a zombie whatever becomes of the owner's version.
    pub fn is_zombie(&self) -> bool
        ensures { result ≡ (self.now.deleted && (self.now.revived || self.now.contested)) }
    {
        self.deleted && (self.revived || self.contested)
    }

    /// Whether a version that is alive survives.
    pub fn alive(&self) -> bool
        ensures { result ≡ (self.now.owner || self.now.revived) }
    {
        self.owner || self.revived
    }

    /// The status of the point: alive where no deleted version survives; dead where all that survive are deleted and none is of a
    /// contested hunk; else a zombie.
    pub fn status(&self) -> Status
        ensures { result ≡ status_by self.now.deleted (self.now.owner || self.now.revived) self.now.contested }
    {
        if !self.deleted {
            return Status::Alive;
        }
        if self.alive() || self.contested {
            Status::Zombie
        } else {
            Status::Dead
        }
    }
}
