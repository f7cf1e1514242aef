//! What a walk asks of names and inodes: the status of a name, and whether an inode has live text.

ghost use Rattle.std.specs.Prelude.{◌≡◌, Bool};
ghost use Rattle.pj_change.specs.declared.point.Point.{Point};
ghost use Rattle.pj_change.specs.declared.graph.Status.{Status};

use pj_change::{Point, Status};

/// What is live in a set of changes.
pub trait Lives {
    ghost status: { Self → Point → Status };

    ghost live: { Self → Point → Bool };

    /// The status of the name at a point.
    fn name(&self, at: Point) -> Status
        ensures { result ≡ status self.now at };

    /// Whether an inode has live text.
    fn content(&self, inode: Point) -> bool
        ensures { result ≡ live self.now inode };
}
