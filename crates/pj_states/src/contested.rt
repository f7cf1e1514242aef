//! How a table of versions asks whether a hunk is contested.

ghost use Rattle.std.specs.Prelude.{◌≡◌, Bool};
ghost use Rattle.pj_ranges.specs.declared.range.HunkAt.{HunkAt};

use pj_ranges::HunkAt;

/// Which `delete` hunks are contested.
pub trait ContestedHunks {
    ghost contested: { Self → HunkAt → Bool };

    /// Whether the hunk is contested.
    fn is_contested(&self, by: HunkAt) -> bool
        ensures { result ≡ contested self.now by };
}
